// What reading a policy and a typing establishes for judging them; this crate has theorems and no functions.
#![tactic(auto)]
