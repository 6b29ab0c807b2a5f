// What is written of a policy is read back as that policy; this crate has theorems and no functions.
#![tactic(auto)]
