// Policy texts that differ in the order of has lines and of names inside sets; this crate has theorems and no functions.
#![tactic(auto)]
