// What is written of a typing is read back as that typing; this crate has theorems and no functions.
#![tactic(auto)]
