// Merging over the texts: each answer exactly when its rule says so, and the sum that is written is accepted for both policies together; this crate has theorems and no functions.
#![tactic(auto)]
