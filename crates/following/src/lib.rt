// What the steps of a trace are in the model's own words, and that a trace is gone through exactly so; this crate has theorems and no functions.
#![tactic(auto)]
