// Document 01's worked cases, and a text for each kind of line that is refused; this crate has theorems and no functions.
#![tactic(auto)]
