// Pieces of text, names and numbers written into a lent buffer.
#![tactic(auto)]

pub mod names;
pub mod numbers;
pub mod pieces;
