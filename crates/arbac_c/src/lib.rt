// The functions of `arbac` for C callers under their names in C, each with the promise that it has there.
#![tactic(auto)]

pub mod exports;
pub mod exports_in;
