// The public face: check, its line, the bad line, sum, merge and spell; each also in lent memory; and the same in plain numbers, for C callers.
#![tactic(auto)]

pub mod face;
pub mod lent;

pub use answering::{check, check_in};
pub use merging::merge::{merge, merge_in};
pub use places::{
    bad_line, bad_line_in, bad_place, bad_place_in, bad_typing_line, bad_typing_line_in,
    bad_typing_place, bad_typing_place_in,
};
pub use printing::{check_line, check_line_in, program_line, program_line_in};
pub use scribing::{spell, spell_in};
pub use summing::{sum, sum_in};
