// The merge of two judged policies.
#![tactic(auto)]

use judging::Failure;
use walking::Refusal;

pub mod directory;
pub mod merge;

// The answer of merge.
#[derive(Clone, Copy)]
pub enum MergeAnswer {
    // the joint counts of roles, assign rules, revoke rules and goals, the pinned names, and the length of the text
    Merged(usize, usize, usize, usize, usize, usize),
    // which of the four judgings, from 1, and its first failure
    Unproved(usize, Failure),
    // which text the refusal speaks of, 1 policy one, 2 typing one, 3 policy two, 4 typing two, 0 none
    Refused(usize, Refusal),
}
