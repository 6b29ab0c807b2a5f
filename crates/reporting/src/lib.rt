// What the commands `sum` and `merge` make: the text in one lent buffer, and the line of the answer in another.
#![tactic(auto)]

ghost use Rattle.std.specs.Prelude.{◌≡◌, length};
ghost use Rattle.io.specs.Counts.{IsPrefixLen};
ghost use Rattle.reporting.specs.Report.{first_missing, sum_report, merge_report, Reports};

use merging::MergeAnswer;
use merging::merge::merge;
use summing::sum;
use wording::{Mention, show, show_unproved};

// How long the text is that was made, and how long the line; 0 where there is none.
#[derive(Clone, Copy)]
pub struct Report {
    pub text: usize,
    pub line: usize,
}

// Which of four files is the first that can't be read, from 1; none where all of them can.
#[tactic(auto, unfolding(crate::specs::Report::first_missing))]
pub fn first_missing(one: bool, two: bool, three: bool, four: bool) -> Option<usize>
    ensures { result ≡ first_missing one two three four }
{
    match (one, two, three, four) {
        (false, _, _, _) => Some(1),
        (true, false, _, _) => Some(2),
        (true, true, false, _) => Some(3),
        (true, true, true, false) => Some(4),
        (true, true, true, true) => None,
    }
}

// Makes what `sum` makes of three files, of which the first that can't be read is given by its number, if there is one: the text of the
// sum, and the line of the answer.
pub fn sum_report(
    missing: Option<usize>,
    policy: &[u8],
    first: &[u8],
    second: &[u8],
    out: &mut [u8],
    line: &mut [u8],
) -> Report
    ensures reports { Reports (sum_report missing policy.now first.now second.now (length out.old)) out.old line.old result.text result.line out.new line.new }
    ensures prefix_len { IsPrefixLen result.text out.new × IsPrefixLen result.line line.new }
{
    if let Some(which) = missing {
        return Report {
            text: 0,
            line: show(line, b"NOFILE", &[], Mention::SumText, which),
        };
    }
    match sum(policy, first, second, out) {
        Ok(summed) => Report {
            text: summed.length,
            line: show(
                line,
                b"SUMMED",
                &[summed.pinned as u64, summed.length as u64],
                Mention::SumText,
                0,
            ),
        },
        Err(refused) => Report {
            text: 0,
            line: show(
                line,
                b"REFUSED",
                &[refused.refusal.number, refused.refusal.line as u64],
                Mention::SumText,
                refused.text,
            ),
        },
    }
}

// The same of `merge` and four files.
pub fn merge_report(
    missing: Option<usize>,
    policy_1: &[u8],
    typing_1: &[u8],
    policy_2: &[u8],
    typing_2: &[u8],
    out: &mut [u8],
    line: &mut [u8],
) -> Report
    ensures reports { Reports (merge_report missing policy_1.now typing_1.now policy_2.now typing_2.now (length out.old)) out.old line.old result.text result.line out.new line.new }
    ensures prefix_len { IsPrefixLen result.text out.new × IsPrefixLen result.line line.new }
{
    if let Some(which) = missing {
        return Report {
            text: 0,
            line: show(line, b"NOFILE", &[], Mention::MergeText, which),
        };
    }
    match merge(policy_1, typing_1, policy_2, typing_2, out) {
        MergeAnswer::Merged(roles, assigns, revokes, goals, pinned, length) => Report {
            text: length,
            line: show(
                line,
                b"MERGED",
                &[
                    roles as u64,
                    assigns as u64,
                    revokes as u64,
                    goals as u64,
                    pinned as u64,
                    length as u64,
                ],
                Mention::MergeText,
                0,
            ),
        },
        MergeAnswer::Unproved(which, failure) => Report {
            text: 0,
            line: show_unproved(line, which, failure.part, failure.number),
        },
        MergeAnswer::Refused(which, refusal) => Report {
            text: 0,
            line: show(
                line,
                b"REFUSED",
                &[refusal.number, refusal.line as u64],
                Mention::MergeText,
                which,
            ),
        },
    }
}
