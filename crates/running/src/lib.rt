// The verdict on a trace: every line is read, every step tried, and the last state judged.
#![tactic(auto)]

ghost use Rattle.std.specs.Prelude.{◌≡◌, ◌≤◌, length};
ghost use Rattle.tables.specs.Listed.{rows_of};
ghost use Rattle.ledgers.specs.Ledger.{ledger_words};
ghost use Rattle.reading.specs.Ledger.{ledger_says, Limited};
ghost use Rattle.running.specs.Verdict.{end_verdict, trace_verdict};

use ledgers::USERS;
use lines::Counts;
use state::{enter_new, first_bad, try_next};
use steps::Found;
use tables::{Name, Names};
use traces::read_line;
use walking::{Fault, Refusal};

mod state;

// The verdict on a trace that is read.
#[derive(Clone, Copy)]
pub enum TraceVerdict {
    // the number of steps, the user's place from 0, the user's name and the goal's number from 1
    Attacked(usize, usize, Name, usize),
    // the number, from 1, of the first step that is not one
    Broken(usize),
    // the number of steps
    Short(usize),
}

// The verdict on a trace that was read: the first step that is not one, where there is such, then who was found in the last state, by
// the names that are known.
#[tactic(auto, unfolding(crate::specs::Verdict::last_verdict, crate::specs::Verdict::end_verdict))]
fn ending(broken: Option<usize>, steps: usize, found: Option<Found>, users: Names) -> TraceVerdict
    ensures { result ≡ end_verdict broken steps (rows_of users.entry) found }
{
    match (broken, found) {
        (Some(number), _) => TraceVerdict::Broken(number),
        (None, None) => TraceVerdict::Short(steps),
        (None, Some(found)) => {
            let user = found.user.saturating_sub(1);
            let name = users.at(user);
            TraceVerdict::Attacked(steps, user, name, found.goal)
        }
    }
}

// The verdict on a trace text over the policy of a ledger, whose people it changes step by step, and to whose users it adds who joins; or its
// refusal. The first bad line decides the refusal; after the first step that is not one, lines are read on. It goes by the LFs, each found by
// `text::seek`, and a line is cut out of the middle and handed on.
pub fn run_trace(text: &[u8], ledger: &mut [u64], c: Counts) -> Result<TraceVerdict, Refusal>
    requires { (ledger_words ≤ length ledger.old) × Limited c }
    ensures { result ≡ trace_verdict (ledger_says ledger.old c) text.now }
{
    let end = text.len();
    if 32768 < end {
        return Err(Refusal {
            number: 14,
            line: 0,
        });
    }
    if !text::begins_with(text, b"trace\t1\n") {
        return Err(Fault::Malformed.in_evidence(1));
    }
    let mut known = c;
    let mut steps = 0;
    let mut broken = None;
    let mut at = 8;
    let mut number = 2;
    while at < end {
        let stop = text::seek(text, at, b'\n');
        if stop == end {
            return Err(Fault::Malformed.in_evidence(number));
        }
        let line = &text[at..stop];
        let here = number;
        at = stop + 1;
        number += 1;
        if text::same(line, b"end") {
            if at < end {
                return Err(Fault::Malformed.in_evidence(number));
            }
            let found = first_bad(ledger, known.users, known.goals);
            let users = Names {
                words: &ledger[USERS..],
                count: known.users,
            };
            return Ok(ending(broken, steps, found, users));
        }
        let users = Names {
            words: &ledger[USERS..],
            count: known.users,
        };
        let answer = read_line(line, users, known);
        let Ok(read) = answer else {
            return Err(answer.unwrap_err().in_evidence(here));
        };
        steps += 1;
        broken = try_next(ledger, known, broken, steps, read.step);
        known = enter_new(ledger, known, read.step, read.name);
    }
    Err(Fault::Malformed.in_evidence(number))
}
