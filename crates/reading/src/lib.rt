// Policy texts, read line by line into a ledger.
#![tactic(auto)]

ghost use Rattle.std.specs.Prelude.{◌≡◌, ◌≤◌, length};
ghost use Rattle.ledgers.specs.Ledger.{ledger_words};
ghost use Rattle.reading.specs.Answer.{line_answer};
ghost use Rattle.reading.specs.Policy.{counts_of, nothing};
ghost use Rattle.reading.specs.Ledger.{Limited, ledger_says};
ghost use Rattle.reading.specs.Read.{ReadInto};

use crate::entering::{enter, is_new};
use lines::{Counts, Entry};
use tables::Names;
use walking::{Fault, Refusal, pass};

pub mod entering;

// The counts of no lines.
fn none() -> Counts
    ensures { result ≡ counts_of nothing }
{
    Counts {
        stage: 0,
        roles: 0,
        users: 0,
        assigns: 0,
        revokes: 0,
        goals: 0,
    }
}

// One line, judged on its own bytes and on what the ledger says of the lines above it.
fn read_line(line: &[u8], ledger: &[u64], c: Counts) -> Result<Entry, Fault>
    requires { (length line.now ≤ 32768) × (ledger_words ≤ length ledger.now) × Limited c }
    ensures { result ≡ line_answer (ledger_says ledger.now c) line.now }
{
    let roles = Names {
        words: ledger,
        count: c.roles,
    };
    let users = Names {
        words: &ledger[ledgers::USERS..],
        count: c.users,
    };
    let entry = lines::read_line(line, roles, users, c)?;
    pass(is_new(ledger, c, entry), Fault::Malformed)?;
    Ok(entry)
}

// A policy text: the counts of the policy, or the refusal. The first bad line decides the refusal; a text without the header is
// refused with no look at the rest. It goes by the LFs, each found by `text::seek`, and a line is cut out of the middle and handed on.
pub fn read_policy(text: &[u8], ledger: &mut [u64]) -> Result<Counts, Refusal>
    requires { ledger_words ≤ length ledger.old }
    ensures { ReadInto text.now result ledger.new }
{
    let end = text.len();
    if 32768 < end {
        return Err(Refusal {
            number: 10,
            line: 0,
        });
    }
    if !text::begins_with(text, b"arbac\t1\n") {
        return Err(Fault::Malformed.in_policy(1));
    }
    let mut c = none();
    let mut at = 0;
    let mut number = 1;
    while at < end {
        let stop = text::seek(text, at, b'\n');
        if stop == end {
            return Err(Fault::Malformed.in_policy(number));
        }
        let answer = read_line(&text[at..stop], ledger, c);
        let here = number;
        at = stop + 1;
        number += 1;
        // Document 01: `let else` takes the line's answer apart, and a refusal is returned at once.
        let Ok(entry) = answer else {
            return Err(answer.unwrap_err().in_policy(here));
        };
        match entry {
            Entry::End => {
                if at < end {
                    return Err(Fault::Malformed.in_policy(number));
                }
                return Ok(c);
            }
            _ => {
                c = enter(ledger, c, entry);
            }
        }
    }
    Err(Fault::Malformed.in_policy(number))
}
