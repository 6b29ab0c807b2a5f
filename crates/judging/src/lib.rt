// The verdict on a typing: holdings, assign rules, revoke rules and goals in this order, and the first that fails.
#![tactic(auto)]

ghost use Rattle.std.specs.Prelude.{◌≡◌, ◌≤◌, ◌<◌, ℕ, length};
ghost use Rattle.ledgers.specs.Ledger.{ledger_words};
ghost use Rattle.reading.specs.Policy.{policy_of};
ghost use Rattle.reading.specs.Ledger.{ledger_says, Limited};
ghost use Rattle.sheets.specs.Words.{said_in};
ghost use Rattle.judging.specs.Verdict.{rules_said, rules_verdict, typing_verdict, part_number, pinned_names};
ghost use Rattle.judging.specs.First.{ByTests};

use ledgers::{ASSIGN_RULES, GOALS, PEOPLE, REVOKE_RULES, row_at};
use lines::Counts;
use model::Typing;
use sheets::lay_out;

// Which part of a policy a typing fails on, each with its number, in the order in which the parts are judged.
#[derive(Clone, Copy, PartialEq, Eq)]
pub enum Part {
    Holdings = 1,
    Assign = 2,
    Revoke = 3,
    Goal = 4,
}

// The first failure of a typing: its part, and its number there, from 1.
#[derive(Clone, Copy, PartialEq, Eq)]
pub struct Failure {
    pub part: Part,
    pub number: usize,
}

// The part's number.
pub fn part_number(part: Part) -> u64
    ensures { result ≡ part_number part }
{
    part as u64
}

// The verdict on one part by the test of its rows: the number, from 1, of the first that does not pass.
fn first_failing<F: Fn(usize) -> bool>(part: Part, count: usize, passes: F) -> Result<(), Failure>
    requires { (place : ℕ) → place < count → F.pre passes place }
    ensures { ByTests (F.post passes) part count result }
{
    for place in 0..count {
        if !passes(place) {
            return Err(Failure {
                part,
                number: place + 1,
            });
        }
    }
    Ok(())
}

// The verdict on the rules of a ledger alone, by the typing's sheet: assign rules, then revoke rules.
fn rules_verdict(ledger: &[u64], c: Counts, sheet: &[u64; 1026]) -> Result<(), Failure>
    requires { (ledger_words ≤ length ledger.now) × Limited c }
    ensures { result ≡ rules_said (policy_of (ledger_says ledger.now c)) (said_in sheet.now) }
{
    first_failing(Part::Assign, c.assigns, |place| {
        rules::assign_passes(sheet, row_at(ledger, ASSIGN_RULES, place))
    })?;
    first_failing(Part::Revoke, c.revokes, |place| {
        rules::revoke_passes(sheet, row_at(ledger, REVOKE_RULES, place))
    })
}

// The verdict of a typing on the rules of a ledger alone: assign rules, then revoke rules.
pub fn judge_rules(ledger: &[u64], c: Counts, t: Typing) -> Result<(), Failure>
    requires { (ledger_words ≤ length ledger.now) × Limited c }
    ensures { result ≡ rules_verdict (ledger_says ledger.now c) t }
{
    let mut sheet = [0u64; 1026];
    lay_out(t, c.roles, &mut sheet);
    rules_verdict(ledger, c, &sheet)
}

// The verdict of a typing on all that a ledger says: holdings, assign rules, revoke rules, then goals.
pub fn judge_typing(ledger: &[u64], c: Counts, t: Typing) -> Result<(), Failure>
    requires { (ledger_words ≤ length ledger.now) × Limited c }
    ensures { result ≡ typing_verdict (ledger_says ledger.now c) t }
{
    let mut sheet = [0u64; 1026];
    lay_out(t, c.roles, &mut sheet);
    first_failing(Part::Holdings, c.users, |place| {
        rules::person_passes(&sheet, row_at(ledger, PEOPLE, place))
    })?;
    rules_verdict(ledger, c, &sheet)?;
    first_failing(Part::Goal, c.goals, |place| {
        rules::goal_passes(&sheet, row_at(ledger, GOALS, place))
    })
}

// How many names stand in all plus and minus sets of the roles.
pub fn pinned(t: Typing, roles: usize) -> usize
    ensures { result ≡ pinned_names t roles }
{
    let mut total: usize = 0;
    for role in 0..roles.min(128) {
        let plus = t.plus[role];
        let minus = t.minus[role];
        total += plus.count() as usize + minus.count() as usize;
    }
    total
}
