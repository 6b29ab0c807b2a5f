// The state of a run, which is the people of a ledger: a step is tried on it, who joins is entered in it, and the first bad user is found in it.
ghost use Rattle.std.specs.Prelude.{◌≡◌, ◌≤◌, ◌<◌, length};
ghost use Rattle.std.specs.Bool.{then_some};
ghost use Rattle.ledgers.specs.Parts.{rows_in};
ghost use Rattle.ledgers.specs.Ledger.{ledger_words, people, goal_sets};
ghost use Rattle.reading.specs.Ledger.{ledger_says, Limited};
ghost use Rattle.steps.specs.Tests.{lowest_goal, own_goal, first_bad};
ghost use Rattle.running.specs.Range.{InRange, Ranged, Room};
ghost use Rattle.running.specs.Trying.{may_assign_in, assigned_in, may_revoke_in, revoked_in, may_leave_in, left_in, Stored, Tried, TriedNext};
ghost use Rattle.running.specs.Joining.{with_new};

use ledgers::{ASSIGN_RULES, GOALS, PEOPLE, REVOKE_RULES, row_at, store_row};
use lines::{Counts, Entry};
use model::Person;
use reading::entering::enter;
use roles::RoleSet;
use steps::{Found, Step, may_assign, may_revoke};
use tables::Name;

// The user after an assign step; none where the actor may not use the rule on the user.
fn assigned(ledger: &[u64], actor: usize, rule: usize, user: usize) -> Option<Person>
    requires { (ledger_words ≤ length ledger.now) × InRange 256 64 actor rule user }
    ensures { result ≡ then_some (may_assign_in ledger.now actor rule user) (assigned_in ledger.now rule user) }
{
    let used = row_at(ledger, ASSIGN_RULES, rule);
    let person = row_at(ledger, PEOPLE, user);
    let may = may_assign(used, row_at(ledger, PEOPLE, actor), person);
    may.then_some(person.with_role(used.target))
}

// The user after a revoke step; none where the actor may not use the rule on the user.
fn revoked(ledger: &[u64], actor: usize, rule: usize, user: usize) -> Option<Person>
    requires { (ledger_words ≤ length ledger.now) × InRange 256 64 actor rule user }
    ensures { result ≡ then_some (may_revoke_in ledger.now actor rule user) (revoked_in ledger.now rule user) }
{
    let used = row_at(ledger, REVOKE_RULES, rule);
    let person = row_at(ledger, PEOPLE, user);
    let may = may_revoke(used, row_at(ledger, PEOPLE, actor), person);
    may.then_some(person.without_role(used.target))
}

// The user gone, with no roles; none where the user is not present.
fn left(ledger: &[u64], user: usize) -> Option<Person>
    requires { (ledger_words ≤ length ledger.now) × (user < 64) }
    ensures { result ≡ then_some (may_leave_in ledger.now user) (left_in ledger.now user) }
{
    let person = row_at(ledger, PEOPLE, user);
    person.present.then_some(person.leaver())
}

// Stores the user that a step leaves, where it is possible; where there is none, nobody is changed.
fn store_changed(ledger: &mut [u64], user: usize, changed: Option<Person>) -> bool
    requires { (ledger_words ≤ length ledger.old) × (user < 64) }
    ensures { Stored changed ledger.old user result ledger.new }
{
    let Some(person) = changed else {
        return false;
    };
    store_row(ledger, PEOPLE, user, person);
    true
}

// Tries a step: where it is possible, its user is changed, and where it is not, nobody is. Who joins comes with a name.
pub fn try_step(ledger: &mut [u64], c: Counts, step: Step) -> bool
    requires { (ledger_words ≤ length ledger.old) × Limited c × Ranged c.assigns c.revokes c.users step }
    ensures { Tried (ledger_says ledger.old c) step result (ledger_says ledger.new c) }
{
    match step {
        Step::Assign { actor, rule, user } => {
            let changed = assigned(ledger, actor, rule, user);
            store_changed(ledger, user, changed)
        }
        Step::Revoke { actor, rule, user } => {
            let changed = revoked(ledger, actor, rule, user);
            store_changed(ledger, user, changed)
        }
        Step::Join { user, clearance: _ } => user == c.users,
        Step::Leave { user } => {
            let changed = left(ledger, user);
            store_changed(ledger, user, changed)
        }
    }
}

// Tries the step with a number, unless a step before it was none: the number of the first that is none, where there is such.
pub fn try_next(
    ledger: &mut [u64],
    c: Counts,
    broken: Option<usize>,
    number: usize,
    step: Step,
) -> Option<usize>
    requires { (ledger_words ≤ length ledger.old) × Limited c × Ranged c.assigns c.revokes c.users step }
    ensures { TriedNext (ledger_says ledger.old c) broken number step result (ledger_says ledger.new c) }
{
    if broken.is_some() {
        return broken;
    }
    if try_step(ledger, c, step) {
        return None;
    }
    Some(number)
}

// Enters who joins with a name that is not known, and gives the counts with that name.
pub fn enter_new(ledger: &mut [u64], c: Counts, step: Step, name: Name) -> Counts
    requires { (ledger_words ≤ length ledger.old) × Limited c × Room c.users step }
    ensures { ledger_says ledger.new result ≡ with_new (ledger_says ledger.old c) step name }
{
    match step {
        Step::Join { user, clearance } => {
            if user < c.users {
                return c;
            }
            enter(ledger, c, Entry::User(name, clearance))
        }
        _ => c,
    }
}

// The lowest number, from 1, of a goal that the roles hold whole, among so many goals.
fn lowest_goal(ledger: &[u64], count: usize, roles: RoleSet) -> Option<usize>
    requires { (ledger_words ≤ length ledger.now) × (count ≤ 32) }
    ensures { result ≡ lowest_goal (rows_in goal_sets ledger.now count) roles }
{
    for place in 0..count {
        if row_at(ledger, GOALS, place).within(roles) {
            return Some(place + 1);
        }
    }
    None
}

// The lowest goal that a present L person holds whole; none for any other person.
#[tactic(auto, unfolding(steps::specs::Tests::own_goal))]
fn own_goal(ledger: &[u64], count: usize, person: Person) -> Option<usize>
    requires { (ledger_words ≤ length ledger.now) × (count ≤ 32) }
    ensures { result ≡ own_goal (rows_in goal_sets ledger.now count) person }
{
    if person.present & !person.clearance {
        return lowest_goal(ledger, count, person.roles);
    }
    None
}

// The first present L user in order who holds all roles of a goal, with that user's lowest goal, among so many users and goals.
pub fn first_bad(ledger: &[u64], users: usize, count: usize) -> Option<Found>
    requires { (ledger_words ≤ length ledger.now) × (users ≤ 64) × (count ≤ 32) }
    ensures { result ≡ first_bad (rows_in people ledger.now users) (rows_in goal_sets ledger.now count) }
{
    for place in 0..users {
        let person = row_at(ledger, PEOPLE, place);
        if let Some(goal) = own_goal(ledger, count, person) {
            let user = place + 1;
            return Some(Found { user, goal });
        }
    }
    None
}
