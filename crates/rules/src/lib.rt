// Each typing rule as a test of what a typing's sheet says: a person, an assign rule, a revoke rule, a goal.
#![tactic(auto)]

ghost use Rattle.std.specs.Prelude.{◌≡◌};
ghost use Rattle.sheets.specs.Words.{said_in};
ghost use Rattle.rules.specs.Tests.{inconsistent_role, person_passes, target_suits, assign_passes, revoke_passes, goal_passes};

use closing::{Pair, close};
use model::{Assign, Person, Revoke};
use roles::RoleSet;
use sheets::{Column, high_of, set_of, sets_of};

// Whether the role's plus set and minus set share a role.
fn inconsistent(sheet: &[u64; 1026], role: usize) -> bool
    ensures { result ≡ inconsistent_role (said_in sheet.now) role }
{
    set_of(sheet, Column::Plus, role).shares(set_of(sheet, Column::Minus, role))
}

// Whether a person's holdings pass.
pub fn person_passes(sheet: &[u64; 1026], person: Person) -> bool
    ensures { result ≡ person_passes (said_in sheet.now) person }
{
    let high = high_of(sheet);
    let roles = person.roles;
    (!high.shares(roles) | person.clearance)
        & !sets_of(sheet, Column::Minus, roles).shares(roles)
        & sets_of(sheet, Column::Plus, roles).within(roles)
}

// Whether the target role suits every user who holds all that is held and nothing that is absent.
fn target_suits(sheet: &[u64; 1026], pair: Pair, target: usize) -> bool
    ensures { result ≡ target_suits (said_in sheet.now) pair target }
{
    let high = high_of(sheet);
    let held = pair.held;
    let absent = pair.absent;
    (!high.has(target) | high.shares(held))
        & set_of(sheet, Column::Opposed, target).within(absent)
        & set_of(sheet, Column::Minus, target).within(absent.without(target))
        & set_of(sheet, Column::Plus, target).within(held.with(target))
}

// Whether an assign rule passes.
pub fn assign_passes(sheet: &[u64; 1026], rule: Assign) -> bool
    ensures { result ≡ assign_passes (said_in sheet.now) rule }
{
    if inconsistent(sheet, rule.admin) {
        return true;
    }
    let held = rule.positive;
    let absent = rule.negative.with(rule.target);
    let pair = close(sheet, Pair { held, absent });
    pair.held.shares(pair.absent) | target_suits(sheet, pair, rule.target)
}

// Whether a revoke rule passes.
pub fn revoke_passes(sheet: &[u64; 1026], rule: Revoke) -> bool
    ensures { result ≡ revoke_passes (said_in sheet.now) rule }
{
    let target = rule.target;
    inconsistent(sheet, rule.admin)
        | set_of(sheet, Column::Needed, target).within(RoleSet::single(target))
}

// Whether a goal passes.
pub fn goal_passes(sheet: &[u64; 1026], goal: RoleSet) -> bool
    ensures { result ≡ goal_passes (said_in sheet.now) goal }
{
    let absent = RoleSet::empty();
    let pair = close(sheet, Pair { held: goal, absent });
    high_of(sheet).shares(pair.held) | pair.held.shares(pair.absent)
}
