// A typing laid out in words, so that it can be lent: the roles labelled H, each role's sets, and whose sets name the role.
#![tactic(auto)]

ghost use Rattle.std.specs.Prelude.{◌≡◌, ◌≤◌, ◌<◌, cond, eqb, replicate};
ghost use Rattle.roles.specs.Sets.{has_role, single_of};
ghost use Rattle.sheets.specs.Turned.{add_if, sets_of, turned_of};
ghost use Rattle.sheets.specs.Words.{column_number, high_in, set_in, said_in, sheet_of};
ghost use Rattle.sheets.specs.Places.{Changed};

use model::Typing;
use roles::RoleSet;

// A sheet is an array of words, two to a set: the roles labelled H, and then a row for each role, with its plus set, its minus set, the
// roles that have it in their plus set and those that have it in their minus set.
#[derive(Clone, Copy)]
pub enum Column {
    Plus = 1,
    Minus = 2,
    Needed = 3,
    Opposed = 4,
}

// The column's number in a row.
fn column_number(column: Column) -> usize
    ensures value { result ≡ column_number column }
    ensures upper_bound { result ≤ 4 }
{
    column as usize
}

// The set with the roles of another where the test holds, and as it is where it does not.
fn add_if(test: bool, more: RoleSet, set: RoleSet) -> RoleSet
    ensures { result ≡ add_if test more set }
{
    if test {
        return set.union(more);
    }
    set
}

// The roles labelled H.
pub fn high_of(sheet: &[u64; 1026]) -> RoleSet
    ensures { result ≡ high_in sheet.now }
{
    RoleSet {
        low: sheet[0],
        high: sheet[1],
    }
}

// A role's set in a column; a number above 127 is no role and has the empty set.
pub fn set_of(sheet: &[u64; 1026], column: Column, role: usize) -> RoleSet
    ensures { result ≡ set_in sheet.now column role }
{
    let words: &[u64] = sheet;
    if role < 128 {
        let at = 2 * (4 * role + column_number(column));
        let low = words[at];
        let high = words[at + 1];
        return RoleSet { low, high };
    }
    RoleSet::empty()
}

// All roles of the sets that the members have in a column.
pub fn sets_of(sheet: &[u64; 1026], column: Column, members: RoleSet) -> RoleSet
    ensures { result ≡ sets_of (set_in sheet.now column) members }
{
    let mut all = RoleSet::empty();
    for role in members.roles() {
        all = all.union(set_of(sheet, column, role));
    }
    all
}

// Puts a role's set into a column.
fn put(sheet: &mut [u64; 1026], column: Column, role: usize, set: RoleSet)
    requires { role < 128 }
    ensures { Changed column (λ other old. cond (eqb other role) set old) sheet.old sheet.new }
{
    let words: &mut [u64] = sheet;
    let at = 2 * (4 * role + column_number(column));
    words[at] = set.low;
    words[at + 1] = set.high;
}

// Adds a role to the set that each of the members has in a column.
fn note(sheet: &mut [u64; 1026], column: Column, members: RoleSet, role: usize)
    ensures { Changed column (λ other. add_if (has_role members other) (single_of role)) sheet.old sheet.new }
{
    for other in members.roles() {
        let named = set_of(sheet, column, other).with(role);
        put(sheet, column, other, named);
    }
}

// Makes the sheet of a typing over its first roles, which says what the typing says of them, turned round, in words that are all 0.
pub fn lay_out(t: Typing, roles: usize, sheet: &mut [u64; 1026])
    requires { sheet.old ≡ replicate 1026 0 }
    ensures sheet_after { sheet.new ≡ sheet_of t roles }
    ensures sheet_after_2 { said_in sheet.new ≡ turned_of t roles }
{
    let mut high = RoleSet::empty();
    for role in 0..roles.min(128) {
        let more = t.plus[role];
        let less = t.minus[role];
        put(sheet, Column::Plus, role, more);
        put(sheet, Column::Minus, role, less);
        note(sheet, Column::Needed, more, role);
        note(sheet, Column::Opposed, less, role);
        high = add_if(t.labels[role], RoleSet::single(role), high);
    }
    let words: &mut [u64] = sheet;
    words[0] = high.low;
    words[1] = high.high;
}
