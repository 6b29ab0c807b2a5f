// Whether two policies are over the same roles, users, clearances and holdings.
ghost use Rattle.std.specs.Prelude.{◌≡◌, ◌≤◌, length};
ghost use Rattle.std.specs.Cmp.Lexicographic.{pointwise};
ghost use Rattle.ledgers.specs.Parts.{rows_in};
ghost use Rattle.ledgers.specs.Ledger.{ledger_words, people};
ghost use Rattle.reading.specs.Ledger.{Limited, ledger_says};
ghost use Rattle.merging.specs.Directory.{same_person, same_directory};

use ledgers::{PEOPLE, USERS, row_at};
use lines::Counts;

// Whether so many first people of two ledgers are the same, one by one.
fn same_people(one: &[u64], two: &[u64], count: usize) -> bool
    requires { (ledger_words ≤ length one.now) × (ledger_words ≤ length two.now) × (count ≤ 64) }
    ensures { result ≡ pointwise same_person (rows_in people one.now count) (rows_in people two.now count) }
{
    for user in 0..count {
        if row_at(one, PEOPLE, user) != row_at(two, PEOPLE, user) {
            return false;
        }
    }
    true
}

// Whether two ledgers say the same roles in order and the same users in order, with the same clearances and holdings.
pub fn same_directory(one: &[u64], c: Counts, two: &[u64], d: Counts) -> bool
    requires { (ledger_words ≤ length one.now) × (ledger_words ≤ length two.now) × Limited c }
    ensures { result ≡ same_directory (ledger_says one.now c) (ledger_says two.now d) }
{
    let roles = c.roles;
    let users = c.users;
    if roles != d.roles {
        return false;
    }
    if users != d.users {
        return false;
    }
    if one[..4 * roles] != two[..4 * roles] {
        return false;
    }
    if one[USERS..USERS + 4 * users] != two[USERS..USERS + 4 * users] {
        return false;
    }
    same_people(one, two, users)
}
