// The entry of a policy line, put into a ledger.
ghost use Rattle.std.specs.Prelude.{◌≡◌, ◌≤◌, length};
ghost use Rattle.ledgers.specs.Parts.{rows_in};
ghost use Rattle.ledgers.specs.Ledger.{ledger_words, people};
ghost use Rattle.lines.specs.LineLaws.{Fitting};
ghost use Rattle.reading.specs.Ledger.{Limited, ledger_says};
ghost use Rattle.reading.specs.Policy.{is_new, added};

use ledgers::{
    ASSIGN_RULES, GOALS, PEOPLE, REVOKE_RULES, ROLE_NAMES, USER_NAMES, row_at, store_row,
};
use lines::{ASSIGN, Counts, END, Entry, GOAL, HAS, HEADER, REVOKE, ROLE, USER};
use model::Person;

// Whether an entry is no has pair that stands in the ledger already.
pub fn is_new(ledger: &[u64], c: Counts, entry: Entry) -> bool
    requires { (ledger_words ≤ length ledger.now) × Limited c × Fitting c entry }
    ensures { result ≡ is_new (rows_in people ledger.now c.users) entry }
{
    match entry {
        Entry::Has(user, role) => {
            let held = row_at(ledger, PEOPLE, user).roles;
            !held.has(role)
        }
        _ => true,
    }
}

// Stores an entry behind what was entered, and gives the counts with it.
pub fn enter(ledger: &mut [u64], c: Counts, entry: Entry) -> Counts
    requires { (ledger_words ≤ length ledger.old) × Limited c × Fitting c entry }
    ensures { ledger_says ledger.new result ≡ added (ledger_says ledger.old c) entry }
{
    let mut d = c;
    match entry {
        Entry::Header => {
            d.stage = HEADER;
        }
        Entry::Role(name) => {
            store_row(ledger, ROLE_NAMES, c.roles, name);
            d.roles += 1;
            d.stage = ROLE;
        }
        Entry::User(name, clearance) => {
            let user = Person::newcomer(clearance);
            store_row(ledger, USER_NAMES, c.users, name);
            store_row(ledger, PEOPLE, c.users, user);
            d.users += 1;
            d.stage = USER;
        }
        Entry::Has(user, role) => {
            let holder = row_at(ledger, PEOPLE, user);
            store_row(ledger, PEOPLE, user, holder.with_role(role));
            d.stage = HAS;
        }
        Entry::Assign(rule) => {
            store_row(ledger, ASSIGN_RULES, c.assigns, rule);
            d.assigns += 1;
            d.stage = ASSIGN;
        }
        Entry::Revoke(rule) => {
            store_row(ledger, REVOKE_RULES, c.revokes, rule);
            d.revokes += 1;
            d.stage = REVOKE;
        }
        Entry::Goal(goal) => {
            store_row(ledger, GOALS, c.goals, goal);
            d.goals += 1;
            d.stage = GOAL;
        }
        Entry::End => {
            d.stage = END;
        }
    }
    d
}
