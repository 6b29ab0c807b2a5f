// A policy laid out in words, so that it can be lent: its names, people, rules and goals, each in a part of its own, read and stored row by row.
#![tactic(auto)]

ghost use Rattle.std.specs.Prelude.{◌≡◌, ◌+◌, ◌*◌, ◌≤◌, ◌<◌, length};
ghost use Rattle.ledgers.specs.Parts.{row_at, stored, part_of};
ghost use Rattle.ledgers.specs.Ledger.{ledger_words};

pub mod rows;

use model::{Assign, Person, Revoke};
use roles::RoleSet;
use rows::Row;
use std::marker::PhantomData;
use tables::Name;

// How many words a ledger has.
pub const WORDS: usize = 3072;

// The number of the answer where too little memory is lent.
pub const NO_MEMORY: u64 = 254;

// Where the user names begin.
pub const USERS: usize = 512;

// A part of a ledger: where its rows begin, and how many there is room for.
#[derive(Drop)]
pub struct Part<R: Row> {
    from: usize,
    room: usize,
    row: PhantomData<R>,
    ghost inside: { from + R.rows.width * room ≤ ledger_words },
}

// The parts, in the order in which they lie.
pub const ROLE_NAMES: Part<Name> = Part {
    from: 0,
    room: 128,
    row: PhantomData,
};

pub const USER_NAMES: Part<Name> = Part {
    from: USERS,
    room: 64,
    row: PhantomData,
};

pub const PEOPLE: Part<Person> = Part {
    from: 768,
    room: 64,
    row: PhantomData,
};

pub const ASSIGN_RULES: Part<Assign> = Part {
    from: 960,
    room: 256,
    row: PhantomData,
};

pub const REVOKE_RULES: Part<Revoke> = Part {
    from: 2496,
    room: 256,
    row: PhantomData,
};

pub const GOALS: Part<RoleSet> = Part {
    from: 3008,
    room: 32,
    row: PhantomData,
};

// What the row at a place of a part says.
pub fn row_at<R: Row>(ledger: &[u64], part: Part<R>, place: usize) -> R
    requires { (ledger_words ≤ length ledger.now) × (place < part.room) }
    ensures { result ≡ row_at (part_of R.rows part.from) ledger.now place }
{
    R::read(ledger, part.from + R::WIDTH * place)
}

// Stores the row at a place of a part.
pub fn store_row<R: Row>(ledger: &mut [u64], part: Part<R>, place: usize, row: R)
    requires { (ledger_words ≤ length ledger.old) × (place < part.room) }
    ensures { ledger.new ≡ stored (part_of R.rows part.from) ledger.old place row }
{
    row.store(ledger, part.from + R::WIDTH * place);
}
