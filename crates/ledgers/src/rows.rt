// The rows of a ledger by what they say: a name, a person, an assign rule, a revoke rule, a set of roles, each read from its words and stored in them.
ghost use Rattle.std.specs.Prelude.{◌≡◌, refl, ℕ, ◌+◌, ◌≤◌, List, length};
ghost use Rattle.std.proofs.lemmas.List.Edits.{sets};
ghost use Rattle.ledgers.specs.Parts.{Rows};
ghost use Rattle.ledgers.specs.PartLaws.{Faithful};
ghost use Rattle.ledgers.specs.Ledger.{name_rows, person_rows, assign_rows, revoke_rows, set_rows};
ghost use Rattle.ledgers.specs.LedgerLaws.{name_rows_faithful, people_faithful, assigns_faithful, revokes_faithful, goals_faithful};

use model::{Assign, Person, Revoke};
use roles::RoleSet;
use tables::{Name, Names};

// What rows of words say, one value a row, wherever their part of the ledger begins.
pub trait Row: Copy {
    ghost rows: { Rows Self };

    ghost WIDTH: { ℕ };

    // How many words a row has.
    const WIDTH: usize;

    // What the row from a place on says.
    fn read(ledger: &[u64], at: usize) -> Self
        requires { at + rows.width ≤ length ledger.now }
        ensures { result ≡ rows.says ledger.now at };

    // Stores its row from a place on.
    fn store(self, ledger: &mut [u64], at: usize)
        requires { at + rows.width ≤ length ledger.old }
        ensures { ledger.new ≡ sets ledger.old at (rows.row self) };

    ghost wide: { rows.width ≡ WIDTH };

    // A row looks at its own words alone, and a row that is stored says what it was made of.
    ghost faithful: { Faithful rows };
}

// Stores a row of words from a place on.
fn store(ledger: &mut [u64], at: usize, row: &[u64])
    requires { at + length row.now ≤ length ledger.old }
    ensures { ledger.new ≡ sets ledger.old at row.now }
{
    ledger[at..at + row.len()].copy_from_slice(row);
}

impl Row for Name {
    ghost rows = { name_rows };

    const WIDTH: usize = 4;

    ghost WIDTH = { 4 };

    ghost wide = { refl };

    ghost faithful = { name_rows_faithful };

    fn read(ledger: &[u64], at: usize) -> Name {
        let names = Names {
            words: &ledger[at..],
            count: 1,
        };
        names.row(0)
    }

    fn store(self, ledger: &mut [u64], at: usize) {
        store(
            ledger,
            at,
            &[self.first, self.second, self.third, self.fourth],
        );
    }
}

impl Row for Person {
    ghost rows = { person_rows };

    const WIDTH: usize = 3;

    ghost WIDTH = { 3 };

    ghost wide = { refl };

    ghost faithful = { people_faithful };

    fn read(ledger: &[u64], at: usize) -> Person {
        let word = ledger[at];
        Person {
            clearance: (word == 1) | (word == 3),
            present: 1 < word,
            roles: RoleSet {
                low: ledger[at + 1],
                high: ledger[at + 2],
            },
        }
    }

    fn store(self, ledger: &mut [u64], at: usize) {
        let held = self.roles;
        let word = 2 * (self.present as u64) + self.clearance as u64;
        store(ledger, at, &[word, held.low, held.high]);
    }
}

impl Row for Assign {
    ghost rows = { assign_rows };

    const WIDTH: usize = 6;

    ghost WIDTH = { 6 };

    ghost wide = { refl };

    ghost faithful = { assigns_faithful };

    fn read(ledger: &[u64], at: usize) -> Assign {
        Assign {
            admin: ledger[at] as usize,
            positive: RoleSet {
                low: ledger[at + 1],
                high: ledger[at + 2],
            },
            negative: RoleSet {
                low: ledger[at + 3],
                high: ledger[at + 4],
            },
            target: ledger[at + 5] as usize,
        }
    }

    fn store(self, ledger: &mut [u64], at: usize) {
        let plus = self.positive;
        let minus = self.negative;
        store(
            ledger,
            at,
            &[
                self.admin as u64,
                plus.low,
                plus.high,
                minus.low,
                minus.high,
                self.target as u64,
            ],
        );
    }
}

impl Row for Revoke {
    ghost rows = { revoke_rows };

    const WIDTH: usize = 2;

    ghost WIDTH = { 2 };

    ghost wide = { refl };

    ghost faithful = { revokes_faithful };

    fn read(ledger: &[u64], at: usize) -> Revoke {
        Revoke {
            admin: ledger[at] as usize,
            target: ledger[at + 1] as usize,
        }
    }

    fn store(self, ledger: &mut [u64], at: usize) {
        store(ledger, at, &[self.admin as u64, self.target as u64]);
    }
}

impl Row for RoleSet {
    ghost rows = { set_rows };

    const WIDTH: usize = 2;

    ghost WIDTH = { 2 };

    ghost wide = { refl };

    ghost faithful = { goals_faithful };

    fn read(ledger: &[u64], at: usize) -> RoleSet {
        RoleSet {
            low: ledger[at],
            high: ledger[at + 1],
        }
    }

    fn store(self, ledger: &mut [u64], at: usize) {
        store(ledger, at, &[self.low, self.high]);
    }
}
