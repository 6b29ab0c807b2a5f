// The line of an entry, written field after field from a place of a lent buffer on, in the room that it takes.
#![tactic(auto)]

ghost use Rattle.std.specs.Prelude.{[], ◌∷◌, ◌++◌, ◌≡◌, ◌+◌, ◌≤◌, length};
ghost use Rattle.ledgers.specs.Ledger.{ledger_words};
ghost use Rattle.lines.specs.declared.Entry.{Entry};
ghost use Rattle.reading.specs.Ledger.{Limited};
ghost use Rattle.tables.specs.Listed.{rows_of};
ghost use Rattle.writing.specs.Written.{spelled, put};
ghost use Rattle.showing.specs.Fields.{field};
ghost use Rattle.spelling.specs.TypingText.{set_text};
ghost use Rattle.inscribing.specs.LineText.{line_text};
ghost use Rattle.inscribing.specs.LineLaws.{line_in, lines_in};
ghost use Rattle.inscribing.specs.Adding.{Adds};

use ledgers::USERS;
use lines::{Counts, Entry};
use model::Assign;
use roles::RoleSet;
use showing::{end_line, name_field};
use spelling::write_set;
use tables::{Name, Names};
use writing::pieces::write_bytes;

// Writes bytes from a place on, and answers the place past them.
fn write_piece(out: &mut [u8], at: usize, part: &[u8]) -> usize
    requires { at + length part.now ≤ length out.old }
    ensures { Adds part.now at out.old result out.new }
{
    at + write_bytes(&mut out[at..], part)
}

// Writes a set's field from a place on, and answers the place past it.
fn set_field(out: &mut [u8], at: usize, roles: Names, set: RoleSet) -> usize
    requires { (roles.count ≤ 128) × (at + length (field (set_text (rows_of roles) set)) ≤ length out.old) }
    ensures { Adds (field (set_text (rows_of roles.entry) set)) at out.old result out.new }
{
    out[at] = b'\t';
    let from = at + 1;
    from + write_set(&mut out[from..], roles, set)
}

// Writes a word and a name's field from a place on, and answers the place past them.
fn named_line(out: &mut [u8], at: usize, word: &[u8], name: Name) -> usize
    requires { at + length (word.now ++ field (spelled name)) ≤ length out.old }
    ensures { Adds (word.now ++ field (spelled name)) at out.old result out.new }
{
    let from = write_piece(out, at, word);
    name_field(out, from, name)
}

// Writes a word and the fields of two names from a place on, and answers the place past them.
fn pair_line(out: &mut [u8], at: usize, word: &[u8], first: Name, second: Name) -> usize
    requires { at + length (word.now ++ field (spelled first) ++ field (spelled second)) ≤ length out.old }
    ensures { Adds (word.now ++ field (spelled first) ++ field (spelled second)) at out.old result out.new }
{
    let from = named_line(out, at, word, first);
    name_field(out, from, second)
}

// Writes a user's line without its LF from a place on, and answers the place past it.
fn user_line(out: &mut [u8], at: usize, name: Name, clearance: bool) -> usize
    requires { at + length (line_text [] [] (Entry.User name clearance)) ≤ length out.old }
    ensures { Adds (line_text [] [] (Entry.User name clearance)) at out.old result out.new }
{
    let from = named_line(out, at, b"user", name);
    if clearance {
        return write_piece(out, from, b"\tH");
    }
    write_piece(out, from, b"\tL")
}

// Writes a goal's line without its LF from a place on, and answers the place past it.
fn goal_line(out: &mut [u8], at: usize, roles: Names, goal: RoleSet) -> usize
    requires { (roles.count ≤ 128) × (at + length (line_text (rows_of roles) [] (Entry.Goal goal)) ≤ length out.old) }
    ensures { Adds (line_text (rows_of roles.entry) [] (Entry.Goal goal)) at out.old result out.new }
{
    let from = write_piece(out, at, b"goal");
    set_field(out, from, roles, goal)
}

// Writes an assign rule's line without its LF from a place on, and answers the place past it.
fn assign_line(out: &mut [u8], at: usize, roles: Names, rule: Assign) -> usize
    requires { (roles.count ≤ 128) × (at + length (line_text (rows_of roles) [] (Entry.Assign rule)) ≤ length out.old) }
    ensures { Adds (line_text (rows_of roles.entry) [] (Entry.Assign rule)) at out.old result out.new }
{
    let admin = roles.at(rule.admin);
    let target = roles.at(rule.target);
    let positive = rule.positive;
    let negative = rule.negative;
    let from = named_line(out, at, b"assign", admin);
    let second = set_field(out, from, roles, positive);
    let third = set_field(out, second, roles, negative);
    name_field(out, third, target)
}

// Writes an entry's line without its LF from a place on, and answers the place past it.
fn write_entry(out: &mut [u8], at: usize, ledger: &[u64], c: Counts, entry: Entry) -> usize
    requires { (ledger_words ≤ length ledger.now) × Limited c × (at + length (line_in ledger.now c entry) ≤ length out.old) }
    ensures { Adds (line_in ledger.now c entry) at out.old result out.new }
{
    let roles = Names {
        words: ledger,
        count: c.roles,
    };
    let users = Names {
        words: &ledger[USERS..],
        count: c.users,
    };
    match entry {
        Entry::Header => write_piece(out, at, b"arbac\t1"),
        Entry::Role(name) => named_line(out, at, b"role", name),
        Entry::User(name, clearance) => user_line(out, at, name, clearance),
        Entry::Has(user, role) => {
            let holder = users.at(user);
            let held = roles.at(role);
            pair_line(out, at, b"has", holder, held)
        }
        Entry::Assign(rule) => assign_line(out, at, roles, rule),
        Entry::Revoke(rule) => {
            let admin = roles.at(rule.admin);
            let target = roles.at(rule.target);
            pair_line(out, at, b"revoke", admin, target)
        }
        Entry::Goal(goal) => goal_line(out, at, roles, goal),
        Entry::End => write_piece(out, at, b"end"),
    }
}

// Puts an entry's line at the start of a buffer, and answers how many bytes it has.
fn put_line(out: &mut [u8], ledger: &[u64], c: Counts, entry: Entry) -> usize
    requires { (ledger_words ≤ length ledger.now) × Limited c × (length (lines_in ledger.now c (entry ∷ [])) ≤ length out.old) }
    ensures { (result ≡ length (lines_in ledger.now c (entry ∷ []))) × (out.new ≡ put (lines_in ledger.now c (entry ∷ [])) out.old) }
{
    let end = write_entry(out, 0, ledger, c, entry);
    end_line(out, end)
}

// Writes an entry's line from a place on, into the part of the buffer still free, and answers the place past it.
pub fn write_line(out: &mut [u8], at: usize, ledger: &[u64], c: Counts, entry: Entry) -> usize
    requires { (ledger_words ≤ length ledger.now) × Limited c × (at + length (lines_in ledger.now c (entry ∷ [])) ≤ length out.old) }
    ensures { Adds (lines_in ledger.now c (entry ∷ [])) at out.old result out.new }
{
    at + put_line(&mut out[at..], ledger, c, entry)
}
