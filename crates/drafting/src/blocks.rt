// The lines of a block, written from a place of a lent buffer on, an element after another.
ghost use Rattle.std.specs.Prelude.{List, ◌≡◌, ℕ, ◌+◌, ◌≤◌, ◌<◌, length};
ghost use Rattle.ledgers.specs.Ledger.{ledger_words};
ghost use Rattle.reading.specs.Ledger.{Limited, ledger_says};
ghost use Rattle.drafting.specs.declared.Block.{Block};
ghost use Rattle.drafting.specs.PolicyText.{element, block_size, block_of};
ghost use Rattle.inscribing.specs.LineLaws.{lines_in};
ghost use Rattle.drafting.specs.BlockLaws.{held_entry};
ghost use Rattle.inscribing.specs.Adding.{Adds};

use crate::Block;
use inscribing::write_line;
use ledgers::{ASSIGN_RULES, GOALS, PEOPLE, REVOKE_RULES, ROLE_NAMES, USER_NAMES, row_at};
use lines::{Counts, Entry};

// Writes the has line of a user and a role from a place on, if the user holds the role, and answers the place past it.
fn write_has(
    out: &mut [u8],
    at: usize,
    ledger: &[u64],
    c: Counts,
    user: usize,
    role: usize,
    holds: bool,
) -> usize
    requires { (ledger_words ≤ length ledger.now) × Limited c × (at + length (lines_in ledger.now c (held_entry user role holds)) ≤ length out.old) }
    ensures { Adds (lines_in ledger.now c (held_entry user role holds)) at out.old result out.new }
{
    if !holds {
        return at;
    }
    let entry = Entry::Has(user, role);
    write_line(out, at, ledger, c, entry)
}

// Writes the has lines of a user from a place on, in role order, and answers the place past them.
fn write_held(out: &mut [u8], at: usize, ledger: &[u64], c: Counts, user: usize) -> usize
    requires { (ledger_words ≤ length ledger.now) × Limited c × (user < c.users) × (at + length (lines_in ledger.now c (element (ledger_says ledger.now c) Block.Has user)) ≤ length out.old) }
    ensures { Adds (lines_in ledger.now c (element (ledger_says ledger.now c) Block.Has user)) at out.old result out.new }
{
    let holder = row_at(ledger, PEOPLE, user);
    let held = holder.roles;
    let mut to = at;
    for role in 0..c.roles {
        let holds = held.has(role);
        to = write_has(out, to, ledger, c, user, role, holds);
    }
    to
}

// How many elements a block has.
fn block_size(c: Counts, block: Block) -> usize
    ensures { (words : List ℕ) → result ≡ block_size (ledger_says words c) block }
{
    match block {
        Block::Roles => c.roles,
        Block::Users => c.users,
        Block::Has => c.users,
        Block::Assigns => c.assigns,
        Block::Revokes => c.revokes,
        Block::Goals => c.goals,
    }
}

// Writes the lines of a block's element from a place on, and answers the place past them.
fn write_element(
    out: &mut [u8],
    at: usize,
    ledger: &[u64],
    c: Counts,
    block: Block,
    place: usize,
) -> usize
    requires { (ledger_words ≤ length ledger.now) × Limited c × (place < block_size (ledger_says ledger.now c) block) × (at + length (lines_in ledger.now c (element (ledger_says ledger.now c) block place)) ≤ length out.old) }
    ensures { Adds (lines_in ledger.now c (element (ledger_says ledger.now c) block place)) at out.old result out.new }
{
    match block {
        Block::Roles => {
            let name = row_at(ledger, ROLE_NAMES, place);
            write_line(out, at, ledger, c, Entry::Role(name))
        }
        Block::Users => {
            let name = row_at(ledger, USER_NAMES, place);
            let user = row_at(ledger, PEOPLE, place);
            write_line(out, at, ledger, c, Entry::User(name, user.clearance))
        }
        Block::Has => write_held(out, at, ledger, c, place),
        Block::Assigns => {
            let rule = row_at(ledger, ASSIGN_RULES, place);
            write_line(out, at, ledger, c, Entry::Assign(rule))
        }
        Block::Revokes => {
            let rule = row_at(ledger, REVOKE_RULES, place);
            write_line(out, at, ledger, c, Entry::Revoke(rule))
        }
        Block::Goals => {
            let goal = row_at(ledger, GOALS, place);
            write_line(out, at, ledger, c, Entry::Goal(goal))
        }
    }
}

// Writes the lines of a block from a place on, and answers the place past them.
pub fn write_block(out: &mut [u8], at: usize, ledger: &[u64], c: Counts, block: Block) -> usize
    requires { (ledger_words ≤ length ledger.now) × Limited c × (at + length (lines_in ledger.now c (block_of (ledger_says ledger.now c) block)) ≤ length out.old) }
    ensures { Adds (lines_in ledger.now c (block_of (ledger_says ledger.now c) block)) at out.old result out.new }
{
    let size = block_size(c, block);
    let mut to = at;
    for place in 0..size {
        to = write_element(out, to, ledger, c, block, place);
    }
    to
}
