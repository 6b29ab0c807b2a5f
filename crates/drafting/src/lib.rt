// A policy written as text into a lent buffer, a block of lines after another.
#![tactic(auto)]

ghost use Rattle.std.specs.Prelude.{◌≡◌, ◌≤◌, length};
ghost use Rattle.ledgers.specs.Ledger.{ledger_words};
ghost use Rattle.reading.specs.Ledger.{Limited, ledger_says};
ghost use Rattle.writing.specs.Written.{put};
ghost use Rattle.drafting.specs.PolicyText.{policy_text};

use crate::blocks::write_block;
use inscribing::write_line;
use lines::{Counts, Entry};

pub mod blocks;

// A block of lines: those of one kind.
#[derive(Clone, Copy)]
pub enum Block {
    Roles,
    Users,
    Has,
    Assigns,
    Revokes,
    Goals,
}

// Puts a policy's text at the start of a buffer, each block where the one before it ends, and answers how many bytes it has.
pub fn write_policy(out: &mut [u8], ledger: &[u64], c: Counts) -> usize
    requires { (ledger_words ≤ length ledger.now) × Limited c × (length (policy_text (ledger_says ledger.now c)) ≤ length out.old) }
    ensures { (result ≡ length (policy_text (ledger_says ledger.now c))) × (out.new ≡ put (policy_text (ledger_says ledger.now c)) out.old) }
{
    let roles = write_line(out, 0, ledger, c, Entry::Header);
    let users = write_block(out, roles, ledger, c, Block::Roles);
    let has = write_block(out, users, ledger, c, Block::Users);
    let assigns = write_block(out, has, ledger, c, Block::Has);
    let revokes = write_block(out, assigns, ledger, c, Block::Assigns);
    let goals = write_block(out, revokes, ledger, c, Block::Revokes);
    let end = write_block(out, goals, ledger, c, Block::Goals);
    write_line(out, end, ledger, c, Entry::End)
}
