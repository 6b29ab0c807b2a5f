// The text of a typing over a policy's role names: how long it is, and putting it into a lent buffer, a line at a time.
// A length stands beside each writer, and no sink over both: a writer is handed the part of the buffer still free, as document 01 has it, and has room there by the length.
#![tactic(auto)]

ghost use Rattle.std.specs.Prelude.{Bool, true, ◌≡◌, ◌*◌, ◌≤◌, ◌<◌, length, drop};
ghost use Rattle.tables.specs.Names.{row_of};
ghost use Rattle.tables.specs.Listed.{rows_of};
ghost use Rattle.writing.specs.Written.{put};
ghost use Rattle.spelling.specs.TypingText.{set_text, row_text, typing_text};
ghost use Rattle.spelling.specs.TypingPieces.{member_text, field_text, label_field};

use model::Typing;
use roles::RoleSet;
use tables::{Name, Names};
use writing::names::{name_length, write_name};
use writing::pieces::write_bytes;

// How many bytes a member adds to a set's text: its name, and a comma before it where some member stands before.
fn member_length(name: Name, some: bool) -> usize
    ensures { result ≡ length (member_text some true name) }
{
    if !some {
        return name_length(name);
    }
    1 + name_length(name)
}

// Puts what a member adds to a set's text at the start of a buffer, and answers how many bytes that is.
fn write_member(out: &mut [u8], name: Name, some: bool) -> usize
    requires { length (member_text some true name) ≤ length out.old }
    ensures { (result ≡ length (member_text some true name)) × (out.new ≡ put (member_text some true name) out.old) }
{
    if !some {
        return write_name(out, name);
    }
    let comma = write_bytes(out, b",");
    comma + write_name(&mut out[comma..], name)
}

// How many bytes the text of a set has.
fn set_length(roles: Names, set: RoleSet) -> usize
    requires { roles.count ≤ 128 }
    ensures { result ≡ length (set_text (rows_of roles.entry) set) }
{
    let mut some = false;
    let mut at: usize = 0;
    for role in set.roles() {
        if roles.count <= role {
            break;
        }
        at += member_length(roles.row(role), some);
        some = true;
    }
    if some {
        return at;
    }
    1
}

// Puts the text of a set at the start of a buffer, and answers how many bytes it has.
pub fn write_set(out: &mut [u8], roles: Names, set: RoleSet) -> usize
    requires { (roles.count ≤ 128) × (length (set_text (rows_of roles) set) ≤ length out.old) }
    ensures { (result ≡ length (set_text (rows_of roles.entry) set)) × (out.new ≡ put (set_text (rows_of roles.entry) set) out.old) }
{
    let mut some = false;
    let mut at: usize = 0;
    for role in set.roles() {
        if roles.count <= role {
            break;
        }
        at += write_member(&mut out[at..], roles.row(role), some);
        some = true;
    }
    if some {
        return at;
    }
    write_bytes(out, b"-")
}

// Puts the text of a set and the byte that ends its field at the start of a buffer, and answers how many bytes they are.
fn write_field(out: &mut [u8], roles: Names, set: RoleSet, end: u8) -> usize
    requires { (roles.count ≤ 128) × (length (field_text (rows_of roles) set end) ≤ length out.old) }
    ensures { (result ≡ length (field_text (rows_of roles.entry) set end)) × (out.new ≡ put (field_text (rows_of roles.entry) set end) out.old) }
{
    let at = write_set(out, roles, set);
    out[at] = end;
    at + 1
}

// Puts a label, between the tabs that part it from the name and the plus set, at the start of a buffer, and answers how many bytes they are.
fn write_label(out: &mut [u8], label: bool) -> usize
    requires { length (label_field label) ≤ length out.old }
    ensures { (result ≡ length (label_field label)) × (out.new ≡ put (label_field label) out.old) }
{
    if label {
        return write_bytes(out, b"\tH\t");
    }
    write_bytes(out, b"\tL\t")
}

// How many bytes a role's line has, with either label: the name and the two sets, and five for the label, three tabs and the end.
fn row_length(roles: Names, role: usize, plus: RoleSet, minus: RoleSet) -> usize
    requires { (roles.count ≤ 128) × (role < roles.count) }
    ensures { (label : Bool) → result ≡ length (row_text (rows_of roles.entry) (row_of (drop (4 * role) roles.entry.words.now)) label plus minus) }
{
    let name = name_length(roles.row(role));
    name + set_length(roles, plus) + set_length(roles, minus) + 5
}

// Puts a role's line at the start of a buffer, and answers how many bytes it has.
fn write_row(
    out: &mut [u8],
    roles: Names,
    role: usize,
    label: bool,
    plus: RoleSet,
    minus: RoleSet,
) -> usize
    requires { (roles.count ≤ 128) × (role < roles.count) × (length (row_text (rows_of roles) (row_of (drop (4 * role) roles.words.now)) label plus minus) ≤ length out.old) }
    ensures { (result ≡ length (row_text (rows_of roles.entry) (row_of (drop (4 * role) roles.entry.words.now)) label plus minus)) × (out.new ≡ put (row_text (rows_of roles.entry) (row_of (drop (4 * role) roles.entry.words.now)) label plus minus) out.old) }
{
    let mut at = write_name(out, roles.row(role));
    at += write_label(&mut out[at..], label);
    at += write_field(&mut out[at..], roles, plus, b'\t');
    at + write_field(&mut out[at..], roles, minus, b'\n')
}

// How many bytes a typing's text has: nine of the header, the lines, four of `end`.
pub fn text_length(roles: Names, t: Typing) -> usize
    requires { roles.count ≤ 128 }
    ensures { result ≡ length (typing_text (rows_of roles.entry) t) }
{
    let mut total = 9;
    for role in 0..roles.count {
        let plus = t.plus[role];
        let minus = t.minus[role];
        total += row_length(roles, role, plus, minus);
    }
    total + 4
}

// Puts a typing's text at the start of a buffer, each line where the one before it ends, and answers how many bytes it has.
pub fn write_typing(out: &mut [u8], roles: Names, t: Typing) -> usize
    requires { (roles.count ≤ 128) × (length (typing_text (rows_of roles) t) ≤ length out.old) }
    ensures { (result ≡ length (typing_text (rows_of roles.entry) t)) × (out.new ≡ put (typing_text (rows_of roles.entry) t) out.old) }
{
    let mut at = write_bytes(out, b"typing\t1\n");
    for role in 0..roles.count {
        let label = t.labels[role];
        let plus = t.plus[role];
        let minus = t.minus[role];
        at += write_row(&mut out[at..], roles, role, label, plus, minus);
    }
    at + write_bytes(&mut out[at..], b"end\n")
}
