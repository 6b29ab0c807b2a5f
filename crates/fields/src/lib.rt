// One field of a line: a name or a set of names against the names above, and what is wrong with it.
#![tactic(auto)]

ghost use Rattle.std.specs.Prelude.{◌≡◌, ◌≤◌, length, true, false};
ghost use Rattle.text.specs.Forms.{bytes, every, is_name};
ghost use Rattle.tables.specs.Listed.{rows_of};
ghost use Rattle.text.specs.Pieces.{split, same_bytes};
ghost use Rattle.fields.specs.Fields.{worse, both_read, name_read, set_read, are_set, set_fault};

use roles::RoleSet;
use tables::Names;
use walking::{Fault, pass};

// The worse of two faults: malformed where one of them is, and else the first.
#[tactic(auto, unfolding(crate::specs::Fields::worse))]
fn worse(first: Fault, second: Fault) -> Fault
    ensures { result ≡ worse first second }
{
    match second {
        Fault::Malformed => Fault::Malformed,
        _ => first,
    }
}

// What two fields are read as: both values, or the worse fault.
#[tactic(auto, unfolding(crate::specs::Fields::both_read))]
pub fn both<A: Copy, B: Copy>(a: Result<A, Fault>, b: Result<B, Fault>) -> Result<(A, B), Fault>
    ensures { result ≡ both_read a b }
{
    match (a, b) {
        (Ok(a), Ok(b)) => Ok((a, b)),
        (Ok(_), Err(fault)) => Err(fault),
        (Err(fault), Ok(_)) => Err(fault),
        (Err(first), Err(second)) => Err(worse(first, second)),
    }
}

// A name field read against a table: the name's place.
// For speed: in each caller, since a result that is handed back goes through memory.
#[inline(always)]
#[tactic(auto, using(crate::specs::FieldLaws::found_read), unfolding(crate::specs::Fields::name_read, crate::specs::Fields::field_read))]
pub fn read_name(field: &[u8], names: Names) -> Result<usize, Fault>
    ensures { result ≡ name_read (rows_of names.entry) field.now }
{
    pass(text::is_name(field), Fault::Malformed)?;
    names.find(tables::pack(field)).ok_or(Fault::Undeclared)
}

// Whether every piece of a field between commas is a name. It goes by the commas, each found by `text::seek`.
fn all_names(field: &[u8]) -> bool
    ensures { result ≡ every is_name (split 44 field.now) }
{
    let mut at = 0;
    loop {
        let end = text::seek(field, at, b',');
        if !text::is_name(&field[at..end]) {
            return false;
        }
        if end == field.len() {
            return true;
        }
        at = end + 1;
    }
}

// Whether the names of a field make a set: each has the form of a name, and none stands twice.
// Two functions ask it: it so stays apart when compiled, and the large table that it works in is in no frame but its own.
#[tactic(auto, unfolding(crate::specs::Fields::are_set))]
fn are_set(field: &[u8]) -> bool
    requires { length field.now ≤ 32768 }
    ensures { result ≡ are_set (split 44 field.now) }
{
    all_names(field) && !distinct::repeats(field)
}

// Whether the first names of a field, up to a comma past 1024 bytes, make no set; then all its names make none.
fn fails_early(field: &[u8]) -> bool
    requires { length field.now ≤ 32768 }
    ensures { result ≡ true → are_set (split 44 field.now) ≡ false }
{
    if field.len() < 1024 {
        return false;
    }
    let cut = text::seek(field, 1024, b',');
    !are_set(&field[..cut])
}

// The fault of a set field, one of whose names has a fault: malformed all the same where a name has no form or stands twice.
// A fault near the start is found without a look at the rest.
#[tactic(auto, using(crate::specs::Sets::set_form), unfolding(crate::specs::Fields::set_fault))]
fn set_fault(field: &[u8], fault: Fault) -> Fault
    requires { (length field.now ≤ 32768) × (same_bytes field.now (bytes "-") ≡ false) }
    ensures { result ≡ set_fault field.now fault }
{
    if fault == Fault::Malformed || fails_early(field) || !are_set(field) {
        return Fault::Malformed;
    }
    fault
}

// A set field read against a table of role names: the roles. It goes by the commas, each found by `text::seek`.
pub fn read_set(field: &[u8], names: Names) -> Result<RoleSet, Fault>
    requires { (length field.now ≤ 32768) × (names.count ≤ 128) }
    ensures { result ≡ set_read (rows_of names.entry) field.now }
{
    let mut roles = RoleSet::empty();
    if text::same(field, b"-") {
        return Ok(roles);
    }
    let mut at = 0;
    loop {
        let end = text::seek(field, at, b',');
        let place = match read_name(&field[at..end], names) {
            Ok(place) => place,
            Err(fault) => return Err(set_fault(field, fault)),
        };
        if roles.has(place) {
            return Err(Fault::Malformed);
        }
        roles = roles.with(place);
        if end == field.len() {
            return Ok(roles);
        }
        at = end + 1;
    }
}
