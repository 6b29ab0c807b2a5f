// Bytes: a separator sought, two byte strings compared, and the form of a name, a label and a number.
#![tactic(auto)]

ghost use Rattle.std.specs.Prelude.{◌≡◌, ◌+◌, ◌≤◌, false, length, take, drop};
ghost use Rattle.std.specs.List.{list_all};
ghost use Rattle.text.specs.Forms.{every, is_name, is_label, name_byte, number_in};
ghost use Rattle.text.specs.Eights.{eight_clear};
ghost use Rattle.text.specs.Pieces.{same_bytes, Sought};
ghost use Rattle.text.specs.Begins.{begins};

// Whether eight bytes stand from a place on, none of them the mark.
// For speed: one branch for all eight, where a walk over them has one for each.
fn clear(s: &[u8], at: usize, mark: u8) -> bool
    requires { at ≤ length s.now }
    ensures { result ≡ eight_clear mark (drop at s.now) }
{
    if s.len() - at < 8 {
        return false;
    }
    (s[at] != mark)
        & (s[at + 1] != mark)
        & (s[at + 2] != mark)
        & (s[at + 3] != mark)
        & (s[at + 4] != mark)
        & (s[at + 5] != mark)
        & (s[at + 6] != mark)
        & (s[at + 7] != mark)
}

// The place of the first `mark` from a place on, or the end where there is none, looked for one by one where not eight bytes are clear.
// For speed: a fixed count of steps, which are laid out one after another, since a loop takes twice as many for each byte in some callers.
#[inline(always)]
fn find(s: &[u8], from: usize, mark: u8) -> usize
    requires { (from ≤ length s.now) × (eight_clear mark (drop from s.now) ≡ false) }
    ensures { Sought s.now from mark result }
{
    for i in 0..8 {
        let at = from + i;
        if at == s.len() {
            return at;
        }
        if s[at] == mark {
            return at;
        }
    }
    s.len()
}

// The place of the first `mark` from a place on, or the end where there is none.
// For speed: eight bytes a step, and only the last few one by one; in each caller, whose lines have their fields at places of their own.
#[inline(always)]
pub fn seek(s: &[u8], from: usize, mark: u8) -> usize
    requires { from ≤ length s.now }
    ensures { Sought s.now from mark result }
{
    let mut at = from;
    while clear(s, at, mark) {
        at += 8;
    }
    find(s, at, mark)
}

// Whether two byte strings are the same.
pub fn same(a: &[u8], b: &[u8]) -> bool
    ensures { result ≡ same_bytes a.now b.now }
{
    a == b
}

// Whether a byte string begins with another.
pub fn begins_with(s: &[u8], start: &[u8]) -> bool
    ensures { result ≡ begins start.now s.now }
{
    s.starts_with(start)
}

// Whether a byte may stand in a name.
fn in_name(byte: u8) -> bool
    ensures { result ≡ name_byte byte }
{
    byte.is_ascii_alphanumeric() | (byte == b'_')
}

// Whether each of the eight bytes from a place on may stand in a name. For speed: with no branch among them.
fn eight_in_name(field: &[u8], at: usize) -> bool
    requires { at + 8 ≤ length field.now }
    ensures { result ≡ every name_byte (take 8 (drop at field.now)) }
{
    in_name(field[at])
        & in_name(field[at + 1])
        & in_name(field[at + 2])
        & in_name(field[at + 3])
        & in_name(field[at + 4])
        & in_name(field[at + 5])
        & in_name(field[at + 6])
        & in_name(field[at + 7])
}

// Whether each byte may stand in a name, looked at one by one.
fn few_in_name(field: &[u8]) -> bool
    ensures { result ≡ list_all name_byte field.now }
{
    field.iter().all(|byte| in_name(*byte))
}

// Whether a field is a name. For speed: eight bytes a step; the last eight may take in some that were looked at before.
pub fn is_name(field: &[u8]) -> bool
    ensures { result ≡ is_name field.now }
{
    let end = field.len();
    if end < 1 {
        return false;
    }
    if 32 < end {
        return false;
    }
    if end < 8 {
        return few_in_name(field);
    }
    let last = end - 8;
    let mut at = 0;
    while at < last {
        if !eight_in_name(field, at) {
            return false;
        }
        at += 8;
    }
    eight_in_name(field, last)
}

// Whether a field is a clearance or a label.
pub fn is_label(field: &[u8]) -> bool
    ensures { result ≡ is_label field.now }
{
    same(field, b"L") | same(field, b"H")
}

// The rule number that a field writes, none where it writes none.
pub fn number(field: &[u8]) -> Option<usize>
    ensures { result ≡ number_in field.now }
{
    if field.len() < 1 {
        return None;
    }
    if 3 < field.len() {
        return None;
    }
    if field[0] == b'0' {
        return None;
    }
    let mut n: usize = 0;
    for &digit in field {
        if !digit.is_ascii_digit() {
            return None;
        }
        n = n * 10 + (digit - b'0') as usize;
    }
    Some(n)
}
