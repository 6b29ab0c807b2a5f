// A typing text, read line by line over the policy's role names.
#![tactic(auto)]

ghost use Rattle.std.specs.Prelude.{◌≡◌, ◌≤◌, length, List};
ghost use Rattle.tables.specs.declared.Name.{Name};
ghost use Rattle.tables.specs.Listed.{rows_of};
ghost use Rattle.typings.specs.TypingLines.{Line, one_field, two_fields, judged, typing_line};
ghost use Rattle.typings.specs.TypingText.{typing_read};

pub mod kind;

use fields::read_set;
use model::Typing;
use roles::RoleSet;
use tables::Names;
use walking::{Fault, Refusal, pass};

// What a good line says: a row's label is true for H.
#[derive(Clone, Copy)]
pub enum TypingEntry {
    Header,
    Row {
        label: bool,
        plus: RoleSet,
        minus: RoleSet,
    },
    End,
}

// A line of one field: `end` after the last role.
fn end_line(word: &[u8], count: usize, stage: usize) -> Result<TypingEntry, Fault>
    requires { count ≤ 128 }
    ensures { (names : List Name) → length names ≡ count → result ≡ judged stage names (one_field word.now) }
{
    let formed = text::same(word, b"end") & (stage == count + 1);
    pass(formed, Fault::Malformed)?;
    Ok(TypingEntry::End)
}

// A line of two fields: the header, edition 1.
fn header_line(word: &[u8], edition: &[u8], stage: usize) -> Result<TypingEntry, Fault>
    ensures { (names : List Name) → result ≡ judged stage names (two_fields word.now edition.now) }
{
    let formed = text::same(word, b"typing") & (stage == 0) & text::same(edition, b"1");
    pass(formed, Fault::Malformed)?;
    Ok(TypingEntry::Header)
}

// A line of four fields: a role's label, plus set and minus set, at the role's place.
fn row_line(
    name: &[u8],
    label: &[u8],
    plus: &[u8],
    minus: &[u8],
    roles: Names,
    stage: usize,
) -> Result<TypingEntry, Fault>
    requires { (length plus.now ≤ 32768) × (length minus.now ≤ 32768) × (roles.count ≤ 128) }
    ensures { result ≡ judged stage (rows_of roles.entry) (Line.row name.now label.now plus.now minus.now) }
{
    let ordered = (1 <= stage)
        & (stage <= roles.count)
        & text::is_name(name)
        & text::is_label(label);
    pass(ordered, Fault::Malformed)?;
    let (plus, minus) = fields::both(read_set(plus, roles), read_set(minus, roles))?;
    let place = roles.find(tables::pack(name));
    pass(place == Some(stage - 1), Fault::Undeclared)?;
    Ok(TypingEntry::Row {
        label: text::same(label, b"H"),
        plus,
        minus,
    })
}

// One line of a typing, without its LF, judged on its own bytes, its place and the role names.
pub fn read_line(line: &[u8], roles: Names, stage: usize) -> Result<TypingEntry, Fault>
    requires { (length line.now ≤ 32768) × (roles.count ≤ 128) }
    ensures { result ≡ typing_line stage (rows_of roles.entry) line.now }
{
    let end = line.len();
    let a = text::seek(line, 0, b'\t');
    let word = &line[0..a];
    if a == end {
        return end_line(word, roles.count, stage);
    }
    let b = text::seek(line, a + 1, b'\t');
    let first = &line[a + 1..b];
    if b == end {
        return header_line(word, first, stage);
    }
    let d = text::seek(line, b + 1, b'\t');
    if d == end {
        return Err(Fault::Malformed);
    }
    let e = text::seek(line, d + 1, b'\t');
    if e < end {
        return Err(Fault::Malformed);
    }
    row_line(word, first, &line[b + 1..d], &line[d + 1..e], roles, stage)
}

// A typing text over the policy's role names. The first bad line decides the refusal. It goes by the LFs, each found by `text::seek`, and
// a line is cut out of the middle and handed on.
pub fn read_typing(text: &[u8], roles: Names) -> Result<Typing, Refusal>
    requires { roles.count ≤ 128 }
    ensures { result ≡ typing_read (rows_of roles.entry) text.now }
{
    let end = text.len();
    if 32768 < end {
        return Err(Refusal {
            number: 14,
            line: 0,
        });
    }
    let empty = RoleSet::empty();
    let mut typing = Typing {
        labels: [false; 128],
        plus: [empty; 128],
        minus: [empty; 128],
    };
    let mut stage = 0;
    let mut at = 0;
    let mut number = 1;
    while at < end {
        let stop = text::seek(text, at, b'\n');
        if stop == end {
            return Err(Fault::Malformed.in_evidence(number));
        }
        let answer = read_line(&text[at..stop], roles, stage);
        let Ok(entry) = answer else {
            return Err(answer.unwrap_err().in_evidence(number));
        };
        at = stop + 1;
        number += 1;
        match entry {
            TypingEntry::Header => {
                stage = 1;
            }
            TypingEntry::Row { label, plus, minus } => {
                let role = stage - 1;
                typing.labels[role] = label;
                typing.plus[role] = plus;
                typing.minus[role] = minus;
                stage += 1;
            }
            TypingEntry::End => {
                if at < end {
                    return Err(Fault::Malformed.in_evidence(number));
                }
                return Ok(typing);
            }
        }
    }
    Err(Fault::Malformed.in_evidence(number))
}
