// The refusal of two texts, and the bad line as a part of one of them.
#![tactic(auto)]

ghost use Rattle.std.specs.Prelude.{◌≡◌, ◌-◌, ◌≤◌, length};
ghost use Rattle.std.specs.Result.{result_err};
ghost use Rattle.ledgers.specs.Ledger.{ledger_words};
ghost use Rattle.ledgers.specs.Memory.{Spared};
ghost use Rattle.places.specs.Place.{refusal_of, typing_refusal_of, span_of, bad_span, place_of, bytes_at, bad_place, bad_line, bad_typing_place, bad_typing_line, begins_at, lent_refusal, LineAt};
ghost use Rattle.places.specs.Answered.{refusal_in};

use answering::{Answer, TOO_FEW_WORDS, check, check_in};
use ledgers::WORDS;
use reading::read_policy;
use tables::Names;
use typings::read_typing;
use walking::Refusal;

// A line of a text, from a place up to another.
#[derive(Clone, Copy)]
pub struct Span {
    pub from: usize,
    pub to: usize,
}

// Which text the bad line stands in, and where.
#[derive(Clone, Copy)]
pub struct BadPlace {
    pub evidence: bool,
    pub from: usize,
    pub to: usize,
}

// The policy's start, where no line is bad.
const NOWHERE: BadPlace = BadPlace {
    evidence: false,
    from: 0,
    to: 0,
};

// The refusal of an answer that is one.
fn refusal_in(answer: Answer) -> Option<Refusal>
    ensures { result ≡ refusal_in answer }
{
    match answer {
        Answer::Refused(refusal) => Some(refusal),
        _ => None,
    }
}

// The refusal of a policy and a piece of evidence: that of the answer to them.
fn refusal_of(policy: &[u8], evidence: &[u8]) -> Option<Refusal>
    ensures { result ≡ refusal_of policy.now evidence.now }
{
    refusal_in(check(policy, evidence))
}

// The same in lent memory.
fn refusal_of_in(policy: &[u8], evidence: &[u8], memory: &mut [u64]) -> Option<Refusal>
    ensures value { result ≡ lent_refusal (length memory.old) (refusal_of policy.now evidence.now) }
    ensures spared { Spared ledger_words memory.old memory.new }
{
    refusal_in(check_in(policy, evidence, memory))
}

// A policy and a text where a typing is wanted, read with a ledger to work in, or refused.
fn read_both(policy: &[u8], typing: &[u8], ledger: &mut [u64]) -> Result<(), Refusal>
    requires { ledger_words ≤ length ledger.old }
    ensures { result_err result ≡ typing_refusal_of policy.now typing.now }
{
    let c = read_policy(policy, ledger)?;
    let roles = Names {
        words: ledger,
        count: c.roles,
    };
    read_typing(typing, roles)?;
    Ok(())
}

// The refusal of a policy and a text where a typing is wanted.
fn typing_refusal_of(policy: &[u8], typing: &[u8]) -> Option<Refusal>
    ensures { result ≡ typing_refusal_of policy.now typing.now }
{
    let mut ledger = [0u64; WORDS];
    read_both(policy, typing, &mut ledger).err()
}

// The same in lent memory.
fn typing_refusal_in(policy: &[u8], typing: &[u8], memory: &mut [u64]) -> Option<Refusal>
    ensures value { result ≡ lent_refusal (length memory.old) (typing_refusal_of policy.now typing.now) }
    ensures spared { Spared ledger_words memory.old memory.new }
{
    if memory.len() < WORDS {
        return Some(TOO_FEW_WORDS);
    }
    read_both(policy, typing, &mut memory[..WORDS]).err()
}

// Where the line of a number stands, without its LF.
pub fn line_span(text: &[u8], number: usize) -> Option<Span>
    ensures { result ≡ span_of text.now 0 (number - 1) }
{
    let end = text.len();
    let mut at = 0;
    for _ in 1..number {
        let stop = text::seek(text, at, b'\n');
        if stop == end {
            return None;
        }
        at = stop + 1;
    }
    if at == end {
        return None;
    }
    Some(Span {
        from: at,
        to: text::seek(text, at, b'\n'),
    })
}

// Where the bad line of a refusal stands in one of the two texts.
fn bad_span(policy: &[u8], evidence: &[u8], r: Refusal) -> Option<Span>
    ensures { result ≡ bad_span policy.now evidence.now r }
{
    if (r.line == 0) | (16 < r.number) {
        return None;
    }
    if r.number < 14 {
        return line_span(policy, r.line);
    }
    line_span(evidence, r.line)
}

// Which text the bad line of a refusal stands in, and where: nowhere, at the policy's start, where no line is bad.
fn place_of(policy: &[u8], evidence: &[u8], refusal: Option<Refusal>) -> BadPlace
    ensures { result ≡ place_of policy.now evidence.now refusal }
{
    let Some(r) = refusal else {
        return NOWHERE;
    };
    let Some(line) = bad_span(policy, evidence, r) else {
        return NOWHERE;
    };
    BadPlace {
        evidence: 14 <= r.number,
        from: line.from,
        to: line.to,
    }
}

// The place of the bad line of a policy and a piece of evidence.
pub fn bad_place(policy: &[u8], evidence: &[u8]) -> BadPlace
    ensures { result ≡ bad_place policy.now evidence.now }
{
    place_of(policy, evidence, refusal_of(policy, evidence))
}

// The place of the bad line of a policy and a text where a typing is wanted.
pub fn bad_typing_place(policy: &[u8], typing: &[u8]) -> BadPlace
    ensures { result ≡ bad_typing_place policy.now typing.now }
{
    place_of(policy, typing, typing_refusal_of(policy, typing))
}

// Both in lent memory, of which a ledger's words are needed: with fewer, no line is bad.
pub fn bad_place_in(policy: &[u8], evidence: &[u8], memory: &mut [u64]) -> BadPlace
    ensures value { result ≡ place_of policy.now evidence.now (lent_refusal (length memory.old) (refusal_of policy.now evidence.now)) }
    ensures spared { Spared ledger_words memory.old memory.new }
{
    place_of(policy, evidence, refusal_of_in(policy, evidence, memory))
}

pub fn bad_typing_place_in(policy: &[u8], typing: &[u8], memory: &mut [u64]) -> BadPlace
    ensures value { result ≡ place_of policy.now typing.now (lent_refusal (length memory.old) (typing_refusal_of policy.now typing.now)) }
    ensures spared { Spared ledger_words memory.old memory.new }
{
    place_of(policy, typing, typing_refusal_in(policy, typing, memory))
}

// The part of one of two texts at the place of the bad line of a refusal.
fn line_of<'a>(policy: &'a [u8], evidence: &'a [u8], refusal: Option<Refusal>) -> &'a [u8]
    ensures result_value { result.now ≡ bytes_at policy.now evidence.now (place_of policy.now evidence.now refusal) }
    ensures ref_ptr_value { result.ref_ptr ≡ begins_at policy.entry.ref_ptr evidence.entry.ref_ptr (place_of policy.now evidence.now refusal) }
{
    let place = place_of(policy, evidence, refusal);
    let from = place.from;
    let to = place.to;
    if place.evidence {
        return &evidence[from..to];
    }
    &policy[from..to]
}

// The bad line, without its LF, as a part of the caller's own bytes: the empty part at the policy's start where no line is bad.
pub fn bad_line<'a>(policy: &'a [u8], evidence: &'a [u8]) -> &'a [u8]
    ensures result_value { result.now ≡ bad_line policy.now evidence.now }
    ensures ref_ptr_value { result.ref_ptr ≡ begins_at policy.entry.ref_ptr evidence.entry.ref_ptr (bad_place policy.now evidence.now) }
{
    line_of(policy, evidence, refusal_of(policy, evidence))
}

// The same of a text where a typing is wanted.
pub fn bad_typing_line<'a>(policy: &'a [u8], typing: &'a [u8]) -> &'a [u8]
    ensures result_value { result.now ≡ bad_typing_line policy.now typing.now }
    ensures ref_ptr_value { result.ref_ptr ≡ begins_at policy.entry.ref_ptr typing.entry.ref_ptr (bad_typing_place policy.now typing.now) }
{
    line_of(policy, typing, typing_refusal_of(policy, typing))
}

// Both in lent memory, of which a ledger's words are needed: with fewer, the empty part at the policy's start.
pub fn bad_line_in<'a>(policy: &'a [u8], evidence: &'a [u8], memory: &mut [u64]) -> &'a [u8]
    ensures line_at { LineAt policy.entry.ref_ptr policy.now evidence.entry.ref_ptr evidence.now (lent_refusal (length memory.old) (refusal_of policy.now evidence.now)) result.ref_ptr result.now }
    ensures spared { Spared ledger_words memory.old memory.new }
{
    line_of(policy, evidence, refusal_of_in(policy, evidence, memory))
}

pub fn bad_typing_line_in<'a>(policy: &'a [u8], typing: &'a [u8], memory: &mut [u64]) -> &'a [u8]
    ensures line_at { LineAt policy.entry.ref_ptr policy.now typing.entry.ref_ptr typing.now (lent_refusal (length memory.old) (typing_refusal_of policy.now typing.now)) result.ref_ptr result.now }
    ensures spared { Spared ledger_words memory.old memory.new }
{
    line_of(policy, typing, typing_refusal_in(policy, typing, memory))
}
