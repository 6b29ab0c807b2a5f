// The merge of two policies with a typing each: the texts read, 17, the four judgings, 19, and the sum written, or 18.
ghost use Rattle.std.specs.Prelude.{◌≡◌, ◌≤◌, length};
ghost use Rattle.tables.specs.Listed.{rows_of};
ghost use Rattle.ledgers.specs.Ledger.{ledger_words};
ghost use Rattle.ledgers.specs.Memory.{no_memory, in_memory, Spared};
ghost use Rattle.reading.specs.Policy.{Said, counts_of};
ghost use Rattle.reading.specs.Ledger.{Limited, ledger_says};
ghost use Rattle.summing.specs.Outcome.{leaves, Meets};
ghost use Rattle.merging.specs.Merge.{merge_refused, when_same, merge_judged, merge_counted, merge_outcome, merge_words};
ghost use Rattle.merging.specs.Halves.{ledger_one, ledger_two};
ghost use Rattle.merging.specs.MergeOutcomes.{merge_typed};

use crate::MergeAnswer;
use crate::directory::same_directory;
use judging::{judge_rules, judge_typing, pinned};
use ledgers::{NO_MEMORY, WORDS};
use lines::Counts;
use model::Typing;
use reading::read_policy;
use summing::fitting::write_fitting;
use summing::sum_of;
use tables::Names;
use typings::read_typing;
use walking::Refusal;

// How many words of memory a merge takes: a ledger for each policy.
pub const MERGE_WORDS: usize = 6144;

// A refusal that speaks of no text.
fn of_none(number: u64) -> MergeAnswer
    ensures { result ≡ merge_refused 0 number 0 }
{
    MergeAnswer::Refused(0, Refusal { number, line: 0 })
}

// The sum of accepted typings over the role names, written with the joint counts: 19 where one of them is above its limit, 18
// where the text does not fit.
fn write_joint(roles: Names, p: Counts, q: Counts, t: Typing, out: &mut [u8]) -> MergeAnswer
    requires { (roles.count ≤ 128) × Limited p × Limited q }
    ensures { (s s' : Said) → p ≡ counts_of s → q ≡ counts_of s' → rows_of roles.entry ≡ s.roles → Meets (merge_counted (length out.old) s s' t) out.old result out.new }
{
    let assigns = p.assigns + q.assigns;
    let revokes = p.revokes + q.revokes;
    let goals = p.goals + q.goals;
    if 256 < assigns {
        return of_none(19);
    }
    if 256 < revokes {
        return of_none(19);
    }
    if 32 < goals {
        return of_none(19);
    }
    match write_fitting(out, roles, t) {
        Some(length) => {
            MergeAnswer::Merged(p.roles, assigns, revokes, goals, pinned(t, p.roles), length)
        }
        None => of_none(18),
    }
}

// The answer to two policies with a typing each, once they are read into ledgers.
fn merge_read(
    one: &[u64],
    p: Counts,
    t: Typing,
    two: &[u64],
    q: Counts,
    u: Typing,
    out: &mut [u8],
) -> MergeAnswer
    requires { (ledger_words ≤ length one.now) × Limited p × (ledger_words ≤ length two.now) × Limited q }
    ensures { Meets (when_same (ledger_says one.now p) (ledger_says two.now q) (merge_judged (length out.old) (ledger_says one.now p) t (ledger_says two.now q) u)) out.old result out.new }
{
    if !same_directory(one, p, two, q) {
        return of_none(17);
    }
    if let Err(failure) = judge_typing(one, p, t) {
        return MergeAnswer::Unproved(1, failure);
    }
    if let Err(failure) = judge_typing(two, q, u) {
        return MergeAnswer::Unproved(2, failure);
    }
    if let Err(failure) = judge_rules(two, q, t) {
        return MergeAnswer::Unproved(3, failure);
    }
    if let Err(failure) = judge_rules(one, p, u) {
        return MergeAnswer::Unproved(4, failure);
    }
    let roles = Names {
        words: one,
        count: p.roles,
    };
    write_joint(roles, p, q, sum_of(t, u), out)
}

// The answer once the policies are read into the two parts of the memory, and typing one: typing two is read.
fn merge_typed(
    memory: &[u64],
    p: Counts,
    t: Typing,
    q: Counts,
    typing_2: &[u8],
    out: &mut [u8],
) -> MergeAnswer
    requires { (merge_words ≤ length memory.now) × Limited p × Limited q }
    ensures { Meets (merge_typed (length out.old) (ledger_says (ledger_one memory.now) p) t (ledger_says (ledger_two memory.now) q) typing_2.now) out.old result out.new }
{
    let two = &memory[WORDS..];
    let roles = Names {
        words: two,
        count: q.roles,
    };
    let u = match read_typing(typing_2, roles) {
        Ok(typing) => typing,
        Err(refusal) => return MergeAnswer::Refused(4, refusal),
    };
    merge_read(&memory[..WORDS], p, t, two, q, u, out)
}

// The merge of two policies, each judged with a typing of its own: the sum of the typings, written into the lent buffer. The
// policies are read into two parts of the lent memory.
fn merge_with(
    policy_1: &[u8],
    typing_1: &[u8],
    policy_2: &[u8],
    typing_2: &[u8],
    out: &mut [u8],
    memory: &mut [u64],
) -> MergeAnswer
    requires { merge_words ≤ length memory.old }
    ensures { Meets (merge_outcome policy_1.now typing_1.now policy_2.now typing_2.now (length out.old)) out.old result out.new }
{
    let p = match read_policy(policy_1, &mut memory[..WORDS]) {
        Ok(counts) => counts,
        Err(refusal) => return MergeAnswer::Refused(1, refusal),
    };
    let roles = Names {
        words: &memory[..WORDS],
        count: p.roles,
    };
    let t = match read_typing(typing_1, roles) {
        Ok(typing) => typing,
        Err(refusal) => return MergeAnswer::Refused(2, refusal),
    };
    let q = match read_policy(policy_2, &mut memory[WORDS..]) {
        Ok(counts) => counts,
        Err(refusal) => return MergeAnswer::Refused(3, refusal),
    };
    merge_typed(memory, p, t, q, typing_2, out)
}

// The merge of two policies, each judged with a typing of its own: the sum of the typings, written into the lent buffer.
pub fn merge(
    policy_1: &[u8],
    typing_1: &[u8],
    policy_2: &[u8],
    typing_2: &[u8],
    out: &mut [u8],
) -> MergeAnswer
    ensures { Meets (merge_outcome policy_1.now typing_1.now policy_2.now typing_2.now (length out.old)) out.old result out.new }
{
    let mut memory = [0u64; MERGE_WORDS];
    merge_with(policy_1, typing_1, policy_2, typing_2, out, &mut memory)
}

// The same in lent memory of any content; 254 where it is too little.
pub fn merge_in(
    policy_1: &[u8],
    typing_1: &[u8],
    policy_2: &[u8],
    typing_2: &[u8],
    out: &mut [u8],
    memory: &mut [u64],
) -> MergeAnswer
    ensures meets { Meets (in_memory merge_words (length memory.old) (leaves (merge_refused 0 no_memory 0)) (merge_outcome policy_1.now typing_1.now policy_2.now typing_2.now (length out.old))) out.old result out.new }
    ensures spared { Spared merge_words memory.old memory.new }
{
    if memory.len() < MERGE_WORDS {
        return of_none(NO_MEMORY);
    }
    merge_with(
        policy_1,
        typing_1,
        policy_2,
        typing_2,
        out,
        &mut memory[..MERGE_WORDS],
    )
}
