// The answer to a policy text and a piece of evidence.
#![tactic(auto)]

ghost use Rattle.std.specs.Prelude.{◌≡◌, ◌≤◌, length};
ghost use Rattle.tables.specs.Names.{rows};
ghost use Rattle.ledgers.specs.Ledger.{ledger_words};
ghost use Rattle.ledgers.specs.Memory.{no_memory, in_memory, Spared};
ghost use Rattle.reading.specs.Ledger.{ledger_says, Limited};
ghost use Rattle.typings.specs.TypingText.{read_typing};
ghost use Rattle.judging.specs.Verdict.{subject_of};
ghost use Rattle.answering.specs.declared.Answer.{Answer};
ghost use Rattle.answering.specs.Answers.{judged_answer, typing_answer, traced_answer, refused_at, answered, answer_of};

use judging::{Failure, Part, judge_typing, pinned};
use ledgers::{NO_MEMORY, WORDS};
use lines::Counts;
use model::Typing;
use reading::read_policy;
use running::{TraceVerdict, run_trace};
use tables::{Name, Names};
use typings::kind::is_typing;
use typings::read_typing;
use walking::{Fault, Refusal};

// The answer to two texts.
#[derive(Clone, Copy)]
pub enum Answer {
    // the counts of roles, assign rules, revoke rules and goals, and the pinned names
    Safe(usize, usize, usize, usize, usize),
    // the number of steps, the user's place from 0, the user's name and the goal's number from 1
    Attacked(usize, usize, Name, usize),
    // the part and the number, from 1, of the first failure
    Unproved(Part, usize),
    // the number, from 1, of the first step that is not one
    Broken(usize),
    // the number of steps
    Short(usize),
    Refused(Refusal),
}

// The refusal where less is lent than a ledger's words: no line is told.
pub const TOO_FEW_WORDS: Refusal = Refusal {
    number: NO_MEMORY,
    line: 0,
};

// The answer to a typing that is read, by its verdict.
fn judged(verdict: Result<(), Failure>, c: Counts, t: Typing) -> Answer
    ensures { result ≡ judged_answer c t verdict }
{
    match verdict {
        Ok(()) => Answer::Safe(c.roles, c.assigns, c.revokes, c.goals, pinned(t, c.roles)),
        Err(failure) => Answer::Unproved(failure.part, failure.number),
    }
}

// The answer to a trace that is read, by its verdict.
fn traced(verdict: TraceVerdict) -> Answer
    ensures { result ≡ traced_answer verdict }
{
    match verdict {
        TraceVerdict::Attacked(steps, user, name, goal) => {
            Answer::Attacked(steps, user, name, goal)
        }
        TraceVerdict::Broken(step) => Answer::Broken(step),
        TraceVerdict::Short(steps) => Answer::Short(steps),
    }
}

// The answer to a typing text over the policy that a ledger says, or the refusal. It is taken by its cases and not by `?`, which would put one
// typing of 4 KB more into the frame.
fn typing_answer(evidence: &[u8], ledger: &[u64], c: Counts) -> Result<Answer, Refusal>
    requires { (ledger_words ≤ length ledger.now) × Limited c }
    ensures { answered result ≡ typing_answer c (subject_of (ledger_says ledger.now c)) (read_typing (rows c.roles ledger.now) evidence.now) }
{
    let roles = Names {
        words: ledger,
        count: c.roles,
    };
    match read_typing(evidence, roles) {
        Ok(t) => Ok(judged(judge_typing(ledger, c, t), c, t)),
        Err(refusal) => Err(refusal),
    }
}

// The answer to two texts, with a ledger to work in, or the refusal: the policy is read, then the evidence, and it is judged.
fn answer_read(policy: &[u8], evidence: &[u8], ledger: &mut [u64]) -> Result<Answer, Refusal>
    requires { ledger_words ≤ length ledger.old }
    ensures { answered result ≡ answer_of policy.now evidence.now }
{
    let c = read_policy(policy, ledger)?;
    if is_typing(evidence) {
        return typing_answer(evidence, ledger, c);
    }
    let verdict = run_trace(evidence, ledger, c)?;
    Ok(traced(verdict))
}

// The answer to two texts, with a ledger to work in: what is answered where both are read, or the refusal.
fn answer_with(policy: &[u8], evidence: &[u8], ledger: &mut [u64]) -> Answer
    requires { ledger_words ≤ length ledger.old }
    ensures { result ≡ answer_of policy.now evidence.now }
{
    match answer_read(policy, evidence, ledger) {
        Ok(answer) => answer,
        Err(refusal) => Answer::Refused(refusal),
    }
}

// The answer to a policy text and a piece of evidence: the policy first, then the evidence, then the judging. A policy that is too
// long or lacks its header is refused before any room is laid out for it.
pub fn check(policy: &[u8], evidence: &[u8]) -> Answer
    ensures { result ≡ answer_of policy.now evidence.now }
{
    if 32768 < policy.len() {
        return Answer::Refused(Refusal {
            number: 10,
            line: 0,
        });
    }
    if !text::begins_with(policy, b"arbac\t1\n") {
        return Answer::Refused(Fault::Malformed.in_policy(1));
    }
    let mut ledger = [0u64; WORDS];
    answer_with(policy, evidence, &mut ledger)
}

// The same in lent memory, of which a ledger's words are needed.
pub fn check_in(policy: &[u8], evidence: &[u8], memory: &mut [u64]) -> Answer
    ensures value { result ≡ in_memory ledger_words (length memory.old) (refused_at no_memory 0) (answer_of policy.now evidence.now) }
    ensures spared { Spared ledger_words memory.old memory.new }
{
    if memory.len() < WORDS {
        return Answer::Refused(TOO_FEW_WORDS);
    }
    answer_with(policy, evidence, &mut memory[..WORDS])
}
