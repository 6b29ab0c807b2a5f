// The line that `check` prints, made in a lent buffer.
#![tactic(auto)]

ghost use Rattle.std.specs.Prelude.{◌++◌, ◌≡◌, ◌≤◌, length, take};
ghost use Rattle.text.specs.Forms.{bytes};
ghost use Rattle.ledgers.specs.Ledger.{ledger_words};
ghost use Rattle.ledgers.specs.Memory.{in_memory, Spared};
ghost use Rattle.writing.specs.Written.{spelled, decimal};
ghost use Rattle.showing.specs.Fields.{field, shown_length, shown};
ghost use Rattle.showing.specs.Showing.{Shows};
ghost use Rattle.showing.specs.Steps.{Line};
ghost use Rattle.printing.specs.Line.{part_text, line_of, check_line};
ghost use Rattle.printing.specs.Program.{program_line};

use answering::{Answer, check, check_in};
use judging::Part;
use ledgers::WORDS;
use showing::{begin_line, end_line, name_field, number_field, number_line, show_line};
use tables::Name;

// Writes the line of ATTACKED.
fn attacked_line(out: &mut [u8], steps: usize, name: Name, goal: usize) -> usize
    requires { 128 ≤ length out.old }
    ensures { Line (bytes "ATTACKED" ++ field (decimal steps) ++ field (spelled name) ++ field (decimal goal) ++ bytes "\n") 96 out.old result out.new }
{
    let second = begin_line(out, b"ATTACKED", &[steps as u64]);
    let third = name_field(out, second, name);
    let last = number_field(out, third, goal as u64);
    end_line(out, last)
}

// The words of UNPROVED, with the part of the first failure.
#[tactic(auto, unfolding(crate::specs::Line::part_text, showing::specs::Fields::field))]
fn unproved_words(part: Part) -> &'static [u8]
    ensures { result.now ≡ bytes "UNPROVED" ++ field (part_text part) }
{
    match part {
        Part::Holdings => b"UNPROVED\tholdings",
        Part::Assign => b"UNPROVED\tassign",
        Part::Revoke => b"UNPROVED\trevoke",
        Part::Goal => b"UNPROVED\tgoal",
    }
}

// Begins the line of UNPROVED: the part and the number of the first failure.
pub fn begin_unproved(out: &mut [u8], part: Part, number: usize) -> usize
    requires { 41 ≤ length out.old }
    ensures { Line (bytes "UNPROVED" ++ field (part_text part) ++ field (decimal number)) 41 out.old result out.new }
{
    begin_line(out, unproved_words(part), &[number as u64])
}

// Writes the line of UNPROVED.
fn unproved_line(out: &mut [u8], part: Part, number: usize) -> usize
    requires { 128 ≤ length out.old }
    ensures { Line (bytes "UNPROVED" ++ field (part_text part) ++ field (decimal number) ++ bytes "\n") 42 out.old result out.new }
{
    let at = begin_unproved(out, part, number);
    end_line(out, at)
}

// Writes the line of an answer.
#[tactic(auto, using(crate::specs::LineSteps::known_line), unfolding(crate::specs::Line::line_of, showing::specs::Fields::fields_on))]
fn write_line(out: &mut [u8], answer: Answer) -> usize
    requires { 128 ≤ length out.old }
    ensures { Line (line_of answer) 128 out.old result out.new }
{
    match answer {
        Answer::Safe(roles, assigns, revokes, goals, pinned) => number_line(
            out,
            b"SAFE",
            &[
                roles as u64,
                assigns as u64,
                revokes as u64,
                goals as u64,
                pinned as u64,
            ],
        ),
        Answer::Attacked(steps, _, name, goal) => attacked_line(out, steps, name, goal),
        Answer::Unproved(part, number) => unproved_line(out, part, number),
        Answer::Broken(step) => number_line(out, b"BROKEN", &[step as u64]),
        Answer::Short(steps) => number_line(out, b"SHORT", &[steps as u64]),
        Answer::Refused(refusal) => {
            number_line(out, b"REFUSED", &[refusal.number, refusal.line as u64])
        }
    }
}

// Makes the line of an answer at the start of the buffer, and answers its length; 0 where the buffer is too short.
fn show_answer(answer: Answer, out: &mut [u8]) -> usize
    ensures { Shows (line_of answer) out.old result out.new }
{
    let mut line = [0u8; 128];
    let length = write_line(&mut line, answer);
    show_line(&line[..length], out)
}

// Makes the line that `check` prints for two texts, at the start of the buffer, and answers its length; 0 where the buffer is too short.
pub fn check_line(policy: &[u8], evidence: &[u8], out: &mut [u8]) -> usize
    ensures value { result ≡ shown_length (check_line policy.now evidence.now) out.old }
    ensures out_after { out.new ≡ shown (check_line policy.now evidence.now) out.old }
    ensures upper_bound { (result ≤ length out.new) × (result ≡ length (take result out.new)) }
{
    show_answer(check(policy, evidence), out)
}

// The same in lent memory, of which a ledger's words are needed: with fewer, no line is made.
pub fn check_line_in(policy: &[u8], evidence: &[u8], out: &mut [u8], memory: &mut [u64]) -> usize
    ensures value { result ≡ in_memory ledger_words (length memory.old) 0 (shown_length (check_line policy.now evidence.now) out.old) }
    ensures out_after { out.new ≡ in_memory ledger_words (length memory.old) out.old (shown (check_line policy.now evidence.now) out.old) }
    ensures spared { Spared ledger_words memory.old memory.new }
{
    if memory.len() < WORDS {
        return 0;
    }
    show_answer(check_in(policy, evidence, memory), out)
}

// Makes the line that the program `check` prints for two files, each with whether it could be read and its bytes, at the start of
// the buffer, and answers its length; 0 where the buffer is too short.
pub fn program_line(
    policy_read: bool,
    policy: &[u8],
    evidence_read: bool,
    evidence: &[u8],
    out: &mut [u8],
) -> usize
    ensures value { result ≡ shown_length (program_line policy_read policy.now evidence_read evidence.now) out.old }
    ensures out_after { out.new ≡ shown (program_line policy_read policy.now evidence_read evidence.now) out.old }
    ensures upper_bound { (result ≤ length out.new) × (result ≡ length (take result out.new)) }
{
    if !policy_read {
        return show_line(b"NOFILE\tpolicy\n", out);
    }
    if !evidence_read {
        return show_line(b"NOFILE\tevidence\n", out);
    }
    check_line(policy, evidence, out)
}

// The same in lent memory, of which a ledger's words are needed: with fewer, no line is made.
pub fn program_line_in(
    policy_read: bool,
    policy: &[u8],
    evidence_read: bool,
    evidence: &[u8],
    out: &mut [u8],
    memory: &mut [u64],
) -> usize
    ensures value { result ≡ in_memory ledger_words (length memory.old) 0 (shown_length (program_line policy_read policy.now evidence_read evidence.now) out.old) }
    ensures out_after { out.new ≡ in_memory ledger_words (length memory.old) out.old (shown (program_line policy_read policy.now evidence_read evidence.now) out.old) }
    ensures spared { Spared ledger_words memory.old memory.new }
{
    if memory.len() < WORDS {
        return 0;
    }
    if policy_read & evidence_read {
        return check_line_in(policy, evidence, out, memory);
    }
    program_line(policy_read, policy, evidence_read, evidence, out)
}
