// Runs the merges, sums and spellings that its arguments name, seven words each: `merge`, `sum` or `spell`, the case's name, the
// size of the lent buffer, and the files of the texts, with `-` past the three of a sum and the one of a spelling. It prints the
// first three words, the answer, how many bytes behind the text are as they were, and the text.
#![tactic(auto)]

ghost use Rattle.std.specs.Prelude.{◌≤◌, ◌<◌};

use files::{argument, load_argument};
use merging::MergeAnswer;
use std::env::FillError;
use std::io;
use std::io::Write;
use std::rt::Env;

// What each byte of the lent buffer is before the call: a full stop, which no text has.
const FILLING: u8 = b'.';

// The size of the largest lent buffer.
const LARGEST: usize = 40000;

// The digit that a byte is in ASCII.
fn digit(byte: u8) -> usize
    ensures { result < 16 }
{
    (byte % 16) as usize
}

// The number that a word is in decimal; where it is above the largest buffer, its first digits that are.
fn number(word: &[u8]) -> usize {
    let mut value = 0;
    for byte in word {
        if LARGEST < value {
            break;
        }
        value = 10 * value + digit(*byte);
    }
    value
}

// Writes a word, and numbers each after a tab.
fn show(rt: &HostRuntime, word: &[u8], numbers: &[u64]) -> io::Result<()> {
    rt.stdout().write_all(word)?;
    for number in numbers {
        print!(rt; "\t{number}")?;
    }
    Ok(())
}

// How many bytes are still the filling. For speed by place: a filter that counts takes a third more for each byte.
fn kept(bytes: &[u8]) -> usize {
    let mut count = 0;
    for at in 0..bytes.len() {
        if bytes[at] == FILLING {
            count += 1;
        }
    }
    count
}

// Writes what the buffer holds: how many bytes behind the text are still the filling, and on the next lines the text.
fn show_buffer(rt: &HostRuntime, out: &[u8], length: usize) -> io::Result<()> {
    let (text, behind) = out.split_at(length.min(out.len()));
    let kept = kept(behind);
    println!(rt; "\t{kept}")?;
    rt.stdout().write_all(text)
}

// Writes the answer of merge: the joint counts, pinned and length; which of the four judgings, the part and the number; or which
// text, the number and the line. Then what the buffer holds.
fn show_merge(
    rt: &HostRuntime,
    policy_1: &[u8],
    typing_1: &[u8],
    policy_2: &[u8],
    typing_2: &[u8],
    out: &mut [u8],
) -> io::Result<()> {
    match merging::merge::merge(policy_1, typing_1, policy_2, typing_2, out) {
        MergeAnswer::Merged(roles, assigns, revokes, goals, pinned, length) => {
            show(
                rt,
                b"\tOK",
                &[
                    roles as u64,
                    assigns as u64,
                    revokes as u64,
                    goals as u64,
                    pinned as u64,
                    length as u64,
                ],
            )?;
            show_buffer(rt, out, length)
        }
        MergeAnswer::Unproved(which, failure) => {
            show(
                rt,
                b"\tUNPROVED",
                &[
                    which as u64,
                    judging::part_number(failure.part),
                    failure.number as u64,
                ],
            )?;
            show_buffer(rt, out, 0)
        }
        MergeAnswer::Refused(text, refusal) => {
            show(
                rt,
                b"\tREFUSED",
                &[text as u64, refusal.number, refusal.line as u64],
            )?;
            show_buffer(rt, out, 0)
        }
    }
}

// Writes the answer of sum: pinned and length; or which text, the number and the line. Then what the buffer holds.
fn show_sum(
    rt: &HostRuntime,
    policy: &[u8],
    first: &[u8],
    second: &[u8],
    out: &mut [u8],
) -> io::Result<()> {
    match summing::sum(policy, first, second, out) {
        Ok(summed) => {
            show(rt, b"\tOK", &[summed.pinned as u64, summed.length as u64])?;
            show_buffer(rt, out, summed.length)
        }
        Err(refused) => {
            let refusal = refused.refusal;
            show(
                rt,
                b"\tREFUSED",
                &[refused.text as u64, refusal.number, refusal.line as u64],
            )?;
            show_buffer(rt, out, 0)
        }
    }
}

// Writes the answer of spell: the length; or the number and the line. Then what the buffer holds.
fn show_spelling(rt: &HostRuntime, policy: &[u8], out: &mut [u8]) -> io::Result<()> {
    match scribing::spell(policy, out) {
        Ok(length) => {
            show(rt, b"\tOK", &[length as u64])?;
            show_buffer(rt, out, length)
        }
        Err(refusal) => {
            show(rt, b"\tREFUSED", &[refusal.number, refusal.line as u64])?;
            show_buffer(rt, out, 0)
        }
    }
}

// Runs the merge whose last file is the given argument.
fn run_merge(rt: &HostRuntime, last: usize, out: &mut [u8]) -> io::Result<()>
    requires { 3 ≤ last }
{
    let mut policy_1 = [0u8; 32769];
    let mut typing_1 = [0u8; 32769];
    let mut policy_2 = [0u8; 32769];
    let mut typing_2 = [0u8; 32769];
    let one = load_argument(rt, last - 3, &mut policy_1);
    let first = load_argument(rt, last - 2, &mut typing_1);
    let two = load_argument(rt, last - 1, &mut policy_2);
    let second = load_argument(rt, last, &mut typing_2);
    show_merge(
        rt,
        &policy_1[..one],
        &typing_1[..first],
        &policy_2[..two],
        &typing_2[..second],
        out,
    )
}

// Runs the sum whose fourth word for a file is the given argument.
fn run_sum(rt: &HostRuntime, last: usize, out: &mut [u8]) -> io::Result<()>
    requires { 3 ≤ last }
{
    let mut policy = [0u8; 32769];
    let mut first = [0u8; 32769];
    let mut second = [0u8; 32769];
    let policy_length = load_argument(rt, last - 3, &mut policy);
    let first_length = load_argument(rt, last - 2, &mut first);
    let second_length = load_argument(rt, last - 1, &mut second);
    show_sum(
        rt,
        &policy[..policy_length],
        &first[..first_length],
        &second[..second_length],
        out,
    )
}

// Runs the spelling whose fourth word for a file is the given argument.
fn run_spell(rt: &HostRuntime, last: usize, out: &mut [u8]) -> io::Result<()>
    requires { 3 ≤ last }
{
    let mut policy = [0u8; 32769];
    let length = load_argument(rt, last - 3, &mut policy);
    show_spelling(rt, &policy[..length], out)
}

// Runs the case whose last word is the given argument.
fn run(rt: &HostRuntime, last: usize) -> io::Result<()>
    requires { 6 ≤ last }
{
    let mut kind = [0u8; 64];
    let mut name = [0u8; 64];
    let mut size = [0u8; 64];
    let mut buffer = [FILLING; LARGEST];
    let kind_length = argument(rt, last - 6, &mut kind);
    let name_length = argument(rt, last - 5, &mut name);
    let size_length = argument(rt, last - 4, &mut size);
    let room = number(&size[..size_length]).min(LARGEST);
    rt.stdout().write_all(&kind[..kind_length])?;
    rt.stdout().write_all(b"\t")?;
    show(rt, &name[..name_length], &[room as u64])?;
    // the three words differ in their second letters, and any other word goes by its own
    match kind[1] {
        b'e' => run_merge(rt, last, &mut buffer[..room]),
        b'u' => run_sum(rt, last, &mut buffer[..room]),
        _ => run_spell(rt, last, &mut buffer[..room]),
    }
}

fn main(rt: HostRuntime) -> io::Result<()> {
    for case in 0..usize::MAX / 7 {
        let last = 7 * case + 7;
        if matches!(rt.arg(last, &mut []), Err(FillError::NotPresent)) {
            break;
        }
        run(&rt, last)?;
    }
    Ok(())
}
