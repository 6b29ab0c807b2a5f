// Runs the cases that its arguments name, three words each: the case's name, its policy file and its evidence file. It prints the
// name, which text the bad line is in, its start and its end, the same where a typing is wanted, and the line that `check` prints.
#![tactic(auto)]

use files::{argument, load_argument};
use places::BadPlace;
use std::env::FillError;
use std::io;
use std::io::Write;
use std::rt::Env;

// Writes which text a place is in, its start and its end.
fn show_place(rt: &HostRuntime, place: BadPlace) -> io::Result<()> {
    let text = if place.evidence { "evidence" } else { "policy" };
    let from = place.from;
    let to = place.to;
    print!(rt; "\t{text}\t{from}\t{to}")
}

// Writes where the bad line stands, and where it does if a typing is wanted.
fn show_bad_lines(rt: &HostRuntime, policy: &[u8], evidence: &[u8]) -> io::Result<()> {
    show_place(rt, arbac::bad_place(policy, evidence))?;
    show_place(rt, arbac::bad_typing_place(policy, evidence))
}

// Writes what `check` prints.
fn show_line(rt: &HostRuntime, policy: &[u8], evidence: &[u8]) -> io::Result<()> {
    let mut line = [0u8; 128];
    let length = arbac::check_line(policy, evidence, &mut line);
    rt.stdout().write_all(b"\t")?;
    rt.stdout().write_all(&line[..length])
}

// Runs the case whose name, policy file and evidence file are the given arguments.
fn run(rt: &HostRuntime, case: usize, first: usize, second: usize) -> io::Result<()> {
    let mut policy = [0u8; 32769];
    let mut evidence = [0u8; 32769];
    let mut name = [0u8; 64];
    let length = argument(rt, case, &mut name);
    let policy_length = load_argument(rt, first, &mut policy);
    let evidence_length = load_argument(rt, second, &mut evidence);
    rt.stdout().write_all(&name[..length])?;
    show_bad_lines(rt, &policy[..policy_length], &evidence[..evidence_length])?;
    show_line(rt, &policy[..policy_length], &evidence[..evidence_length])
}

fn main(rt: HostRuntime) -> io::Result<()> {
    for case in 0..usize::MAX / 3 {
        let last = 3 * case + 3;
        if matches!(rt.arg(last, &mut []), Err(FillError::NotPresent)) {
            break;
        }
        run(&rt, last - 2, last - 1, last)?;
    }
    Ok(())
}
