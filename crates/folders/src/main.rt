// Runs the verbs of `arbac` on the files that its arguments name, five words each: the verb, and its files in the order in which they are
// read, with `-` where it has fewer. It prints these words, the line of the answer, and the text where there is one.
#![tactic(auto)]

ghost use Rattle.std.specs.Prelude.{◌≤◌};
ghost use Rattle.io.specs.Counts.{IsPrefixLen};
ghost use Rattle.std.specs.Io.{ReadsAtMost};

use commands::{merge_of, spell_of, sum_of};
use files::argument;
use program::line_of;
use reporting::Report;
use std::env::FillError;
use std::io;
use std::io::Write;
use std::rt::Env;

// Puts an argument into a buffer and prints it with a tab, and answers its length.
fn word(rt: &HostRuntime, place: usize, buffer: &mut [u8]) -> io::Result<usize>
    ensures { ReadsAtMost result buffer.new }
{
    let length = argument(rt, place, buffer);
    rt.stdout().write_all(&buffer[..length])?;
    rt.stdout().write_all(b"\t")?;
    Ok(length)
}

// Makes the text and the line of a verb for the files of these names. The line of `check` has no text beside it.
fn report_of(
    rt: &HostRuntime,
    verb: &[u8],
    one: &[u8],
    two: &[u8],
    three: &[u8],
    four: &[u8],
    out: &mut [u8],
    line: &mut [u8],
) -> Report
    ensures text { IsPrefixLen result.text out.new }
    ensures line { IsPrefixLen result.line line.new }
{
    match verb {
        b"check" => Report {
            text: 0,
            line: line_of(rt, one, two, line),
        },
        b"sum" => sum_of(rt, one, two, three, out, line),
        b"spell" => spell_of(rt, one, out, line),
        _ => merge_of(rt, one, two, three, four, out, line),
    }
}

// Runs the case whose last word is the given argument.
fn run(rt: &HostRuntime, last: usize) -> io::Result<()>
    requires { 5 ≤ last }
{
    let mut verb = [0u8; 64];
    let mut one = [0u8; 64];
    let mut two = [0u8; 64];
    let mut three = [0u8; 64];
    let mut four = [0u8; 64];
    let mut out = [0u8; 32768];
    let mut line = [0u8; 192];
    let verb_length = word(rt, last - 4, &mut verb)?;
    let one_length = word(rt, last - 3, &mut one)?;
    let two_length = word(rt, last - 2, &mut two)?;
    let three_length = word(rt, last - 1, &mut three)?;
    let four_length = word(rt, last, &mut four)?;
    let report = report_of(
        rt,
        &verb[..verb_length],
        &one[..one_length],
        &two[..two_length],
        &three[..three_length],
        &four[..four_length],
        &mut out,
        &mut line,
    );
    rt.stdout().write_all(&line[..report.line])?;
    rt.stdout().write_all(&out[..report.text])
}

fn main(rt: HostRuntime) -> io::Result<()> {
    for case in 0..usize::MAX / 5 {
        let last = 5 * case + 5;
        if matches!(rt.arg(last, &mut []), Err(FillError::NotPresent)) {
            break;
        }
        run(&rt, last)?;
    }
    Ok(())
}
