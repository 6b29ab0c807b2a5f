// The program `arbac`: the verb that its argument names, over the texts of the working directory. The text that is made goes to
// standard output, the line of the answer to standard error; where the text can't be written, there is no line.
#![tactic(auto)]

ghost use Rattle.std.specs.Prelude.{IfSome};
ghost use Rattle.io.specs.Counts.{IsPrefixLen};

use commands::{merge_of, spell_of, sum_of};
use files::argument;
use program::line_of;
use reporting::Report;
use std::io;
use std::io::Write;

// Makes the text and the line of a verb; none of a word that is no verb. The line of `check` has no text beside it.
fn report_of(rt: &HostRuntime, verb: &[u8], out: &mut [u8], line: &mut [u8]) -> Option<Report>
    ensures { IfSome result (λ report. IsPrefixLen report.text out.new × IsPrefixLen report.line line.new) }
{
    match verb {
        b"check" => Some(Report {
            text: 0,
            line: line_of(rt, b"policy.txt", b"evidence.txt", line),
        }),
        b"sum" => Some(sum_of(
            rt,
            b"policy.txt",
            b"typing_1.txt",
            b"typing_2.txt",
            out,
            line,
        )),
        b"merge" => Some(merge_of(
            rt,
            b"policy_1.txt",
            b"typing_1.txt",
            b"policy_2.txt",
            b"typing_2.txt",
            out,
            line,
        )),
        b"spell" => Some(spell_of(rt, b"policy.txt", out, line)),
        _ => None,
    }
}

fn main(rt: HostRuntime) -> io::Result<()> {
    let mut word = [0u8; 16];
    let mut out = [0u8; 32768];
    let mut line = [0u8; 192];
    let length = argument(&rt, 1, &mut word);
    let Some(report) = report_of(&rt, &word[..length], &mut out, &mut line) else {
        return Ok(());
    };
    rt.stdout().write_all(&out[..report.text])?;
    rt.stderr().write_all(&line[..report.line])
}
