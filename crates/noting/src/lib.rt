// What the command `spell` makes: the text in one lent buffer, and the line of the answer in another.
#![tactic(auto)]

ghost use Rattle.std.specs.Prelude.{length};
ghost use Rattle.io.specs.Counts.{IsPrefixLen};
ghost use Rattle.reporting.specs.Report.{Reports};
ghost use Rattle.noting.specs.Note.{spell_report};

use reporting::Report;
use scribing::spell;
use wording::{Mention, show};

// Makes what `spell` makes of a file, which is missing where a number is given: the text of the policy, and the line of the answer.
pub fn spell_report(
    missing: Option<usize>,
    policy: &[u8],
    out: &mut [u8],
    line: &mut [u8],
) -> Report
    ensures reports { Reports (spell_report missing policy.now (length out.old)) out.old line.old result.text result.line out.new line.new }
    ensures prefix_len { IsPrefixLen result.text out.new × IsPrefixLen result.line line.new }
{
    if let Some(which) = missing {
        return Report {
            text: 0,
            line: show(line, b"NOFILE", &[], Mention::SumText, which),
        };
    }
    match spell(policy, out) {
        Ok(length) => Report {
            text: length,
            line: show(line, b"SPELLED", &[length as u64], Mention::SumText, 0),
        },
        Err(refusal) => Report {
            text: 0,
            line: show(
                line,
                b"REFUSED",
                &[refusal.number, refusal.line as u64],
                Mention::SumText,
                0,
            ),
        },
    }
}
