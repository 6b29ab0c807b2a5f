// The program `check` over two named files: both are read before either is judged, and their line is made.
#![tactic(auto)]

ghost use Rattle.std.specs.Prelude.{◌≡◌, take, is_some, unwrap_or, IfSome};
ghost use Rattle.io.specs.Counts.{IsPrefixLen};
ghost use Rattle.showing.specs.Fields.{shown_length, shown};
ghost use Rattle.printing.specs.Program.{program_line};

use files::load;
use printing::program_line;
use std::rt::Files;

// Puts the line of two files, of which as many bytes as were read stand in these buffers, none where a file can't be read, into a
// buffer, and answers its length.
fn line_loaded(
    first: Option<usize>,
    policy: &[u8],
    second: Option<usize>,
    evidence: &[u8],
    line: &mut [u8],
) -> usize
    requires first { IfSome first (λ count. IsPrefixLen count policy.now) }
    requires second { IfSome second (λ count. IsPrefixLen count evidence.now) }
    ensures value { result ≡ shown_length (program_line (is_some first) (take (unwrap_or first 0) policy.now) (is_some second) (take (unwrap_or second 0) evidence.now)) line.old }
    ensures line_after { line.new ≡ shown (program_line (is_some first) (take (unwrap_or first 0) policy.now) (is_some second) (take (unwrap_or second 0) evidence.now)) line.old }
    ensures in_bounds { IsPrefixLen result line.new }
{
    let policy = &policy[..first.unwrap_or(0)];
    let evidence = &evidence[..second.unwrap_or(0)];
    program_line(first.is_some(), policy, second.is_some(), evidence, line)
}

// Puts the line of the policy file and the evidence file of these names into a buffer, and answers its length. One byte more than
// a text may have is enough to refuse it.
pub fn line_of(rt: &impl Files, policy_name: &[u8], evidence_name: &[u8], line: &mut [u8]) -> usize
    ensures { IsPrefixLen result line.new }
{
    let mut policy = [0u8; 32769];
    let mut evidence = [0u8; 32769];
    let first = load(rt, policy_name, &mut policy);
    let second = load(rt, evidence_name, &mut evidence);
    line_loaded(first, &policy, second, &evidence, line)
}
