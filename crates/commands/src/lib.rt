// The commands `sum`, `merge` and `spell` over named files: all are read before any is judged, and the text and the line are made.
#![tactic(auto)]

ghost use Rattle.std.specs.Prelude.{true, length, take, is_some, unwrap_or, IfSome};
ghost use Rattle.io.specs.Counts.{IsPrefixLen};
ghost use Rattle.reporting.specs.Report.{first_missing, sum_report, merge_report, Reports};
ghost use Rattle.noting.specs.Note.{spell_report};

use files::load;
use noting::spell_report;
use reporting::{Report, first_missing, merge_report, sum_report};
use std::rt::Files;

// Makes what `sum` makes of three files, of which as many bytes as were read stand in these buffers, none where a file can't be read. A
// count and its buffer stay two parameters: with a struct of both each call is longer, and no clause is shorter.
fn sum_loaded(
    one: Option<usize>,
    policy: &[u8],
    two: Option<usize>,
    first: &[u8],
    three: Option<usize>,
    second: &[u8],
    out: &mut [u8],
    line: &mut [u8],
) -> Report
    requires one { IfSome one (λ count. IsPrefixLen count policy.now) }
    requires two { IfSome two (λ count. IsPrefixLen count first.now) }
    requires three { IfSome three (λ count. IsPrefixLen count second.now) }
    ensures reports { Reports (sum_report (first_missing (is_some one) (is_some two) (is_some three) true) (take (unwrap_or one 0) policy.now) (take (unwrap_or two 0) first.now) (take (unwrap_or three 0) second.now) (length out.old)) out.old line.old result.text result.line out.new line.new }
    ensures text { IsPrefixLen result.text out.new }
    ensures line { IsPrefixLen result.line line.new }
{
    sum_report(
        first_missing(one.is_some(), two.is_some(), three.is_some(), true),
        &policy[..one.unwrap_or(0)],
        &first[..two.unwrap_or(0)],
        &second[..three.unwrap_or(0)],
        out,
        line,
    )
}

// The same of `merge`, for four files.
fn merge_loaded(
    one: Option<usize>,
    policy_1: &[u8],
    two: Option<usize>,
    typing_1: &[u8],
    three: Option<usize>,
    policy_2: &[u8],
    four: Option<usize>,
    typing_2: &[u8],
    out: &mut [u8],
    line: &mut [u8],
) -> Report
    requires one { IfSome one (λ count. IsPrefixLen count policy_1.now) }
    requires two { IfSome two (λ count. IsPrefixLen count typing_1.now) }
    requires three { IfSome three (λ count. IsPrefixLen count policy_2.now) }
    requires four { IfSome four (λ count. IsPrefixLen count typing_2.now) }
    ensures reports { Reports (merge_report (first_missing (is_some one) (is_some two) (is_some three) (is_some four)) (take (unwrap_or one 0) policy_1.now) (take (unwrap_or two 0) typing_1.now) (take (unwrap_or three 0) policy_2.now) (take (unwrap_or four 0) typing_2.now) (length out.old)) out.old line.old result.text result.line out.new line.new }
    ensures text { IsPrefixLen result.text out.new }
    ensures line { IsPrefixLen result.line line.new }
{
    merge_report(
        first_missing(
            one.is_some(),
            two.is_some(),
            three.is_some(),
            four.is_some(),
        ),
        &policy_1[..one.unwrap_or(0)],
        &typing_1[..two.unwrap_or(0)],
        &policy_2[..three.unwrap_or(0)],
        &typing_2[..four.unwrap_or(0)],
        out,
        line,
    )
}

// The same of `spell`, for one file.
fn spell_loaded(loaded: Option<usize>, policy: &[u8], out: &mut [u8], line: &mut [u8]) -> Report
    requires { IfSome loaded (λ count. IsPrefixLen count policy.now) }
    ensures reports { Reports (spell_report (first_missing (is_some loaded) true true true) (take (unwrap_or loaded 0) policy.now) (length out.old)) out.old line.old result.text result.line out.new line.new }
    ensures text { IsPrefixLen result.text out.new }
    ensures line { IsPrefixLen result.line line.new }
{
    spell_report(
        first_missing(loaded.is_some(), true, true, true),
        &policy[..loaded.unwrap_or(0)],
        out,
        line,
    )
}

// Makes what `sum` makes of the policy file and the two typing files of these names. One byte more than a text may have is enough to
// refuse it.
pub fn sum_of(
    rt: &impl Files,
    policy_name: &[u8],
    first_name: &[u8],
    second_name: &[u8],
    out: &mut [u8],
    line: &mut [u8],
) -> Report
    ensures text { IsPrefixLen result.text out.new }
    ensures line { IsPrefixLen result.line line.new }
{
    let mut policy = [0u8; 32769];
    let mut first = [0u8; 32769];
    let mut second = [0u8; 32769];
    let one = load(rt, policy_name, &mut policy);
    let two = load(rt, first_name, &mut first);
    let three = load(rt, second_name, &mut second);
    sum_loaded(one, &policy, two, &first, three, &second, out, line)
}

// The same of `merge`, for two policy files with a typing file each.
pub fn merge_of(
    rt: &impl Files,
    policy_1_name: &[u8],
    typing_1_name: &[u8],
    policy_2_name: &[u8],
    typing_2_name: &[u8],
    out: &mut [u8],
    line: &mut [u8],
) -> Report
    ensures text { IsPrefixLen result.text out.new }
    ensures line { IsPrefixLen result.line line.new }
{
    let mut policy_1 = [0u8; 32769];
    let mut typing_1 = [0u8; 32769];
    let mut policy_2 = [0u8; 32769];
    let mut typing_2 = [0u8; 32769];
    let one = load(rt, policy_1_name, &mut policy_1);
    let two = load(rt, typing_1_name, &mut typing_1);
    let three = load(rt, policy_2_name, &mut policy_2);
    let four = load(rt, typing_2_name, &mut typing_2);
    merge_loaded(
        one, &policy_1, two, &typing_1, three, &policy_2, four, &typing_2, out, line,
    )
}

// The same of `spell`, for a policy file.
pub fn spell_of(rt: &impl Files, policy_name: &[u8], out: &mut [u8], line: &mut [u8]) -> Report
    ensures text { IsPrefixLen result.text out.new }
    ensures line { IsPrefixLen result.line line.new }
{
    let mut policy = [0u8; 32769];
    let one = load(rt, policy_name, &mut policy);
    spell_loaded(one, &policy, out, line)
}
