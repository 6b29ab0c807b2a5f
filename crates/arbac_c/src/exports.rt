// The functions of `arbac::face` under their names in C.
ghost use Rattle.std.specs.Prelude.{◌≡◌, length};
ghost use Rattle.summing.specs.Outcome.{answer_in};
ghost use Rattle.places.specs.Place.{bad_place, bad_typing_place};
ghost use Rattle.summing.specs.Sum.{sum_outcome};
ghost use Rattle.summing.specs.Sum as sums;
ghost use Rattle.merging.specs.Merge.{merge_outcome};
ghost use Rattle.merging.specs.Merge as merges;
ghost use Rattle.scribing.specs.Spell.{spell_outcome};
ghost use Rattle.scribing.specs.Spell as spells;
ghost use Rattle.answering.specs.Answers.{answer_of, number_of};
ghost use Rattle.showing.specs.Fields.{shown_length, shown};
ghost use Rattle.printing.specs.Line.{check_line};
ghost use Rattle.telling.specs.Numbers.{check_values, sum_values, merge_values, spell_values, place_text, place_values};
ghost use Rattle.arbac.specs.Face.{told_number, told_in, buffer_told};

use arbac::face;

// As `face::arbac_check`.
#[unsafe(no_mangle)]
pub extern "C" fn arbac_check(policy: &[u8], evidence: &[u8], values: &mut [u64]) -> u64
    ensures value { result ≡ told_number 5 (number_of (answer_of policy.now evidence.now)) values.old }
    ensures values_after { values.new ≡ told_in 5 (check_values (answer_of policy.now evidence.now)) values.old }
{
    face::arbac_check(policy, evidence, values)
}

// As `face::arbac_check_line`.
#[unsafe(no_mangle)]
pub extern "C" fn arbac_check_line(policy: &[u8], evidence: &[u8], line: &mut [u8]) -> usize
    ensures value { result ≡ shown_length (check_line policy.now evidence.now) line.old }
    ensures line_after { line.new ≡ shown (check_line policy.now evidence.now) line.old }
{
    face::arbac_check_line(policy, evidence, line)
}

// As `face::arbac_bad_line`.
#[unsafe(no_mangle)]
pub extern "C" fn arbac_bad_line(policy: &[u8], evidence: &[u8], place: &mut [u64]) -> u64
    ensures value { result ≡ told_number 2 (place_text (bad_place policy.now evidence.now)) place.old }
    ensures place_after { place.new ≡ told_in 2 (place_values (bad_place policy.now evidence.now)) place.old }
{
    face::arbac_bad_line(policy, evidence, place)
}

// As `face::arbac_bad_typing_line`.
#[unsafe(no_mangle)]
pub extern "C" fn arbac_bad_typing_line(policy: &[u8], typing: &[u8], place: &mut [u64]) -> u64
    ensures value { result ≡ told_number 2 (place_text (bad_typing_place policy.now typing.now)) place.old }
    ensures place_after { place.new ≡ told_in 2 (place_values (bad_typing_place policy.now typing.now)) place.old }
{
    face::arbac_bad_typing_line(policy, typing, place)
}

// As `face::arbac_sum`.
#[unsafe(no_mangle)]
pub extern "C" fn arbac_sum(
    policy: &[u8],
    first: &[u8],
    second: &[u8],
    out: &mut [u8],
    values: &mut [u64],
) -> u64
    ensures value { result ≡ told_number 2 (sums.number_of (answer_in (sum_outcome policy.now first.now second.now (length out.old)))) values.old }
    ensures values_after { values.new ≡ told_in 2 (sum_values (answer_in (sum_outcome policy.now first.now second.now (length out.old)))) values.old }
    ensures out_after { out.new ≡ buffer_told 2 values.old (sum_outcome policy.now first.now second.now (length out.old)) out.old }
{
    face::arbac_sum(policy, first, second, out, values)
}

// As `face::arbac_spell`.
#[unsafe(no_mangle)]
pub extern "C" fn arbac_spell(policy: &[u8], out: &mut [u8], values: &mut [u64]) -> u64
    ensures value { result ≡ told_number 1 (spells.number_of (answer_in (spell_outcome policy.now (length out.old)))) values.old }
    ensures values_after { values.new ≡ told_in 1 (spell_values (answer_in (spell_outcome policy.now (length out.old)))) values.old }
    ensures out_after { out.new ≡ buffer_told 1 values.old (spell_outcome policy.now (length out.old)) out.old }
{
    face::arbac_spell(policy, out, values)
}

// As `face::arbac_merge`.
#[unsafe(no_mangle)]
pub extern "C" fn arbac_merge(
    policy_1: &[u8],
    typing_1: &[u8],
    policy_2: &[u8],
    typing_2: &[u8],
    out: &mut [u8],
    values: &mut [u64],
) -> u64
    ensures value { result ≡ told_number 6 (merges.number_of (answer_in (merge_outcome policy_1.now typing_1.now policy_2.now typing_2.now (length out.old)))) values.old }
    ensures values_after { values.new ≡ told_in 6 (merge_values (answer_in (merge_outcome policy_1.now typing_1.now policy_2.now typing_2.now (length out.old)))) values.old }
    ensures out_after { out.new ≡ buffer_told 6 values.old (merge_outcome policy_1.now typing_1.now policy_2.now typing_2.now (length out.old)) out.old }
{
    face::arbac_merge(policy_1, typing_1, policy_2, typing_2, out, values)
}
