// The functions for C callers: plain numbers and slices, and nothing is asked of their values. What a function answers is the
// number of an answer or of a text, and 255, which is neither, where the array is too short; then nothing is written.
// Numbers for answers, texts and refusals, and a test of the array's room in each function: the C interface knows no Option or Result.
#![tactic(auto, using(places::specs::PlaceLaws::place_ordered, crate::proofs::FaceLaws::user_listed), unfolding(crate::specs::Face::told_number, crate::specs::Face::told_in, crate::specs::Face::buffer_told, crate::specs::Face::room_for))]

ghost use Rattle.std.specs.Prelude.{◌≡◌, length};
ghost use Rattle.summing.specs.Outcome.{answer_in};
ghost use Rattle.places.specs.Place.{bad_place, bad_typing_place};
ghost use Rattle.summing.specs.Sum.{sum_outcome};
ghost use Rattle.summing.specs.Sum as sums;
ghost use Rattle.merging.specs.Merge.{merge_outcome};
ghost use Rattle.merging.specs.Merge as merges;
ghost use Rattle.scribing.specs.Spell.{spell_outcome};
ghost use Rattle.scribing.specs.Spell as spells;
ghost use Rattle.answering.specs.Answers.{answer_of, number_of};
ghost use Rattle.showing.specs.Fields.{shown_length, shown};
ghost use Rattle.printing.specs.Line.{check_line};
ghost use Rattle.telling.specs.Numbers.{check_values, sum_values, merge_values, spell_values, place_text, place_values};
ghost use Rattle.arbac.specs.Face.{told_number, told_in, buffer_told};

use answering::check;
use merging::merge::merge;
use places::{bad_place, bad_typing_place};
use printing::check_line;
use scribing::spell;
use summing::sum;
use telling::{tell_check, tell_merge, tell_place, tell_spell, tell_sum};

// No answer and no text has this number.
pub const NO_ROOM: u64 = 255;

// Answers the number of the answer to a policy text and a piece of evidence, and tells its values in an array of at least 5
// numbers.
pub fn arbac_check(policy: &[u8], evidence: &[u8], values: &mut [u64]) -> u64
    ensures value { result ≡ told_number 5 (number_of (answer_of policy.now evidence.now)) values.old }
    ensures values_after { values.new ≡ told_in 5 (check_values (answer_of policy.now evidence.now)) values.old }
{
    if values.len() < 5 {
        return NO_ROOM;
    }
    tell_check(values, check(policy, evidence))
}

// Makes the line that `check` prints for two texts, and answers its length; 0 where the buffer is too short. 128 bytes are
// enough for every line.
pub fn arbac_check_line(policy: &[u8], evidence: &[u8], line: &mut [u8]) -> usize
    ensures value { result ≡ shown_length (check_line policy.now evidence.now) line.old }
    ensures line_after { line.new ≡ shown (check_line policy.now evidence.now) line.old }
{
    check_line(policy, evidence, line)
}

// Answers which text the bad line stands in, and tells where it begins and how long it is in an array of at least 2 numbers.
pub fn arbac_bad_line(policy: &[u8], evidence: &[u8], place: &mut [u64]) -> u64
    ensures value { result ≡ told_number 2 (place_text (bad_place policy.now evidence.now)) place.old }
    ensures place_after { place.new ≡ told_in 2 (place_values (bad_place policy.now evidence.now)) place.old }
{
    if place.len() < 2 {
        return NO_ROOM;
    }
    tell_place(place, bad_place(policy, evidence))
}

// The same of a policy and a text where a typing is wanted, as sum and merge want one.
pub fn arbac_bad_typing_line(policy: &[u8], typing: &[u8], place: &mut [u64]) -> u64
    ensures value { result ≡ told_number 2 (place_text (bad_typing_place policy.now typing.now)) place.old }
    ensures place_after { place.new ≡ told_in 2 (place_values (bad_typing_place policy.now typing.now)) place.old }
{
    if place.len() < 2 {
        return NO_ROOM;
    }
    tell_place(place, bad_typing_place(policy, typing))
}

// Writes the sum of two typings over a policy into a buffer, answers the answer's number, and tells its values in an array of at
// least 2 numbers.
pub fn arbac_sum(
    policy: &[u8],
    first: &[u8],
    second: &[u8],
    out: &mut [u8],
    values: &mut [u64],
) -> u64
    ensures value { result ≡ told_number 2 (sums.number_of (answer_in (sum_outcome policy.now first.now second.now (length out.old)))) values.old }
    ensures values_after { values.new ≡ told_in 2 (sum_values (answer_in (sum_outcome policy.now first.now second.now (length out.old)))) values.old }
    ensures out_after { out.new ≡ buffer_told 2 values.old (sum_outcome policy.now first.now second.now (length out.old)) out.old }
{
    if values.len() < 2 {
        return NO_ROOM;
    }
    tell_sum(values, sum(policy, first, second, out))
}

// Writes a policy's spelling into a buffer, answers the answer's number, and tells its value in an array of at least 1 number.
pub fn arbac_spell(policy: &[u8], out: &mut [u8], values: &mut [u64]) -> u64
    ensures value { result ≡ told_number 1 (spells.number_of (answer_in (spell_outcome policy.now (length out.old)))) values.old }
    ensures values_after { values.new ≡ told_in 1 (spell_values (answer_in (spell_outcome policy.now (length out.old)))) values.old }
    ensures out_after { out.new ≡ buffer_told 1 values.old (spell_outcome policy.now (length out.old)) out.old }
{
    if values.len() < 1 {
        return NO_ROOM;
    }
    tell_spell(values, spell(policy, out))
}

// Merges two policies, each with a typing of its own, writes the sum of the typings into a buffer, answers the answer's number,
// and tells its values in an array of at least 6 numbers.
pub fn arbac_merge(
    policy_1: &[u8],
    typing_1: &[u8],
    policy_2: &[u8],
    typing_2: &[u8],
    out: &mut [u8],
    values: &mut [u64],
) -> u64
    ensures value { result ≡ told_number 6 (merges.number_of (answer_in (merge_outcome policy_1.now typing_1.now policy_2.now typing_2.now (length out.old)))) values.old }
    ensures values_after { values.new ≡ told_in 6 (merge_values (answer_in (merge_outcome policy_1.now typing_1.now policy_2.now typing_2.now (length out.old)))) values.old }
    ensures out_after { out.new ≡ buffer_told 6 values.old (merge_outcome policy_1.now typing_1.now policy_2.now typing_2.now (length out.old)) out.old }
{
    if values.len() < 6 {
        return NO_ROOM;
    }
    tell_merge(values, merge(policy_1, typing_1, policy_2, typing_2, out))
}
