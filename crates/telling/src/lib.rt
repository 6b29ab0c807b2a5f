// An answer or the place of the bad line told: a number, and the values in a lent array.
#![tactic(auto)]

ghost use Rattle.std.specs.Prelude.{◌≤◌, length};
ghost use Rattle.summing.specs.Sum as sums;
ghost use Rattle.merging.specs.Merge as merges;
ghost use Rattle.scribing.specs.Spell as spells;
ghost use Rattle.answering.specs.Answers.{number_of};
ghost use Rattle.telling.specs.Numbers.{check_values, sum_values, merge_values, spell_values, place_text, place_values, Told, UserListed};

use answering::Answer;
use judging::{Failure, part_number};
use merging::MergeAnswer;
use places::BadPlace;
use summing::{SumRefused, Summed};
use walking::Refusal;

// Puts values at the start of an array, and answers a number.
pub fn tell(array: &mut [u64], values: &[u64], number: u64) -> u64
    requires { length values.now ≤ length array.old }
    ensures { Told number values.now array.old result array.new }
{
    array[..values.len()].copy_from_slice(values);
    number
}

// One function for each type of answer: its cases are rows of document 01's table of values, and one body would choose among them all.

// Puts the values of an answer of `check` at the start of an array, and answers its number.
#[tactic(auto, unfolding(crate::specs::Numbers::check_values, tables::specs::Padded::padded, answering::specs::Answers::number_of, answering::specs::Answers::values_of))]
pub fn tell_check(array: &mut [u64], answer: Answer) -> u64
    requires { (5 ≤ length array.old) × UserListed answer }
    ensures { Told (number_of answer) (check_values answer) array.old result array.new }
{
    match answer {
        Answer::Safe(roles, assigns, revokes, goals, pinned) => tell(
            array,
            &[
                roles as u64,
                assigns as u64,
                revokes as u64,
                goals as u64,
                pinned as u64,
            ],
            0,
        ),
        Answer::Attacked(steps, user, _, goal) => {
            tell(
                array,
                &[steps as u64, user as u64 + 1, goal as u64, 0, 0],
                1,
            )
        }
        Answer::Unproved(part, number) => {
            tell(array, &[part_number(part), number as u64, 0, 0, 0], 2)
        }
        Answer::Broken(step) => tell(array, &[step as u64, 0, 0, 0, 0], 3),
        Answer::Short(steps) => tell(array, &[steps as u64, 0, 0, 0, 0], 4),
        Answer::Refused(refusal) => tell(array, &[refusal.line as u64, 0, 0, 0, 0], refusal.number),
    }
}

// Puts the values of an answer of `sum` at the start of an array, and answers its number.
#[tactic(auto, unfolding(crate::specs::Numbers::sum_values, tables::specs::Padded::padded, summing::specs::Sum::number_of, summing::specs::Sum::values_of))]
pub fn tell_sum(array: &mut [u64], answer: Result<Summed, SumRefused>) -> u64
    requires { 2 ≤ length array.old }
    ensures { Told (sums.number_of answer) (sum_values answer) array.old result array.new }
{
    match answer {
        Ok(summed) => tell(array, &[summed.pinned as u64, summed.length as u64], 0),
        Err(refused) => tell(
            array,
            &[refused.text as u64, refused.refusal.line as u64],
            refused.refusal.number,
        ),
    }
}

// Puts the values of an answer of `merge` at the start of an array, and answers its number.
#[tactic(auto, unfolding(crate::specs::Numbers::merge_values, tables::specs::Padded::padded, merging::specs::Merge::number_of, merging::specs::Merge::values_of))]
pub fn tell_merge(array: &mut [u64], answer: MergeAnswer) -> u64
    requires { 6 ≤ length array.old }
    ensures { Told (merges.number_of answer) (merge_values answer) array.old result array.new }
{
    match answer {
        MergeAnswer::Merged(roles, assigns, revokes, goals, pinned, length) => tell(
            array,
            &[
                roles as u64,
                assigns as u64,
                revokes as u64,
                goals as u64,
                pinned as u64,
                length as u64,
            ],
            0,
        ),
        MergeAnswer::Unproved(which, Failure { part, number }) => tell(
            array,
            &[which as u64, part_number(part), number as u64, 0, 0, 0],
            2,
        ),
        MergeAnswer::Refused(which, refusal) => tell(
            array,
            &[which as u64, refusal.line as u64, 0, 0, 0, 0],
            refusal.number,
        ),
    }
}

// Puts the values of an answer of `spell` at the start of an array, and answers its number.
#[tactic(auto, unfolding(crate::specs::Numbers::spell_values, tables::specs::Padded::padded, scribing::specs::Spell::number_of, scribing::specs::Spell::values_of))]
pub fn tell_spell(array: &mut [u64], answer: Result<usize, Refusal>) -> u64
    requires { 1 ≤ length array.old }
    ensures { Told (spells.number_of answer) (spell_values answer) array.old result array.new }
{
    match answer {
        Ok(length) => tell(array, &[length as u64], 0),
        Err(refusal) => tell(array, &[refusal.line as u64], refusal.number),
    }
}

// Puts the place of a bad line at the start of an array, and answers which text it is in.
pub fn tell_place(array: &mut [u64], place: BadPlace) -> u64
    requires { (2 ≤ length array.old) × (place.from ≤ place.to) }
    ensures { Told (place_text place) (place_values place) array.old result array.new }
{
    let length = place.to - place.from;
    tell(
        array,
        &[place.from as u64, length as u64],
        place.evidence as u64 + 1,
    )
}
