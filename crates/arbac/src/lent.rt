// The functions for C callers in memory that the caller lends, of any content. A function looks first whether the array has room,
// 255 where it has none, and then whether the memory has the words that it needs, 254 where it has fewer; then nothing is written.
#![tactic(auto, using(ledgers::specs::MemoryLaws::spared_all), unfolding(crate::specs::Face::lent_number, crate::specs::Face::lent_in, crate::specs::Face::buffer_lent, crate::specs::Face::told_number, crate::specs::Face::told_in, crate::specs::Face::buffer_told, crate::specs::Face::room_for, ledgers::specs::Memory::in_memory, places::specs::Place::lent_refusal))]

ghost use Rattle.std.specs.Prelude.{◌≡◌, length};
ghost use Rattle.ledgers.specs.Ledger.{ledger_words};
ghost use Rattle.ledgers.specs.Memory.{in_memory, Spared};
ghost use Rattle.summing.specs.Outcome.{answer_in};
ghost use Rattle.places.specs.Place.{bad_place, bad_typing_place};
ghost use Rattle.summing.specs.Sum.{sum_outcome};
ghost use Rattle.summing.specs.Sum as sums;
ghost use Rattle.merging.specs.Merge.{merge_outcome, merge_words};
ghost use Rattle.merging.specs.Merge as merges;
ghost use Rattle.scribing.specs.Spell.{spell_outcome};
ghost use Rattle.scribing.specs.Spell as spells;
ghost use Rattle.answering.specs.Answers.{answer_of, number_of};
ghost use Rattle.showing.specs.Fields.{shown_length, shown};
ghost use Rattle.printing.specs.Line.{check_line};
ghost use Rattle.telling.specs.Numbers.{check_values, sum_values, merge_values, spell_values, place_text, place_values};
ghost use Rattle.arbac.specs.Face.{lent_number, lent_in, buffer_lent};

use crate::face::NO_ROOM;
use answering::check_in;
use ledgers::{NO_MEMORY, WORDS};
use merging::merge::{MERGE_WORDS, merge_in};
use places::{bad_place_in, bad_typing_place_in};
use printing::check_line_in;
use scribing::spell_in;
use summing::sum_in;
use telling::{tell_check, tell_merge, tell_place, tell_spell, tell_sum};

// As `arbac_check`.
pub fn arbac_check_in(policy: &[u8], evidence: &[u8], values: &mut [u64], memory: &mut [u64]) -> u64
    ensures value { result ≡ lent_number ledger_words 5 (number_of (answer_of policy.now evidence.now)) memory.old values.old }
    ensures values_after { values.new ≡ lent_in ledger_words 5 (check_values (answer_of policy.now evidence.now)) memory.old values.old }
    ensures spared { Spared ledger_words memory.old memory.new }
{
    if values.len() < 5 {
        return NO_ROOM;
    }
    if memory.len() < WORDS {
        return NO_MEMORY;
    }
    tell_check(values, check_in(policy, evidence, memory))
}

// As `arbac_check_line`; 0 also where the memory has too few words.
pub fn arbac_check_line_in(
    policy: &[u8],
    evidence: &[u8],
    line: &mut [u8],
    memory: &mut [u64],
) -> usize
    ensures value { result ≡ in_memory ledger_words (length memory.old) 0 (shown_length (check_line policy.now evidence.now) line.old) }
    ensures line_after { line.new ≡ in_memory ledger_words (length memory.old) line.old (shown (check_line policy.now evidence.now) line.old) }
    ensures spared { Spared ledger_words memory.old memory.new }
{
    check_line_in(policy, evidence, line, memory)
}

// As `arbac_bad_line`.
pub fn arbac_bad_line_in(
    policy: &[u8],
    evidence: &[u8],
    place: &mut [u64],
    memory: &mut [u64],
) -> u64
    ensures value { result ≡ lent_number ledger_words 2 (place_text (bad_place policy.now evidence.now)) memory.old place.old }
    ensures place_after { place.new ≡ lent_in ledger_words 2 (place_values (bad_place policy.now evidence.now)) memory.old place.old }
    ensures spared { Spared ledger_words memory.old memory.new }
{
    if place.len() < 2 {
        return NO_ROOM;
    }
    if memory.len() < WORDS {
        return NO_MEMORY;
    }
    tell_place(place, bad_place_in(policy, evidence, memory))
}

// As `arbac_bad_typing_line`.
pub fn arbac_bad_typing_line_in(
    policy: &[u8],
    typing: &[u8],
    place: &mut [u64],
    memory: &mut [u64],
) -> u64
    ensures value { result ≡ lent_number ledger_words 2 (place_text (bad_typing_place policy.now typing.now)) memory.old place.old }
    ensures place_after { place.new ≡ lent_in ledger_words 2 (place_values (bad_typing_place policy.now typing.now)) memory.old place.old }
    ensures spared { Spared ledger_words memory.old memory.new }
{
    if place.len() < 2 {
        return NO_ROOM;
    }
    if memory.len() < WORDS {
        return NO_MEMORY;
    }
    tell_place(place, bad_typing_place_in(policy, typing, memory))
}

// As `arbac_sum`.
pub fn arbac_sum_in(
    policy: &[u8],
    first: &[u8],
    second: &[u8],
    out: &mut [u8],
    values: &mut [u64],
    memory: &mut [u64],
) -> u64
    ensures value { result ≡ lent_number ledger_words 2 (sums.number_of (answer_in (sum_outcome policy.now first.now second.now (length out.old)))) memory.old values.old }
    ensures values_after { values.new ≡ lent_in ledger_words 2 (sum_values (answer_in (sum_outcome policy.now first.now second.now (length out.old)))) memory.old values.old }
    ensures out_after { out.new ≡ buffer_lent ledger_words 2 memory.old values.old (sum_outcome policy.now first.now second.now (length out.old)) out.old }
    ensures spared { Spared ledger_words memory.old memory.new }
{
    if values.len() < 2 {
        return NO_ROOM;
    }
    if memory.len() < WORDS {
        return NO_MEMORY;
    }
    tell_sum(values, sum_in(policy, first, second, out, memory))
}

// As `arbac_spell`.
pub fn arbac_spell_in(policy: &[u8], out: &mut [u8], values: &mut [u64], memory: &mut [u64]) -> u64
    ensures value { result ≡ lent_number ledger_words 1 (spells.number_of (answer_in (spell_outcome policy.now (length out.old)))) memory.old values.old }
    ensures values_after { values.new ≡ lent_in ledger_words 1 (spell_values (answer_in (spell_outcome policy.now (length out.old)))) memory.old values.old }
    ensures out_after { out.new ≡ buffer_lent ledger_words 1 memory.old values.old (spell_outcome policy.now (length out.old)) out.old }
    ensures spared { Spared ledger_words memory.old memory.new }
{
    if values.len() < 1 {
        return NO_ROOM;
    }
    if memory.len() < WORDS {
        return NO_MEMORY;
    }
    tell_spell(values, spell_in(policy, out, memory))
}

// As `arbac_merge`, in the words of two ledgers.
pub fn arbac_merge_in(
    policy_1: &[u8],
    typing_1: &[u8],
    policy_2: &[u8],
    typing_2: &[u8],
    out: &mut [u8],
    values: &mut [u64],
    memory: &mut [u64],
) -> u64
    ensures value { result ≡ lent_number merge_words 6 (merges.number_of (answer_in (merge_outcome policy_1.now typing_1.now policy_2.now typing_2.now (length out.old)))) memory.old values.old }
    ensures values_after { values.new ≡ lent_in merge_words 6 (merge_values (answer_in (merge_outcome policy_1.now typing_1.now policy_2.now typing_2.now (length out.old)))) memory.old values.old }
    ensures out_after { out.new ≡ buffer_lent merge_words 6 memory.old values.old (merge_outcome policy_1.now typing_1.now policy_2.now typing_2.now (length out.old)) out.old }
    ensures spared { Spared merge_words memory.old memory.new }
{
    if values.len() < 6 {
        return NO_ROOM;
    }
    if memory.len() < MERGE_WORDS {
        return NO_MEMORY;
    }
    tell_merge(
        values,
        merge_in(policy_1, typing_1, policy_2, typing_2, out, memory),
    )
}
