// The functions of `arbac::lent`, in memory that the caller lends, under their names in C.
ghost use Rattle.std.specs.Prelude.{◌≡◌, length};
ghost use Rattle.ledgers.specs.Ledger.{ledger_words};
ghost use Rattle.ledgers.specs.Memory.{in_memory, Spared};
ghost use Rattle.summing.specs.Outcome.{answer_in};
ghost use Rattle.places.specs.Place.{bad_place, bad_typing_place};
ghost use Rattle.summing.specs.Sum.{sum_outcome};
ghost use Rattle.summing.specs.Sum as sums;
ghost use Rattle.merging.specs.Merge.{merge_outcome, merge_words};
ghost use Rattle.merging.specs.Merge as merges;
ghost use Rattle.scribing.specs.Spell.{spell_outcome};
ghost use Rattle.scribing.specs.Spell as spells;
ghost use Rattle.answering.specs.Answers.{answer_of, number_of};
ghost use Rattle.showing.specs.Fields.{shown_length, shown};
ghost use Rattle.printing.specs.Line.{check_line};
ghost use Rattle.telling.specs.Numbers.{check_values, sum_values, merge_values, spell_values, place_text, place_values};
ghost use Rattle.arbac.specs.Face.{lent_number, lent_in, buffer_lent};

use arbac::lent;

// As `lent::arbac_check_in`.
#[unsafe(no_mangle)]
pub extern "C" fn arbac_check_in(
    policy: &[u8],
    evidence: &[u8],
    values: &mut [u64],
    memory: &mut [u64],
) -> u64
    ensures value { result ≡ lent_number ledger_words 5 (number_of (answer_of policy.now evidence.now)) memory.old values.old }
    ensures values_after { values.new ≡ lent_in ledger_words 5 (check_values (answer_of policy.now evidence.now)) memory.old values.old }
    ensures spared { Spared ledger_words memory.old memory.new }
{
    lent::arbac_check_in(policy, evidence, values, memory)
}

// As `lent::arbac_check_line_in`.
#[unsafe(no_mangle)]
pub extern "C" fn arbac_check_line_in(
    policy: &[u8],
    evidence: &[u8],
    line: &mut [u8],
    memory: &mut [u64],
) -> usize
    ensures value { result ≡ in_memory ledger_words (length memory.old) 0 (shown_length (check_line policy.now evidence.now) line.old) }
    ensures line_after { line.new ≡ in_memory ledger_words (length memory.old) line.old (shown (check_line policy.now evidence.now) line.old) }
    ensures spared { Spared ledger_words memory.old memory.new }
{
    lent::arbac_check_line_in(policy, evidence, line, memory)
}

// As `lent::arbac_bad_line_in`.
#[unsafe(no_mangle)]
pub extern "C" fn arbac_bad_line_in(
    policy: &[u8],
    evidence: &[u8],
    place: &mut [u64],
    memory: &mut [u64],
) -> u64
    ensures value { result ≡ lent_number ledger_words 2 (place_text (bad_place policy.now evidence.now)) memory.old place.old }
    ensures place_after { place.new ≡ lent_in ledger_words 2 (place_values (bad_place policy.now evidence.now)) memory.old place.old }
    ensures spared { Spared ledger_words memory.old memory.new }
{
    lent::arbac_bad_line_in(policy, evidence, place, memory)
}

// As `lent::arbac_bad_typing_line_in`.
#[unsafe(no_mangle)]
pub extern "C" fn arbac_bad_typing_line_in(
    policy: &[u8],
    typing: &[u8],
    place: &mut [u64],
    memory: &mut [u64],
) -> u64
    ensures value { result ≡ lent_number ledger_words 2 (place_text (bad_typing_place policy.now typing.now)) memory.old place.old }
    ensures place_after { place.new ≡ lent_in ledger_words 2 (place_values (bad_typing_place policy.now typing.now)) memory.old place.old }
    ensures spared { Spared ledger_words memory.old memory.new }
{
    lent::arbac_bad_typing_line_in(policy, typing, place, memory)
}

// As `lent::arbac_sum_in`.
#[unsafe(no_mangle)]
pub extern "C" fn arbac_sum_in(
    policy: &[u8],
    first: &[u8],
    second: &[u8],
    out: &mut [u8],
    values: &mut [u64],
    memory: &mut [u64],
) -> u64
    ensures value { result ≡ lent_number ledger_words 2 (sums.number_of (answer_in (sum_outcome policy.now first.now second.now (length out.old)))) memory.old values.old }
    ensures values_after { values.new ≡ lent_in ledger_words 2 (sum_values (answer_in (sum_outcome policy.now first.now second.now (length out.old)))) memory.old values.old }
    ensures out_after { out.new ≡ buffer_lent ledger_words 2 memory.old values.old (sum_outcome policy.now first.now second.now (length out.old)) out.old }
    ensures spared { Spared ledger_words memory.old memory.new }
{
    lent::arbac_sum_in(policy, first, second, out, values, memory)
}

// As `lent::arbac_spell_in`.
#[unsafe(no_mangle)]
pub extern "C" fn arbac_spell_in(
    policy: &[u8],
    out: &mut [u8],
    values: &mut [u64],
    memory: &mut [u64],
) -> u64
    ensures value { result ≡ lent_number ledger_words 1 (spells.number_of (answer_in (spell_outcome policy.now (length out.old)))) memory.old values.old }
    ensures values_after { values.new ≡ lent_in ledger_words 1 (spell_values (answer_in (spell_outcome policy.now (length out.old)))) memory.old values.old }
    ensures out_after { out.new ≡ buffer_lent ledger_words 1 memory.old values.old (spell_outcome policy.now (length out.old)) out.old }
    ensures spared { Spared ledger_words memory.old memory.new }
{
    lent::arbac_spell_in(policy, out, values, memory)
}

// As `lent::arbac_merge_in`.
#[unsafe(no_mangle)]
pub extern "C" fn arbac_merge_in(
    policy_1: &[u8],
    typing_1: &[u8],
    policy_2: &[u8],
    typing_2: &[u8],
    out: &mut [u8],
    values: &mut [u64],
    memory: &mut [u64],
) -> u64
    ensures value { result ≡ lent_number merge_words 6 (merges.number_of (answer_in (merge_outcome policy_1.now typing_1.now policy_2.now typing_2.now (length out.old)))) memory.old values.old }
    ensures values_after { values.new ≡ lent_in merge_words 6 (merge_values (answer_in (merge_outcome policy_1.now typing_1.now policy_2.now typing_2.now (length out.old)))) memory.old values.old }
    ensures out_after { out.new ≡ buffer_lent merge_words 6 memory.old values.old (merge_outcome policy_1.now typing_1.now policy_2.now typing_2.now (length out.old)) out.old }
    ensures spared { Spared merge_words memory.old memory.new }
{
    lent::arbac_merge_in(policy_1, typing_1, policy_2, typing_2, out, values, memory)
}
