// The spelling of a policy, asked for alone: the policy is read, and its text is written into a lent buffer.
#![tactic(auto)]

ghost use Rattle.std.specs.Prelude.{◌≤◌, length};
ghost use Rattle.ledgers.specs.Ledger.{ledger_words};
ghost use Rattle.ledgers.specs.Memory.{no_memory, in_memory, Spared};
ghost use Rattle.summing.specs.Outcome.{leaves, Meets};
ghost use Rattle.scribing.specs.Spell.{unspelled, spell_outcome};

use drafting::write_policy;
use ledgers::{NO_MEMORY, WORDS};
use reading::read_policy;
use walking::Refusal;

// The length of a policy's spelling, which is written into the lent buffer; the policy is read into a lent ledger. The spelling is as
// long as the text that was read.
fn spell_with(policy: &[u8], out: &mut [u8], ledger: &mut [u64]) -> Result<usize, Refusal>
    requires { ledger_words ≤ length ledger.old }
    ensures { Meets (spell_outcome policy.now (length out.old)) out.old result out.new }
{
    let counts = read_policy(policy, ledger)?;
    if out.len() < policy.len() {
        return Err(Refusal {
            number: 20,
            line: 0,
        });
    }
    Ok(write_policy(out, ledger, counts))
}

// The length of the spelling of a policy, which is written into the lent buffer, or the refusal.
pub fn spell(policy: &[u8], out: &mut [u8]) -> Result<usize, Refusal>
    ensures { Meets (spell_outcome policy.now (length out.old)) out.old result out.new }
{
    let mut ledger = [0u64; WORDS];
    spell_with(policy, out, &mut ledger)
}

// The same in lent memory of any content; 254 where it is too little.
pub fn spell_in(policy: &[u8], out: &mut [u8], memory: &mut [u64]) -> Result<usize, Refusal>
    ensures meets { Meets (in_memory ledger_words (length memory.old) (leaves (unspelled no_memory 0)) (spell_outcome policy.now (length out.old))) out.old result out.new }
    ensures spared { Spared ledger_words memory.old memory.new }
{
    if memory.len() < WORDS {
        return Err(Refusal {
            number: NO_MEMORY,
            line: 0,
        });
    }
    spell_with(policy, out, &mut memory[..WORDS])
}
