// The sum of two typings, as a table and as a text, asked for alone.
#![tactic(auto)]

ghost use Rattle.std.specs.Prelude.{◌≡◌, length, ◌≤◌};
ghost use Rattle.tables.specs.Listed.{rows_of};
ghost use Rattle.ledgers.specs.Ledger.{ledger_words};
ghost use Rattle.ledgers.specs.Memory.{no_memory, in_memory, Spared};
ghost use Rattle.summing.specs.Outcome.{leaves, Meets};
ghost use Rattle.summing.specs.Sum.{sum_refused, sum_written, sum_outcome};
ghost use Rattle.summing.specs.Sums.{sum_of};

use crate::fitting::write_fitting;
use judging::pinned;
use ledgers::{NO_MEMORY, WORDS};
use model::Typing;
use reading::read_policy;
use tables::Names;
use typings::read_typing;
use walking::Refusal;

pub mod fitting;

// A sum that is written: how many names it pins, and the length of its text.
#[derive(Clone, Copy, PartialEq, Eq)]
pub struct Summed {
    pub pinned: usize,
    pub length: usize,
}

// Why no sum is written: the refusal, and which text it speaks of, 1 policy, 2 first typing, 3 second typing, 0 none.
#[derive(Clone, Copy, PartialEq, Eq)]
pub struct SumRefused {
    pub text: usize,
    pub refusal: Refusal,
}

// The sum of two typings: a label is H when either is H, and plus and minus sets are unions.
pub fn sum_of(t: Typing, u: Typing) -> Typing
    ensures { result ≡ sum_of t u }
{
    let mut s = t;
    for role in 0..128 {
        s.labels[role] |= u.labels[role];
        s.plus[role] = s.plus[role].union(u.plus[role]);
        s.minus[role] = s.minus[role].union(u.minus[role]);
    }
    s
}

// The sum of two typings over the role names, written where its text fits; 18 where it does not.
fn write_sum(roles: Names, t: Typing, out: &mut [u8]) -> Result<Summed, SumRefused>
    requires { roles.count ≤ 128 }
    ensures { Meets (sum_written (length out.old) (rows_of roles.entry) t) out.old result out.new }
{
    match write_fitting(out, roles, t) {
        Some(length) => Ok(Summed {
            pinned: pinned(t, roles.count),
            length,
        }),
        None => Err(SumRefused {
            text: 0,
            refusal: Refusal {
                number: 18,
                line: 0,
            },
        }),
    }
}

// The sum of two typings over a policy, written into the lent buffer; the policy is read into a lent ledger.
// Each text is taken by its case: `map_err` would hand a typing of 4 KB, which stands in this frame, through one more.
fn sum_with(
    policy: &[u8],
    first: &[u8],
    second: &[u8],
    out: &mut [u8],
    ledger: &mut [u64],
) -> Result<Summed, SumRefused>
    requires { ledger_words ≤ length ledger.old }
    ensures { Meets (sum_outcome policy.now first.now second.now (length out.old)) out.old result out.new }
{
    let roles = match read_policy(policy, ledger) {
        Ok(counts) => Names {
            words: ledger,
            count: counts.roles,
        },
        Err(refusal) => return Err(SumRefused { text: 1, refusal }),
    };
    let t = match read_typing(first, roles) {
        Ok(typing) => typing,
        Err(refusal) => return Err(SumRefused { text: 2, refusal }),
    };
    let u = match read_typing(second, roles) {
        Ok(typing) => typing,
        Err(refusal) => return Err(SumRefused { text: 3, refusal }),
    };
    write_sum(roles, sum_of(t, u), out)
}

// The sum of two typings over a policy, written into the lent buffer.
pub fn sum(policy: &[u8], first: &[u8], second: &[u8], out: &mut [u8]) -> Result<Summed, SumRefused>
    ensures { Meets (sum_outcome policy.now first.now second.now (length out.old)) out.old result out.new }
{
    let mut ledger = [0u64; WORDS];
    sum_with(policy, first, second, out, &mut ledger)
}

// The same in lent memory of any content; 254 where it is too little.
pub fn sum_in(
    policy: &[u8],
    first: &[u8],
    second: &[u8],
    out: &mut [u8],
    memory: &mut [u64],
) -> Result<Summed, SumRefused>
    ensures meets { Meets (in_memory ledger_words (length memory.old) (leaves (sum_refused 0 no_memory 0)) (sum_outcome policy.now first.now second.now (length out.old))) out.old result out.new }
    ensures spared { Spared ledger_words memory.old memory.new }
{
    if memory.len() < WORDS {
        return Err(SumRefused {
            text: 0,
            refusal: Refusal {
                number: NO_MEMORY,
                line: 0,
            },
        });
    }
    sum_with(policy, first, second, out, &mut memory[..WORDS])
}
