// How a text is walked line by line, for any kind of text: what may be wrong with a line, the tests of a line in turn, and a refusal.
#![tactic(auto)]

ghost use Rattle.std.specs.Prelude.{◌≡◌};
ghost use Rattle.walking.specs.Faults.{policy_number, evidence_number, passing, policy_refusal, evidence_refusal};

// What is wrong with a line.
#[derive(Clone, Copy, PartialEq, Eq)]
pub enum Fault {
    // it has not its form, or stands where it must not
    Malformed,
    // it is one more than a limit allows
    AboveLimit,
    // it names what it must not
    Undeclared,
}

// Why a text is not read: document 01's number, and the line, 0 where it is no line's.
#[derive(Clone, Copy, PartialEq, Eq)]
pub struct Refusal {
    pub number: u64,
    pub line: usize,
}

impl Fault {
    // The number of the refusal of a policy for such a line.
    fn policy_number(self) -> u64
        ensures { result ≡ policy_number self }
    {
        match self {
            Fault::Malformed => 11,
            Fault::AboveLimit => 12,
            Fault::Undeclared => 13,
        }
    }

    // The number of the refusal of a piece of evidence for such a line.
    fn evidence_number(self) -> u64
        ensures { result ≡ evidence_number self }
    {
        match self {
            Fault::Malformed => 15,
            Fault::AboveLimit => 21,
            Fault::Undeclared => 16,
        }
    }

    // The refusal of a policy for such a line.
    pub fn in_policy(self, line: usize) -> Refusal
        ensures { result ≡ policy_refusal self line }
    {
        Refusal {
            number: self.policy_number(),
            line,
        }
    }

    // The refusal of a piece of evidence for such a line.
    pub fn in_evidence(self, line: usize) -> Refusal
        ensures { result ≡ evidence_refusal self line }
    {
        Refusal {
            number: self.evidence_number(),
            line,
        }
    }
}

// A test of a line: the fault of a line that fails it.
pub fn pass(passes: bool, fault: Fault) -> Result<(), Fault>
    ensures { result ≡ passing passes fault }
{
    if passes {
        return Ok(());
    }
    Err(fault)
}
