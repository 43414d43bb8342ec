// What the desk answers to a bundle as a whole: every sheet has its own answer, or one refusal of them all.
ghost use Rattle.std.specs.Prelude.{◌≡◌, Err};
ghost use Rattle.answers.specs.Bundle.{bundle_code, bundle_number};

use super::answer::NUMBER_UNIT;

// Why all sheets are refused; malformed is looked for before too short.
#[derive(Clone, Copy, Debug, PartialEq, Eq)]
pub enum BundleFault {
    BundleMalformed,
    ResultTooShort,
}

impl BundleFault {
    // The refusal's number.
    pub fn number(self) -> u16
        ensures { result ≡ bundle_number (Err self) }
    {
        match self {
            BundleFault::BundleMalformed => 16,
            BundleFault::ResultTooShort => 3,
        }
    }
}

// The refusal's number; 0 where the bundle is taken.
pub fn bundle_number(outcome: Result<(), BundleFault>) -> u16
    ensures { result ≡ bundle_number outcome }
{
    match outcome {
        Ok(()) => 0,
        Err(fault) => fault.number(),
    }
}

// The answer as one number. No line of a sheet is meant, so that below the refusal's number there stands 0.
pub fn bundle_code(outcome: Result<(), BundleFault>) -> u64
    ensures { result ≡ bundle_code outcome }
{
    (bundle_number(outcome) as u64) * NUMBER_UNIT
}
