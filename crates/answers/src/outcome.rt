// The number and the line of the desk's whole answer, also where it refuses nothing.
ghost use Rattle.std.specs.Prelude.{◌≡◌};
ghost use Rattle.answers.specs.Answer.{answer_line, answer_number};

use super::answer::Refusal;

// The refusal's number; 0 where nothing is refused.
pub fn outcome_number(outcome: Result<(), Refusal>) -> u16
    ensures { result ≡ answer_number outcome }
{
    match outcome {
        Ok(()) => 0,
        Err(refusal) => refusal.number(),
    }
}

// The refusal's line; 0 where nothing is refused, or no single line is meant.
pub fn outcome_line(outcome: Result<(), Refusal>) -> u16
    ensures { result ≡ answer_line outcome }
{
    match outcome {
        Ok(()) => 0,
        Err(refusal) => refusal.line(),
    }
}
