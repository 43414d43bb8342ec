// What is answered to a table that is being settled: to a step of it, and to how many steps change something.
ghost use Rattle.std.specs.Prelude.{◌≡◌};
ghost use Rattle.answers.specs.Step.{count_code, step_code};

use super::answer::{FileFault, NUMBER_UNIT, Refusal};

// The number of a table that is off.
const TABLE_OFF: u64 = 22;

// What one more step did: something changed, or the table was whole already.
#[derive(Clone, Copy, Debug, PartialEq, Eq)]
pub enum Stepped {
    Changed,
    Whole,
}

// Why no step was taken; a table that is off is looked for before a result that is too short.
#[derive(Clone, Copy, Debug, PartialEq, Eq)]
pub enum StepFault {
    TableOff,
    ResultTooShort,
}

// The table whose steps are to be counted is off.
#[derive(Clone, Copy, Debug, PartialEq, Eq)]
pub struct TableOff;

// The answer to a step as one number: 1 where something changed, 0 where the table is whole, else the refusal's number times 65,536.
pub fn step_code(outcome: Result<Stepped, StepFault>) -> u64
    ensures { result ≡ step_code outcome }
{
    match outcome {
        Ok(Stepped::Changed) => 1,
        Ok(Stepped::Whole) => 0,
        Err(StepFault::TableOff) => TABLE_OFF * NUMBER_UNIT,
        Err(StepFault::ResultTooShort) => Refusal::File(FileFault::ResultTooShort).code(),
    }
}

// How many steps change something, as one number: the count, which of a table of the desk's size is below 65,536; or the refusal's number
// times 65,536.
pub fn count_code(outcome: Result<usize, TableOff>) -> u64
    ensures { result ≡ count_code outcome }
{
    match outcome {
        Ok(steps) => steps as u64,
        Err(TableOff) => TABLE_OFF * NUMBER_UNIT,
    }
}
