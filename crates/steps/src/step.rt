// One settling step.
ghost use Rattle.steps.specs.Step.{TakesStep};

use super::table::try_steps;
use answers::step::{StepFault, Stepped};
use little::cells::clear;
use settle::Unsettled;

// The table after one step, at the front of `next`; `unit` is the code of the shown unit, as a sheet has it. A whole table stays as it
// is. The cells of `next` past the table keep their values. Refused, with every cell of `next` zero: a table that is not of 1 to 129 rows
// of five, has a cell above 16 · 10^18 or a sum that is off, or a unit that is none; then a `next` with fewer cells than the table.
pub fn settling_step(unit: u64, table: &[u64], next: &mut [u64]) -> Result<Stepped, StepFault>
    ensures { TakesStep unit table.now next.old result next.new }
{
    match try_steps(unit, 1, table, next) {
        Ok(0) => Ok(Stepped::Whole),
        Ok(_) => Ok(Stepped::Changed),
        Err(Unsettled::Off) => {
            clear(next);
            Err(StepFault::TableOff)
        }
        Err(Unsettled::Short) => {
            clear(next);
            Err(StepFault::ResultTooShort)
        }
    }
}
