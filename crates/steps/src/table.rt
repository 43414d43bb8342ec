// The lent table as one that `settle` takes.
ghost use Rattle.steps.specs.Inner.{Tried};

use desk::cells::{COLUMNS, DISCHARGED};
use headers::unit::{is_unit, unit_from};
use settle::{Unsettled, step};

// `times` steps of a table in a shown unit, of which a number that is no unit's code is off. Refused, nothing is written.
pub(crate) fn try_steps(
    unit: u64,
    times: usize,
    table: &[u64],
    next: &mut [u64],
) -> Result<usize, Unsettled>
    ensures { Tried unit times table.now next.old result next.new }
{
    if !is_unit(unit) {
        return Err(Unsettled::Off);
    }
    step(
        unit_from(unit),
        COLUMNS,
        table.len() / COLUMNS,
        DISCHARGED,
        times,
        table,
        next,
    )
}
