// How many steps change something.
ghost use Rattle.steps.specs.Count.{CountsSteps};

use super::table::try_steps;
use answers::step::TableOff;
use desk::table::MOST_CELLS;

// From the table on, until it is whole: as many steps as there are cells always do. Off where `settling_step` says so; too short does not
// come, since no table that can be settled has more cells.
pub fn settling_steps(unit: u64, table: &[u64]) -> Result<usize, TableOff>
    ensures { CountsSteps unit table.now result }
{
    let mut next = [0u64; MOST_CELLS];
    try_steps(unit, table.len(), table, &mut next).map_err(|_| TableOff)
}
