// Rounds a table of sums to whole units by closed rounds: every cell to one of the whole numbers around it, every sum right.
// A table is lent as its cells, row after row: column 0 has the rows' sums, the last row the columns' sums.
// (In the private functions t is the table's cells; where one takes no grid, w is the unit and k the number of columns.)
#![tactic(auto)]

ghost use Rattle.settle.specs.Answer.{AnswersShow, AnswersStep};
ghost use Rattle.settle.specs.Grid.{grid};
ghost use Rattle.settle.specs.Inner.{Lent, Steps};
ghost use Rattle.settle.specs.Step as spec;

mod cells;
mod moving;
mod round;
mod settling;
mod table;
mod unit;

use cells::{copy, divide, mirror};
use settling::settle;
use table::is_good;

// What a cell may be at most; a unit divides it.
pub const LIMIT: u64 = 16_000_000_000_000_000_000;

pub const MOST_COLUMNS: usize = 5;

pub const MOST_ROWS: usize = 129;

// The numbers by which a table is read. The public functions take them one by one: so the compiler sees which of them every caller has
// alike, and divides by a number of columns that it knows.
#[derive(Clone, Copy)]
pub struct Grid {
    // a cell is whole where it is a multiple of the unit
    pub unit: u64,
    pub columns: usize,
    pub rows: usize,
    // the column whose total never goes down; a number that is no column marks none
    pub marked: usize,
}

// Why nothing was settled.
#[derive(Clone, Copy, Debug, PartialEq, Eq)]
pub enum Unsettled {
    // the table is not one that can be settled
    Off,
    // the lent result has too few cells
    Short,
}

// `times` steps of `table`, written to the front of `next`. Ok counts those that changed something: once nothing is loose, no step
// does, so `times` may be any number.
//
// Off: a unit that is 0 or does not divide LIMIT; no column or more than MOST_COLUMNS; no row or more than MOST_ROWS; a table that has not
// columns times rows cells, has a cell above LIMIT, or a sum that is off. Short: `next` has fewer cells than the table. Neither writes
// anything. Cells of `next` past the table keep their values.
pub fn step(
    unit: u64,
    columns: usize,
    rows: usize,
    marked: usize,
    times: usize,
    table: &[u64],
    next: &mut [u64],
) -> Result<usize, Unsettled>
    ensures { AnswersStep (grid unit columns rows marked) times table.now next.old next.new result }
{
    let grid = Grid {
        unit,
        columns,
        rows,
        marked,
    };
    if !is_good(grid, table) {
        return Err(Unsettled::Off);
    }
    let cells = table.len();
    if next.len() < cells {
        return Err(Unsettled::Short);
    }
    let steps = step_in(grid, times, table, &mut next[..cells]);
    Ok(steps)
}

// The shown table of `exact`, in whole units, written to the front of `shown`: as many steps as there are cells, which is always enough,
// then the division. A table of which all cells are whole is only divided. The answers are those of `step`.
pub fn show(
    unit: u64,
    columns: usize,
    rows: usize,
    marked: usize,
    exact: &[u64],
    shown: &mut [u64],
) -> Result<usize, Unsettled>
    ensures { AnswersShow (grid unit columns rows marked) exact.now shown.old shown.new result }
{
    let steps = step(unit, columns, rows, marked, exact.len(), exact, shown)?;
    let cells = exact.len();
    divide(&mut shown[..cells], unit);
    Ok(steps)
}

// The steps, where there is room for them in t.
fn step_in(grid: Grid, times: usize, table: &[u64], t: &mut [u64]) -> usize
    requires { Lent grid table.now t.old }
    ensures { Steps (spec.step grid) grid.unit times table.now t.new result }
{
    copy(table, t);
    mirror(t, grid);
    let steps = settle(t, grid, times);
    mirror(t, grid);
    steps
}
