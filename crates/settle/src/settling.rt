// Steps of a mirrored table.
ghost use Rattle.settle.specs.Inner.{Small, SoughtAll, Steps, Table, Unsettled};
ghost use Rattle.settle.specs.Step as spec;
ghost use Rattle.std.specs.Prelude.{◌≡◌};

use crate::moving::move_round;
use crate::round::{round_from, seek};
use crate::{Grid, MOST_COLUMNS};

// The total of the marked column; no cell where the table has no such column.
#[tactic(auto, unfolding(crate::specs::Step::marked_cell))]
fn marked_cell(grid: Grid) -> usize
    requires { Small grid.columns grid.rows }
    ensures { result ≡ spec.marked_cell grid.columns grid.rows grid.marked }
{
    if grid.marked < grid.columns {
        (grid.rows - 1) * grid.columns + grid.marked
    } else {
        grid.rows * grid.columns
    }
}

// The first loose cell, none being before place `from`.
fn first_loose(t: &[u64], w: u64, from: usize) -> usize
    requires { SoughtAll w t.now from }
    ensures { result ≡ spec.first_loose w t.now }
{
    let all = t.len();
    seek(t, w, 0, 1, all, from, all)
}

// One step, from the first loose cell i.
fn step_mirrored(t: &mut [u64], grid: Grid, i: usize)
    requires { Unsettled grid t.old i }
    ensures { t.new ≡ spec.step_mirrored grid t.old }
{
    let mut room = [0usize; MOST_COLUMNS];
    let us = round_from(t, grid, i, &mut room);
    let mark = marked_cell(grid);
    move_round(t, grid.unit, grid.columns, grid.marked == 0, mark, us);
}

// At most so many steps; how many changed something. What is above the first loose cell stays whole, so no step searches it again.
pub(crate) fn settle(t: &mut [u64], grid: Grid, times: usize) -> usize
    requires { Table grid t.old }
    ensures { Steps (spec.step_mirrored grid) grid.unit times t.old t.new result }
{
    let mut i = first_loose(t, grid.unit, 0);
    for steps in 0..times {
        if t.len() <= i {
            return steps;
        }
        step_mirrored(t, grid, i);
        i = first_loose(t, grid.unit, i);
    }
    times
}
