// Whether a table can be settled.
ghost use Rattle.std.specs.Prelude.{◌<◌, eqb, length, ◌≡◌};
ghost use Rattle.search.specs.Test.{all};
ghost use Rattle.settle.specs.Inner.{Frame, Line};
ghost use Rattle.settle.specs.Shown.{sum};
ghost use Rattle.settle.specs.Table as spec;

use crate::{Grid, LIMIT, MOST_COLUMNS, MOST_ROWS};

// Whether x is the sum of the line b, b + s, .., of m cells. It takes the cells off x, so no sum can wrap.
fn adds_up(t: &[u64], x: u64, b: usize, s: usize, m: usize) -> bool
    requires { Line t.now b s m }
    ensures { result ≡ eqb x (sum t.now b s m) }
{
    let mut left = x;
    for j in 0..m {
        let cell = t[b + j * s];
        if left < cell {
            return false;
        }
        left -= cell;
    }
    left == 0
}

// Whether no cell is above the limit. It looks at every cell, with no branch: where `all` would stop at the first that does not fit, the
// compiler could not test several cells at once.
fn cells_fit(t: &[u64]) -> bool
    ensures { result ≡ all (length t.now) (spec.cell_fits t.now) }
{
    let mut fit = true;
    for x in t {
        fit &= *x <= LIMIT;
    }
    fit
}

// Whether column 0 of row i is the sum of the others.
#[tactic(auto, unfolding(crate::specs::Table::row_adds_up))]
fn row_adds_up(t: &[u64], grid: Grid, i: usize) -> bool
    requires frame { Frame grid.columns grid.rows t.now }
    requires inside { i < grid.rows }
    ensures { result ≡ spec.row_adds_up grid.columns t.now i }
{
    let b = i * grid.columns;
    adds_up(t, t[b], b + 1, 1, grid.columns - 1)
}

fn rows_add_up(t: &[u64], grid: Grid) -> bool
    requires { Frame grid.columns grid.rows t.now }
    ensures { result ≡ all grid.rows (spec.row_adds_up grid.columns t.now) }
{
    (0..grid.rows).all(|i| row_adds_up(t, grid, i))
}

// Whether the last row of column j is the sum of the rows above.
#[tactic(auto, unfolding(crate::specs::Table::column_adds_up))]
fn column_adds_up(t: &[u64], grid: Grid, j: usize) -> bool
    requires frame { Frame grid.columns grid.rows t.now }
    requires inside { j < grid.columns }
    ensures { result ≡ spec.column_adds_up grid.columns grid.rows t.now j }
{
    let last = (grid.rows - 1) * grid.columns;
    adds_up(t, t[last + j], j, grid.columns, grid.rows - 1)
}

fn columns_add_up(t: &[u64], grid: Grid) -> bool
    requires { Frame grid.columns grid.rows t.now }
    ensures { result ≡ all grid.columns (spec.column_adds_up grid.columns grid.rows t.now) }
{
    (0..grid.columns).all(|j| column_adds_up(t, grid, j))
}

// Whether the numbers and the count of cells are a table's.
#[tactic(auto, unfolding(crate::specs::Table::is_sized))]
fn is_sized(grid: Grid, cells: usize) -> bool
    ensures { result ≡ spec.is_sized grid cells }
{
    let Grid {
        unit,
        columns,
        rows,
        ..
    } = grid;
    let small = (1 <= unit)
        & (1 <= columns)
        & (columns <= MOST_COLUMNS)
        & (1 <= rows)
        & (rows <= MOST_ROWS);
    small && (LIMIT % unit == 0) & (cells == rows * columns)
}

#[tactic(auto, unfolding(crate::specs::Table::is_good), using(crate::proofs::LawTable::sized_frame))]
pub(crate) fn is_good(grid: Grid, t: &[u64]) -> bool
    ensures { result ≡ spec.is_good grid t.now }
{
    is_sized(grid, t.len()) && cells_fit(t) & rows_add_up(t, grid) & columns_add_up(t, grid)
}
