// What is done to every cell: copied, mirrored, divided.
ghost use Rattle.std.specs.Prelude.{◌+◌, ◌-◌, ◌*◌, ◌<◌, ◌≡◌, length};
ghost use Rattle.settle.specs.Inner.{Bounded, Written};
ghost use Rattle.settle.specs.Step as spec;

use crate::unit::by_unit;
use crate::{Grid, LIMIT};

// Cell by cell: `copy_from_slice` is a call of `memmove`, which whoever links the library would have to bring.
pub(crate) fn copy(from: &[u64], t: &mut [u64])
    requires { length t.old ≡ length from.now }
    ensures { t.new ≡ from.now }
{
    for i in 0..t.len() {
        t[i] = from[i];
    }
}

// Above the last row only column 0 has a minus sign, so no other cell is touched; nor is the first cell of the last row.
fn mirror_above(t: &mut [u64], grid: Grid)
    requires { Bounded grid.columns grid.rows t.old }
    ensures { Written (spec.mirror_cell grid.columns grid.rows) ((grid.rows - 1) * grid.columns + 1) t.old t.new }
{
    for r in 0..grid.rows - 1 {
        let i = r * grid.columns;
        t[i] = LIMIT - t[i];
    }
}

pub(crate) fn mirror(t: &mut [u64], grid: Grid)
    requires { Bounded grid.columns grid.rows t.old }
    ensures { t.new ≡ spec.mirror grid.columns grid.rows t.old }
{
    mirror_above(t, grid);
    for i in (grid.rows - 1) * grid.columns + 1..t.len() {
        t[i] = LIMIT - t[i];
    }
}

fn divide_by(t: &mut [u64], w: u64)
    requires { 0 < w }
    ensures { t.new ≡ spec.units w t.old }
{
    for x in t.iter_mut() {
        *x /= w;
    }
}

pub(crate) fn divide(t: &mut [u64], w: u64)
    requires { 0 < w }
    ensures { t.new ≡ spec.units w t.old }
{
    by_unit(w, &mut |w| divide_by(t, w));
}
