// Finds the round that a step moves. The table is mirrored.
ghost use Rattle.settle.specs.Inner as inner;
ghost use Rattle.settle.specs.Step as spec;
ghost use Rattle.std.specs.Prelude.{◌≡◌};

use crate::unit::by_unit;
use crate::{Grid, MOST_COLUMNS};

// The first loose place, other than q, of the line b, b + s, .., of m places; m if there is none. Nothing is searched before place f.
fn seek_by(t: &[u64], w: u64, b: usize, s: usize, q: usize, f: usize, m: usize) -> usize
    requires { inner.Sought w t.now b s q f m }
    ensures { result ≡ spec.seek w t.now b s q m 0 }
{
    for k in f..m {
        if k != q && t[b + k * s] % w != 0 {
            return k;
        }
    }
    m
}

pub(crate) fn seek(t: &[u64], w: u64, b: usize, s: usize, q: usize, f: usize, m: usize) -> usize
    requires { inner.Sought w t.now b s q f m }
    ensures { result ≡ spec.seek w t.now b s q m 0 }
{
    by_unit(w, &mut |w| seek_by(t, w, b, s, q, f, m))
}

// How many of the path's columns, newest first, are whole in row r before one is loose there.
fn closes(t: &[u64], w: u64, k: usize, r: usize, path: &[usize]) -> usize
    requires { inner.SoughtRow w k t.now r }
    ensures { result ≡ spec.closes w k t.now r path.now }
{
    let row = r * k;
    for (i, u) in path.iter().enumerate() {
        if t[row + *u % k] % w != 0 {
            return i;
        }
    }
    path.len()
}

// The round that the walk from the first loose cell i closes: the cells by which its rows are entered, newest first. It is a part of
// `room`, which is filled from its end, so that the path is its end.
pub(crate) fn round_from<'a>(
    t: &[u64],
    grid: Grid,
    i: usize,
    room: &'a mut [usize; MOST_COLUMNS],
) -> &'a [usize]
    requires { inner.Start grid.unit grid.columns grid.rows t.now i }
    ensures { result.now ≡ spec.round_from grid.unit grid.columns grid.rows t.now i }
{
    let Grid {
        unit: w,
        columns: k,
        rows: n,
        ..
    } = grid;
    let top = i / k;
    let mut r = top;
    let mut c = i % k;
    for entered in 0..MOST_COLUMNS {
        let old = MOST_COLUMNS - entered;
        let path = &room[old..];
        let m = by_unit(w, &mut |w| closes(t, w, k, r, path));
        let at = old - 1;
        room[at] = r * k + c;
        if m < entered {
            return &room[at..old + m + 1];
        }
        let d = seek(t, w, r * k, 1, c, 0, k);
        let e = seek(t, w, d, k, r, top, n);
        r = e;
        c = d;
    }
    // Not reached: each row that is entered has a column that is new to the path.
    &room[..0]
}
