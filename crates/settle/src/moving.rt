// Moves a round. The table is mirrored, and a round is the list of the cells by which its rows are entered, newest first.
ghost use Rattle.std.specs.Prelude.{◌<◌, ◌≡◌};
ghost use Rattle.settle.specs.Inner as inner;
ghost use Rattle.settle.specs.Step as spec;

use crate::unit::by_unit;

// Whether the round's cells go up, where the marked cell is to go up (`lift`) or down: as it has to if it is one of them, else the other
// way, so that it goes as it has to where it is a twin.
#[tactic(auto, using(crate::proofs::LawLoop::rises_by))]
fn rises(lift: bool, mark: usize, us: &[usize]) -> bool
    ensures { result ≡ spec.rises lift mark us.now }
{
    if us.contains(&mark) { lift } else { !lift }
}

// How far a cell is from the next whole number, up or down.
fn room(up: bool, w: u64, x: u64) -> u64
    requires { 0 < w }
    ensures { result ≡ spec.room up w x }
{
    if up { w - x % w } else { x % w }
}

// d if it is wanted, else 0.
fn part(wanted: bool, d: u64) -> u64
    ensures { result ≡ spec.part wanted d }
{
    if wanted { d } else { 0 }
}

// The least room over the round, which is left by column x.
fn least(t: &[u64], w: u64, k: usize, up: bool, x: usize, us: &[usize]) -> u64
    requires { inner.Measured w k t.now x us.now }
    ensures { result ≡ spec.least w k up t.now x us.now }
{
    let mut out = x;
    let mut best = w;
    for u in us {
        let d = *u / k * k + out;
        let a = room(up, w, t[*u]);
        let b = room(!up, w, t[d]);
        best = best.min(a.min(b));
        out = *u % k;
    }
    best
}

// The round's cells up by p and down by m, their twins the other way. (The contract counts in units of w.)
fn move_by(t: &mut [u64], w: u64, k: usize, p: u64, m: u64, x: usize, us: &[usize])
    requires { inner.Movable w k p m t.old x us.now }
    ensures { t.new ≡ spec.move_by k p m x us.now t.old }
{
    let mut out = x;
    for u in us {
        let d = *u / k * k + out;
        let a = t[*u];
        let b = t[d];
        t[*u] = a + p - m;
        t[d] = b + m - p;
        out = *u % k;
    }
}

// A closed round moved by its least room, so that the marked cell, where it is in the round, goes up or down as it has to.
pub(crate) fn move_round(t: &mut [u64], w: u64, k: usize, lift: bool, mark: usize, us: &[usize])
    requires { inner.MovableRound w k t.old us.now }
    ensures { t.new ≡ spec.move_round w k lift mark us.now t.old }
{
    let x = us[us.len() - 1] % k;
    let up = rises(lift, mark, us);
    let d = by_unit(w, &mut |w| least(t, w, k, up, x, us));
    move_by(t, w, k, part(up, d), part(!up, d), x, us);
}
