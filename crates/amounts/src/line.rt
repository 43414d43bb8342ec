// From a line's generated amount to what is removed, reused and discharged.
ghost use Rattle.std.specs.Prelude.{◌≡◌, ◌*◌, ◌/◌, ◌<◌, ◌≤◌};
ghost use Rattle.amounts.specs.Line.{whole_share, most_divisor, Admissible, admissible, removed_of, amounts_of, worked_of};

use super::scaling::{Part, divided, plus};

// Efficiency and reuse are in tenths of a percent: this many make the whole.
pub const WHOLE_SHARE: u64 = 1000;

// The largest d of a fraction k = n / d: its product with WHOLE_SHARE fits 64 bits.
pub const MOST_DIVISOR: u64 = 10_000_000_000_000_000;

// All in units of 10 micrograms.
#[derive(Clone, Copy, Debug, PartialEq, Eq)]
pub struct Amounts {
    pub generated: u64,
    pub removed: u64,
    pub reused: u64,
    pub discharged: u64,
}

fn takes(efficiency: u64, n: u64, d: u64, reuse: u64) -> bool
    ensures { result ≡ admissible efficiency n d reuse }
{
    (efficiency <= WHOLE_SHARE) & (n <= d) & (0 < d) & (d <= MOST_DIVISOR) & (reuse <= WHOLE_SHARE)
}

// x · u / WHOLE_SHARE, by the wholes of x and what is left of x: no long division.
fn of_whole(x: u64, u: u64) -> u64
    requires { u ≤ whole_share }
    ensures { result ≡ x * u / whole_share }
{
    x / WHOLE_SHARE * u + x % WHOLE_SHARE * u / WHOLE_SHARE
}

// What a treatment removes that ran n / d of the time. Efficiency is taken first, since WHOLE_SHARE is known when this is compiled; what
// that leaves over is carried along, so that the one long division is by d alone.
fn removed(generated: u64, efficiency: u64, n: u64, d: u64) -> u64
    requires { (efficiency ≤ whole_share) × (n ≤ d) × (0 < d) × (d ≤ most_divisor) }
    ensures { result ≡ removed_of generated efficiency n d }
{
    let treated = of_whole(generated, efficiency);
    let rest = generated % WHOLE_SHARE * efficiency % WHOLE_SHARE;
    let ran = divided(treated, n, d);
    let carried = Part {
        q: 0,
        r: rest * n / WHOLE_SHARE,
    };
    let all = plus(ran, carried, d);
    all.q
}

fn apportion(generated: u64, efficiency: u64, n: u64, d: u64, reuse: u64, water: bool) -> Amounts
    requires { Admissible efficiency n d reuse }
    ensures { result ≡ amounts_of generated efficiency n d reuse water }
{
    let removed = removed(generated, efficiency, n, d);
    let left = generated - removed;
    if water {
        let reused = of_whole(left, reuse);
        Amounts {
            generated,
            removed,
            reused,
            discharged: left - reused,
        }
    } else {
        Amounts {
            generated,
            removed,
            reused: 0,
            discharged: left,
        }
    }
}

// The four amounts of a line whose treatment ran n / d of the time, whatever was generated. None where efficiency or reuse is above
// WHOLE_SHARE, n above d, or d 0 or above MOST_DIVISOR. Out of water nothing is reused, and `reuse` must be in its range all the same.
pub fn work(
    generated: u64,
    efficiency: u64,
    n: u64,
    d: u64,
    reuse: u64,
    water: bool,
) -> Option<Amounts>
    ensures { result ≡ worked_of generated efficiency n d reuse water }
{
    if takes(efficiency, n, d, reuse) {
        Some(apportion(generated, efficiency, n, d, reuse, water))
    } else {
        None
    }
}
