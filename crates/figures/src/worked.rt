// The library of amounts: readings, proportional scaling and the lines marked P.
use amounts::line::work;
use amounts::reading::{ReadingFault, from_bits, parts_of};
use amounts::scaling::scaled;

// The most hours of a year.
const MOST_HOURS: u32 = 8784;

// Hours in thousandths.
fn reading(rt: &impl Print, name: &str, x: f64) {
    let _ = match parts_of(x, MOST_HOURS) {
        Ok(t) => println!(rt; "reading {name} {t}"),
        Err(ReadingFault::Over) => println!(rt; "reading {name} over"),
        Err(ReadingFault::Bad) => println!(rt; "reading {name} bad"),
    };
}

pub(crate) fn readings(rt: &impl Print) {
    reading(rt, "0.0625", 0.0625);
    reading(rt, "0.1", 0.1);
    reading(rt, "7.999999999", 7.999999999);
    reading(rt, "8784", 8784.0);
    reading(rt, "8784.001", 8784.001);
    reading(rt, "-0", -0.0);
    reading(rt, "infinity", from_bits(0x7ff0_0000_0000_0000));
    reading(rt, "NaN", from_bits(0x7ff8_0000_0000_0000));
}

// The whole part of x · n / d.
fn scaling(rt: &impl Print, x: u64, n: u64, d: u64) {
    let _ = match scaled(x, n, d) {
        Some(q) => println!(rt; "scaled {q}"),
        None => println!(rt; "scaled bad"),
    };
}

// The largest divisor that is taken by digits.
const BY_DIGITS: u64 = 0x4000_0000_0000_0000;

pub(crate) fn scalings(rt: &impl Print) {
    scaling(rt, u64::MAX, u64::MAX - 1, u64::MAX);
    scaling(rt, u64::MAX, BY_DIGITS, BY_DIGITS + 1);
    scaling(rt, u64::MAX, BY_DIGITS - 1, BY_DIGITS);
    scaling(rt, 7, 0, 0);
    scaling(rt, 1, 2, 1);
}

// G, R, U and D of a line in water, from the columns of the paper's table: G, efficiency, k as n over d, reuse.
fn line(rt: &impl Print, generated: u64, efficiency: u64, n: u64, d: u64, reuse: u64) {
    let _ = match work(generated, efficiency, n, d, reuse, true) {
        Some(a) => {
            let (g, r, u, d) = (a.generated, a.removed, a.reused, a.discharged);
            println!(rt; "line {g} {r} {u} {d}")
        }
        None => println!(rt; "line bad"),
    };
}

// The energy line has thousandths: 900 kWh times 1000, over 0.5 kW times 3600 h.
pub(crate) fn lines(rt: &impl Print) {
    line(rt, 0, 700, 1, 1, 950);
    line(rt, 1, 700, 1, 1, 950);
    line(rt, 10, 995, 1, 3, 500);
    line(rt, 1000, 700, 4000, 8000, 0);
    line(rt, 1000, 950, 900_000_000, 1_800_000_000, 0);
    line(rt, 1000, 1000, 1, 1, 0);
    line(rt, 1000, 700, 1, 1, 1000);
    line(rt, 330_720_000_000, 700, 1, 1, 950);
    line(rt, 268_590_000_000, 700, 1, 1, 900);
}
