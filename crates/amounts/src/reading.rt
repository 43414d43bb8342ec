// Meter readings: a bit pattern as a binary64, and a binary64 as a whole number of parts of its unit.
ghost use Rattle.std.specs.Prelude.{◌≡◌, from_bits};
ghost use Rattle.std.specs.Float.{binary64};
ghost use Rattle.amounts.specs.Inner.{Split};
ghost use Rattle.amounts.specs.Reading.{parts_bits, parts_per_unit, taken_of};

// Readings are taken in thousandths of their unit.
pub const PARTS_PER_UNIT: u64 = 1000;

// Twice PARTS_PER_UNIT is ODD · 2^SHIFT.
const ODD: u64 = 125;

// The power of two in twice PARTS_PER_UNIT.
const SHIFT: u64 = 4;

// PARTS_PER_UNIT as a binary64.
const UNIT: f64 = 1000.0;

// A binary64's pattern is, from the top, the sign, the exponent's field of 11 bits, and the 52 binary digits that follow the first.
// The sign alone is negative zero.
const SIGN: u64 = 0x8000_0000_0000_0000;

// The first digit of a normal number, which its pattern leaves out, and so the weight of the field's lowest bit.
const FIRST_DIGIT: u64 = 0x10_0000_0000_0000;

// The field of infinity and of a NaN.
const FULL_FIELD: u64 = 2047;

// Infinity has a full field and no digits: without their sign, the patterns above it are a NaN's.
const INFINITY: u64 = 0x7ff0_0000_0000_0000;

// The field of a number whose last digit counts one.
const ONES_FIELD: u64 = 1075;

// The number whose pattern n is: zeros of either sign, infinities, and a NaN where n is any NaN's pattern.
// `f64::from_bits` is not defined at those, so there a NaN is made by a division.
pub fn from_bits(n: u64) -> f64
    ensures { result ≡ from_bits binary64 n }
{
    if INFINITY < n % SIGN {
        0.0 / 0.0
    } else {
        f64::from_bits(n)
    }
}

// Why a reading has no whole number of parts: it is over the limit that was given; or it is not finite, or below zero.
#[derive(Clone, Copy, Debug, PartialEq, Eq)]
pub enum ReadingFault {
    Over,
    Bad,
}

// `whole` parts make a unit, and twice as many are odd · 2^shift. A number whose field is e is q · 2^(e - ONES_FIELD), q its 53 digits.
// So its half parts are odd · q, shifted right by ONES_FIELD - (e + shift). The nearest whole number of parts, a tie up, is half of one
// more than the half parts. Shifted by more than 63 nothing is left of them; not shifted to the right they are past any limit of 32 bits.
fn by_bits(bits: u64, whole: u64, odd: u64, shift: u64, most: u32) -> Result<u64, ReadingFault>
    requires { Split whole odd shift }
    ensures { result ≡ taken_of whole most (from_bits binary64 bits) }
{
    if SIGN < bits {
        return Err(ReadingFault::Bad);
    }
    if bits == SIGN {
        return Ok(0);
    }
    let e = bits / FIRST_DIGIT;
    if e == FULL_FIELD {
        return Err(ReadingFault::Bad);
    }
    if e + shift < ONES_FIELD - 63 {
        return Ok(0);
    }
    if ONES_FIELD <= e + shift {
        return Err(ReadingFault::Over);
    }
    let q = FIRST_DIGIT + bits % FIRST_DIGIT;
    let t = ((odd * q >> ONES_FIELD - (e + shift)) + 1) / 2;
    if whole * (most as u64) < t {
        return Err(ReadingFault::Over);
    }
    Ok(t)
}

// The parts of x, PARTS_PER_UNIT to a unit: to the nearest whole number, a tie up, x at its exact value; negative zero has 0.
// Bad for a NaN, an infinity of either sign and any number below zero. Over where the parts are more than those of `most` whole units.
pub fn parts_of(x: f64, most: u32) -> Result<u64, ReadingFault>
    ensures { result ≡ taken_of parts_per_unit most x }
{
    if x != x {
        return Err(ReadingFault::Bad);
    }
    by_bits(f64::to_bits(x), PARTS_PER_UNIT, ODD, SHIFT, most)
}

// The pattern of the reading of t parts: the binary64 of t, divided once by PARTS_PER_UNIT. Within every limit of 32 bits it is taken as t
// again. `as` is not defined where no binary64 is t, so the conversion is to the nearest.
pub fn bits_of_parts(t: u64) -> u64
    ensures { result ≡ parts_bits t }
{
    f64::to_bits(std::num::nearest_u64_to_f64(t) / UNIT)
}
