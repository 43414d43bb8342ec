// A number as it was typed.
ghost use Rattle.std.specs.Prelude.{◌≡◌};
ghost use Rattle.numerals.specs.Typed.{as_places, decimal_in, is_digit, joined, most_places, most_whole, number_in, places_in, point_in};
ghost use Rattle.numerals.specs.Inner.{AtMost, FewPlaces};

use super::number::{POINT, THOUSAND, ZERO_DIGIT};

const NINE_DIGIT: u8 = b'9';

// The digits of a decimal numeral before its point, and the places behind it, at most.
pub const WHOLE_DIGITS: usize = 11;

pub const PLACES: usize = 3;

// The largest numbers of so many digits.
pub const MOST_WHOLE: u64 = 99_999_999_999;

pub const MOST_PLACES: u64 = 999;

pub(crate) fn is_digit(byte: u8) -> bool
    ensures { result ≡ is_digit byte }
{
    (ZERO_DIGIT <= byte) & (byte <= NINE_DIGIT)
}

// The number of a numeral of 1 to so many digits, leading zeros among them, that is at most `most`; None for any other bytes. No sum is made
// that could wrap.
pub fn number_in(bytes: &[u8], digits: usize, most: u64) -> Option<u64>
    ensures { result ≡ number_in digits most bytes.now }
{
    if (bytes.len() < 1) | (digits < bytes.len()) {
        return None;
    }
    let mut value = 0;
    for byte in bytes {
        if !is_digit(*byte) {
            return None;
        }
        let digit = (*byte - ZERO_DIGIT) as u64;
        if most / 10 < value {
            return None;
        }
        if most - 10 * value < digit {
            return None;
        }
        value = 10 * value + digit;
    }
    Some(value)
}

fn point_in(bytes: &[u8]) -> Option<usize>
    ensures { result ≡ point_in bytes.now }
{
    bytes.iter().position(|byte| *byte == POINT)
}

// So many places as thousandths: one is tenths, two are hundredths.
pub(crate) fn as_places(size: usize, digits: Option<u64>) -> Option<u64>
    requires { FewPlaces size digits }
    ensures { result ≡ as_places size digits }
{
    let n = digits?;
    match size {
        1 => Some(n * 100),
        2 => Some(n * 10),
        _ => Some(n),
    }
}

fn places_in(bytes: &[u8]) -> Option<u64>
    ensures { result ≡ places_in bytes.now }
{
    as_places(bytes.len(), number_in(bytes, PLACES, MOST_PLACES))
}

// Both in thousandths, if both are numbers.
pub(crate) fn join(whole: Option<u64>, part: Option<u64>) -> Option<u64>
    requires { AtMost most_whole whole × AtMost most_places part }
    ensures { result ≡ joined whole part }
{
    let n = whole?;
    let p = part?;
    Some(n * THOUSAND + p)
}

// The thousandths of a decimal numeral: 1 to 11 digits, with or without a point and 1 to 3 more; None for any other bytes.
pub fn decimal_in(bytes: &[u8]) -> Option<u64>
    ensures { result ≡ decimal_in bytes.now }
{
    match point_in(bytes) {
        None => join(number_in(bytes, WHOLE_DIGITS, MOST_WHOLE), Some(0)),
        Some(i) => {
            let whole = number_in(&bytes[..i], WHOLE_DIGITS, MOST_WHOLE);
            join(whole, places_in(&bytes[i + 1..]))
        }
    }
}
