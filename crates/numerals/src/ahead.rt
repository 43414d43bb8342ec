// A number that stands in a text from a place on, read in one pass.
ghost use Rattle.std.specs.Prelude.{◌≡◌};
ghost use Rattle.numerals.specs.Ahead.{decimal_from, ending_at, number_from};
ghost use Rattle.numerals.specs.Typed.{most_whole};
ghost use Rattle.numerals.specs.Inner.{AtMost, digits_from, number_of, with_places};

use super::number::{POINT, ZERO_DIGIT};
use super::typed::{MOST_PLACES, MOST_WHOLE, PLACES, WHOLE_DIGITS, as_places, is_digit, join};
use little::read::byte_at;

// Behind a number above this no further digit is taken: ten times it and a digit may be more than 64 bits hold.
const MOST_BEFORE: u64 = 1_844_674_407_370_955_160;

// The number of some digits, and the place behind them.
#[derive(Clone, Copy)]
pub(crate) struct Digits {
    pub(crate) value: u64,
    pub(crate) end: usize,
}

// A number, and the place behind it.
#[derive(Clone, Copy, Debug, PartialEq, Eq)]
pub struct Ahead {
    pub number: u64,
    pub end: usize,
}

// The digits from `at` on, as far as they go.
fn digits_from(text: &[u8], at: usize) -> Digits
    ensures { result ≡ digits_from text.now at }
{
    let mut value = 0;
    for i in at..text.len() {
        let byte = text[i];
        if !is_digit(byte) {
            return Digits { value, end: i };
        }
        if MOST_BEFORE < value {
            return Digits { value, end: i };
        }
        value = 10 * value + (byte - ZERO_DIGIT) as u64;
    }
    Digits {
        value,
        end: at.max(text.len()),
    }
}

// The number of so many digits, where these are 1 to `digits` and it is at most `most`.
#[tactic(auto, unfolding(crate::specs::Inner::number_of))]
fn number_of(size: usize, value: u64, digits: usize, most: u64) -> Option<u64>
    ensures { result ≡ number_of size value digits most }
{
    if (size < 1) | (digits < size) {
        return None;
    }
    if most < value {
        return None;
    }
    Some(value)
}

fn ending_at(end: usize, typed: Option<u64>) -> Option<Ahead>
    ensures { result ≡ ending_at end typed }
{
    let number = typed?;
    Some(Ahead { number, end })
}

// The number of the digits from `at` on, where these are 1 to `digits` and it is at most `most`, and where they end. Whatever follows them
// is not looked at.
pub fn number_from(text: &[u8], at: usize, digits: usize, most: u64) -> Option<Ahead>
    ensures { result ≡ number_from digits most text.now at }
{
    let front = digits_from(text, at);
    ending_at(
        front.end,
        number_of(front.end - at, front.value, digits, most),
    )
}

// What stands before a point, and the digits from `at` on as its places.
fn with_places(text: &[u8], at: usize, whole: Option<u64>) -> Option<Ahead>
    requires { AtMost most_whole whole }
    ensures { result ≡ with_places text.now at whole }
{
    let behind = digits_from(text, at);
    let size = behind.end - at;
    let places = number_of(size, behind.value, PLACES, MOST_PLACES);
    ending_at(behind.end, join(whole, as_places(size, places)))
}

// The thousandths of the decimal numeral from `at` on, and where it ends: its digits, and if a point follows them, that and the digits
// behind it. Whatever follows is not looked at.
pub fn decimal_from(text: &[u8], at: usize) -> Option<Ahead>
    ensures { result ≡ decimal_from text.now at }
{
    let front = digits_from(text, at);
    let end = front.end;
    let whole = number_of(end - at, front.value, WHOLE_DIGITS, MOST_WHOLE);
    if byte_at(text, end) == POINT as usize {
        return with_places(text, end + 1, whole);
    }
    ending_at(end, join(whole, Some(0)))
}
