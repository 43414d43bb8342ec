// A number as its decimal numeral.
ghost use Rattle.std.specs.Prelude.{◌≡◌, length};
ghost use Rattle.numerals.specs.Laid.{Lays};
ghost use Rattle.numerals.specs.Numeral.{decimal_numeral, digit, most_decimal, most_digits, numeral, significant};
ghost use Rattle.numerals.specs.Inner.{Ends};

use super::bytes::{lay, lay_each, lay_one};

// The digits of a number, at most.
pub const MOST_DIGITS: usize = 20;

// The bytes of a decimal numeral, at most: the digits of its whole part, the point, three places.
pub const MOST_DECIMAL: usize = MOST_DIGITS + 4;

// The digit 0 in ASCII; the others follow it in order.
pub const ZERO_DIGIT: u8 = b'0';

// Between the whole part and the places of a decimal numeral.
pub const POINT: u8 = b'.';

// The three places of a decimal numeral count thousandths.
pub const THOUSAND: u64 = 1000;

// The last digit of a number, in ASCII.
fn last_digit(n: u64) -> u8
    ensures { result ≡ digit n }
{
    ZERO_DIGIT + (n % 10) as u8
}

// The digits of a number, with no leading zeros, at the end of as many bytes as any number has; answers where they begin.
fn digits(n: u64, tail: &mut [u8]) -> usize
    requires { length tail.old ≡ most_digits }
    ensures { Ends (significant most_digits n) result tail.new }
{
    let mut rest = n;
    for i in (0..MOST_DIGITS).rev() {
        let all_written = rest == 0;
        if all_written {
            return i + 1;
        }
        tail[i] = last_digit(rest);
        rest /= 10;
    }
    0
}

// The numeral of a number, 0 as `0`, from the place `at` on, as far as the text goes; further digits are dropped, all of them where the
// text ends at or before the place. Answers how many digits there are, dropped ones among them.
pub fn decimal(text: &mut [u8], at: usize, n: u64) -> usize
    ensures { Lays (numeral n) most_digits at text.old result text.new }
{
    if n == 0 {
        return lay(text, at, b"0");
    }
    let mut tail = [0u8; MOST_DIGITS];
    let from = digits(n, &mut tail);
    lay_each(text, at, &tail[from..])
}

// The decimal numeral of t thousandths, with all three places, from the place `at` on, as far as the text goes; further bytes are dropped,
// all of them where the text ends at or before the place. Answers how many bytes there are, dropped ones among them.
pub fn thousandths(text: &mut [u8], at: usize, t: u64) -> usize
    ensures { Lays (decimal_numeral t) most_decimal at text.old result text.new }
{
    let whole = decimal(text, at, t / THOUSAND);
    lay_one(text, at, whole, POINT);
    lay_one(text, at, whole + 1, last_digit(t / 100));
    lay_one(text, at, whole + 2, last_digit(t / 10));
    lay_one(text, at, whole + 3, last_digit(t));
    whole + 4
}
