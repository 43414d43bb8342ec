// A number as a little-endian word.
ghost use Rattle.std.specs.Prelude.{min};
ghost use Rattle.numerals.specs.Laid.{Lays};
ghost use Rattle.numerals.specs.Word.{word};

use super::bytes::lay;

// The bytes of a 64-bit number.
const MOST_SIZE: usize = 8;

// The number as a word of N bytes, the low one first, from the place `at` on, as far as the lent bytes go; of more than eight, as one of
// eight. What the word has no room for is dropped, and so is what the lent bytes have none for. Answers how many bytes there are, dropped
// ones among them.
pub fn lay_word<const N: usize>(bytes: &mut [u8], at: usize, n: u64) -> usize
    ensures { Lays (word (min N 8) n) (min N 8) at bytes.old result bytes.new }
{
    lay(bytes, at, &n.to_le_bytes()[..N.min(MOST_SIZE)])
}
