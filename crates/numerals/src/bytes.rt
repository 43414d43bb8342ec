// Bytes laid into lent ones at a place. The place stays a number beside the lent bytes: it may be any, also one past their end.
ghost use Rattle.std.specs.Prelude.{◌≡◌, ◌+◌, ◌≤◌, [], ◌∷◌, length};
ghost use Rattle.numerals.specs.Laid.{laid, Lays};

// No sum is made that could wrap, wherever the place is.
pub(crate) fn lay_one(text: &mut [u8], at: usize, i: usize, byte: u8)
    ensures { text.new ≡ laid (at + i) (byte ∷ []) text.old }
{
    if at < text.len() {
        if i < text.len() - at {
            text[at + i] = byte;
        }
    }
}

// Byte by byte: `copy_from_slice` is a call of `memmove`, which whoever links the library would have to bring.
fn lay_all(text: &mut [u8], at: usize, bytes: &[u8])
    requires { at + length bytes.now ≤ length text.old }
    ensures { text.new ≡ laid at bytes.now text.old }
{
    for (i, byte) in bytes.iter().enumerate() {
        text[at + i] = *byte;
    }
}

// The same as `lay`, with a test for each byte: of a few bytes, whose number is not known when this is compiled, it is the faster way.
pub(crate) fn lay_each(text: &mut [u8], at: usize, bytes: &[u8]) -> usize
    ensures { Lays bytes.now (length bytes.now) at text.old result text.new }
{
    for (i, byte) in bytes.iter().enumerate() {
        lay_one(text, at, i, *byte);
    }
    bytes.len()
}

// The bytes, one after the other from the place `at` on, as far as the text goes; further bytes are dropped, all of them where the text
// ends at or before the place. Answers how many bytes there are, dropped ones among them. Where all have room this is tested once.
pub fn lay(text: &mut [u8], at: usize, bytes: &[u8]) -> usize
    ensures { Lays bytes.now (length bytes.now) at text.old result text.new }
{
    if at <= text.len() {
        if bytes.len() <= text.len() - at {
            lay_all(text, at, bytes);
            return bytes.len();
        }
    }
    lay_each(text, at, bytes)
}
