// Little-endian numbers. A byte past the end counts as 0, so that nothing is asked of a caller.
ghost use Rattle.std.specs.Prelude.{◌<◌, length};
ghost use Rattle.little.specs.Read.{byte_range, u16_range, u32_range, byte_at, u16_at, u32_at, AreBytes, Reads};

// How many numbers a byte, two bytes and four bytes can be.
pub const BYTE_RANGE: usize = 256;

pub const U16_RANGE: usize = 65536;

pub const U32_RANGE: usize = 4_294_967_296;

// Does nothing, and says of a slice what is so of every slice of bytes: a proof knows it of a parameter, and not of one in a struct.
pub fn are_bytes(s: &[u8])
    ensures { AreBytes s.now }
{}

fn byte(s: &[u8], at: usize) -> usize
    requires { at < length s.now }
    ensures { Reads result (byte_at s.now at) byte_range }
{
    s[at] as usize
}

// The byte at `at`; 0 where the slice ends at or before it.
pub fn byte_at(s: &[u8], at: usize) -> usize
    ensures { Reads result (byte_at s.now at) byte_range }
{
    if at < s.len() { byte(s, at) } else { 0 }
}

// The two bytes from `at` on, the low one first; of those past the end each counts as 0.
// Where all bytes are there they are read together, by one test, here and below; one function over any number of bytes would test each.
#[tactic(auto, unfolding(crate::specs::Read::u16_at))]
pub fn u16_at(s: &[u8], at: usize) -> usize
    ensures { Reads result (u16_at s.now at) u16_range }
{
    if at < s.len() {
        if 2 <= s.len() - at {
            byte(s, at) + BYTE_RANGE * byte(s, at + 1)
        } else {
            byte(s, at)
        }
    } else {
        0
    }
}

// The four bytes from `at` on, the low ones first; of those past the end each counts as 0.
#[tactic(auto, unfolding(crate::specs::Read::u32_at, crate::specs::Read::u16_at))]
pub fn u32_at(s: &[u8], at: usize) -> usize
    ensures { Reads result (u32_at s.now at) u32_range }
{
    if at < s.len() {
        if 4 <= s.len() - at {
            let low = byte(s, at) + BYTE_RANGE * byte(s, at + 1);
            let high = byte(s, at + 2) + BYTE_RANGE * byte(s, at + 3);
            low + U16_RANGE * high
        } else {
            u16_at(s, at) + U16_RANGE * u16_at(s, at + 2)
        }
    } else {
        0
    }
}
