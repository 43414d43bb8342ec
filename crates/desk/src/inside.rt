// Little-endian numbers of a file whose header is right: the bytes are there, so that nothing is tested. `field` counts from `at`, where
// a row, a line or the file starts. Each size is two of the smaller one, which says more than a loop over bytes.
ghost use Rattle.std.specs.Prelude.{◌≡◌, ◌<◌, ◌≤◌, ◌+◌, length};
ghost use Rattle.little.specs.Read.{byte_range, u16_range, u32_range, byte_at, u16_at, u32_at, u64_at, Reads};

use little::read::{BYTE_RANGE, U16_RANGE, U32_RANGE};

pub(crate) fn byte_in(s: &[u8], at: usize, field: usize) -> usize
    requires { at + field < length s.now }
    ensures { Reads result (byte_at s.now (at + field)) byte_range }
{
    s[at + field] as usize
}

#[tactic(auto, unfolding(little::specs::Read::u16_at))]
pub(crate) fn u16_in(s: &[u8], at: usize, field: usize) -> usize
    requires { at + field + 2 ≤ length s.now }
    ensures { Reads result (u16_at s.now (at + field)) u16_range }
{
    byte_in(s, at, field) + BYTE_RANGE * byte_in(s, at + field, 1)
}

#[tactic(auto, unfolding(little::specs::Read::u32_at))]
pub(crate) fn u32_in(s: &[u8], at: usize, field: usize) -> usize
    requires { at + field + 4 ≤ length s.now }
    ensures { Reads result (u32_at s.now (at + field)) u32_range }
{
    u16_in(s, at, field) + U16_RANGE * u16_in(s, at + field, 2)
}

#[tactic(auto, unfolding(little::specs::Read::u64_at))]
pub(crate) fn u64_in(s: &[u8], at: usize, field: usize) -> u64
    requires { at + field + 8 ≤ length s.now }
    ensures { result ≡ u64_at s.now (at + field) }
{
    (u32_in(s, at, field) + U32_RANGE * u32_in(s, at + field, 4)) as u64
}
