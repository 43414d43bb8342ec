// The entries of a bundle: where each sheet lies.
ghost use Rattle.std.specs.Prelude.{◌≡◌, ◌<◌};
ghost use Rattle.little.specs.Read.{Reads, u32_range};
ghost use Rattle.bundle.specs.Bundle.{sheet_offset, sheet_length, sheet_end, sheet_of};
ghost use Rattle.bundle.specs.Inner.{counted, farthest};

use super::header::{ENTRY_SIZE, HEADER_SIZE, sheet_count};
use little::part::part;
use little::read::u32_at;

pub(crate) fn sheet_offset(b: &[u8], i: usize) -> usize
    requires { i < counted }
    ensures { Reads result (sheet_offset b.now i) u32_range }
{
    u32_at(b, HEADER_SIZE + ENTRY_SIZE * i)
}

fn sheet_length(b: &[u8], i: usize) -> usize
    requires { i < counted }
    ensures { Reads result (sheet_length b.now i) u32_range }
{
    u32_at(b, HEADER_SIZE + ENTRY_SIZE * i + 4)
}

// Both are u32, so that the sum is below 2 ^ 33.
pub(crate) fn sheet_end(b: &[u8], i: usize) -> usize
    requires { i < counted }
    ensures { Reads result (sheet_end b.now i) farthest }
{
    sheet_offset(b, i) + sheet_length(b, i)
}

// The bytes of sheet i, counted from 0: a part of the bundle, or as many of its bytes as there are. Past the last sheet, none.
#[tactic(auto, unfolding(crate::specs::Bundle::sheet_of))]
pub fn sheet_of(b: &[u8], i: usize) -> &[u8]
    ensures { result.now ≡ sheet_of b.now i }
{
    if i < sheet_count(b) {
        part(b, sheet_offset(b, i), sheet_length(b, i))
    } else {
        &b[..0]
    }
}
