// The header of a bundle.
ghost use Rattle.std.specs.Prelude.{◌≡◌};
ghost use Rattle.little.specs.Read.{Reads, u16_range, u32_range};
ghost use Rattle.bundle.specs.Bundle.{bundle_header_ok, cells_per_sheet, sheet_count};

use headers::house::file_ok;
use little::read::{u16_at, u32_at};

pub const HEADER_SIZE: usize = 12;

pub const ENTRY_SIZE: usize = 8;

pub const MOST_SHEETS: usize = 16;

// The sheets that the header states; 0 for a bundle that has no header.
pub fn sheet_count(b: &[u8]) -> usize
    ensures { Reads result (sheet_count b.now) u16_range }
{
    u16_at(b, 4)
}

// The cells of each result that one sheet owns; 0 for a bundle that has no header.
pub fn cells_per_sheet(b: &[u8]) -> usize
    ensures { Reads result (cells_per_sheet b.now) u32_range }
{
    u32_at(b, 8)
}

// Whether a bundle of any content and size has a header that fits, and its entries.
#[tactic(auto, unfolding(crate::specs::Bundle::bundle_header_ok, search::specs::Test::every))]
pub(crate) fn bundle_header_ok(b: &[u8]) -> bool
    ensures { result ≡ bundle_header_ok b.now }
{
    let length = u32_at(b, 0);
    let sheets = sheet_count(b);
    let zero = u16_at(b, 6);
    let fits = (sheets <= MOST_SHEETS)
        & (zero == 0)
        & (HEADER_SIZE + ENTRY_SIZE * sheets <= length);
    file_ok(b, 0, HEADER_SIZE) & fits
}
