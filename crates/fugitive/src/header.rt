// The header of the fugitive table.
ghost use Rattle.std.specs.Prelude.{◌≡◌};
ghost use Rattle.little.specs.Read.{Reads, u16_range, u32_range};
ghost use Rattle.fugitive.specs.Table.{fugitive_header, entry_count, fugitive_header_ok};

use headers::house::file_ok;
use little::read::{u16_at, u32_at};

pub const HEADER_SIZE: usize = 12;

pub const ENTRY_SIZE: usize = 28;

pub const MOST_ENTRIES: usize = 1024;

// The entries that the header states; 0 for a table that has no header.
pub fn entry_count(f: &[u8]) -> usize
    ensures { Reads result (entry_count f.now) u16_range }
{
    u16_at(f, 4)
}

// Where the entries start; 0 for a table that has no header.
pub fn entry_offset(f: &[u8]) -> usize
    ensures { Reads result (fugitive_header f.now).offset u32_range }
{
    u32_at(f, 8)
}

// Whether a table of any content and size has a header that fits.
#[tactic(auto, unfolding(crate::specs::Table::fugitive_header_ok, search::specs::Test::every))]
pub fn fugitive_header_ok(f: &[u8]) -> bool
    ensures { result ≡ fugitive_header_ok f.now }
{
    let length = u32_at(f, 0);
    let entries = entry_count(f);
    let zero = u16_at(f, 6);
    let offset = entry_offset(f);
    let fits = (entries <= MOST_ENTRIES)
        & (zero == 0)
        & (HEADER_SIZE <= offset)
        & (offset + ENTRY_SIZE * entries <= length);
    file_ok(f, 0, HEADER_SIZE) & fits
}
