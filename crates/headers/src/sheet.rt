// The header of the sheet.
ghost use Rattle.std.specs.Prelude.{◌≡◌};
ghost use Rattle.little.specs.Read.{Reads, u16_range, u32_range};
ghost use Rattle.headers.specs.Sheet.{sheet_header, sheet_header_ok, line_count};

use super::house::file_ok;
use little::read::{byte_at, u16_at, u32_at};

pub const HEADER_SIZE: usize = 16;

pub const LINE_SIZE: usize = 64;

pub const MOST_LINES: usize = 128;

// The lines that the header of a sheet states; 0 for a sheet that has no header.
pub fn line_count(s: &[u8]) -> usize
    ensures { Reads result (line_count s.now) u16_range }
{
    u16_at(s, 4)
}

// Where the lines start; 0 for a sheet that has no header.
pub fn line_offset(s: &[u8]) -> usize
    ensures { Reads result (sheet_header s.now).line_offset u32_range }
{
    u32_at(s, 8)
}

// Whether a sheet of any content and size has a header that fits.
#[tactic(auto, unfolding(crate::specs::Sheet::sheet_header_ok, search::specs::Test::every))]
pub fn sheet_header_ok(s: &[u8]) -> bool
    ensures { result ≡ sheet_header_ok s.now }
{
    let length = u32_at(s, 0);
    let lines = line_count(s);
    let medium = byte_at(s, 6);
    let pollutant = byte_at(s, 7);
    let offset = line_offset(s);
    let unit = u32_at(s, 12);
    let fits = (lines <= MOST_LINES)
        & (1 <= medium)
        & (medium <= 3)
        & (pollutant != 0)
        & (HEADER_SIZE <= offset)
        & (offset + LINE_SIZE * lines <= length)
        & (1 <= unit)
        & (unit <= 3);
    file_ok(s, 0, HEADER_SIZE) & fits
}
