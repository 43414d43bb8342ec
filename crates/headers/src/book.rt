// The header of the coefficient book.
ghost use Rattle.std.specs.Prelude.{◌≡◌};
ghost use Rattle.little.specs.Read.{Reads, u16_range, u32_range};
ghost use Rattle.headers.specs.Book.{book_header, row_count, technique_count, book_header_ok, technique_block};

use super::house::file_ok;
use little::part::part;
use little::read::{u16_at, u32_at};

pub const HEADER_SIZE: usize = 16;

pub const ROW_SIZE: usize = 24;

pub const TECHNIQUE_SIZE: usize = 4;

// A book without rows and techniques is its header alone.
pub const NO_ROWS: [u8; HEADER_SIZE] = [16, 0, 0, 0, 0, 0, 0, 0, 16, 0, 0, 0, 16, 0, 0, 0];

pub const MOST_ROWS: usize = 1024;

pub const MOST_TECHNIQUES: usize = 4096;

// The rows that the header states; 0 for a book that has no header.
pub fn row_count(b: &[u8]) -> usize
    ensures { Reads result (row_count b.now) u16_range }
{
    u16_at(b, 4)
}

// The techniques of the block, likewise.
pub fn technique_count(b: &[u8]) -> usize
    ensures { Reads result (technique_count b.now) u16_range }
{
    u16_at(b, 6)
}

// Where the rows start; 0 for a book that has no header.
pub fn row_offset(b: &[u8]) -> usize
    ensures { Reads result (book_header b.now).row_offset u32_range }
{
    u32_at(b, 8)
}

fn technique_offset(b: &[u8]) -> usize
    ensures { Reads result (book_header b.now).technique_offset u32_range }
{
    u32_at(b, 12)
}

// Whether a book of any content and size has a header that fits.
#[tactic(auto, unfolding(crate::specs::Book::book_header_ok, search::specs::Test::every))]
pub fn book_header_ok(b: &[u8]) -> bool
    ensures { result ≡ book_header_ok b.now }
{
    let length = u32_at(b, 0);
    let rows = row_count(b);
    let techniques = technique_count(b);
    let rows_from = row_offset(b);
    let techniques_from = technique_offset(b);
    let fits = (rows <= MOST_ROWS)
        & (techniques <= MOST_TECHNIQUES)
        & (HEADER_SIZE <= rows_from)
        & (rows_from + ROW_SIZE * rows <= techniques_from)
        & (techniques_from + TECHNIQUE_SIZE * techniques <= length);
    file_ok(b, 0, HEADER_SIZE) & fits
}

// The technique block is a part of the book that begins at its offset; of a book that has not so many bytes, what is there of it.
#[tactic(auto, unfolding(crate::specs::Book::technique_block))]
pub fn technique_block(b: &[u8]) -> &[u8]
    ensures { result.now ≡ technique_block b.now }
{
    part(b, technique_offset(b), TECHNIQUE_SIZE * technique_count(b))
}
