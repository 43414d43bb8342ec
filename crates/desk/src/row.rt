// The row search: the row with a line's key, or else the one for all scales.
ghost use Rattle.std.specs.Prelude.{◌≡◌, ◌<◌};
ghost use Rattle.search.specs.First.{Finds, first};
ghost use Rattle.little.specs.Read.{Reads, u32_range};
ghost use Rattle.headers.specs.Book.{book_header, row_count};
ghost use Rattle.desk.specs.Inner.{counted, at_scale, Passed, ReadsRow};
ghost use Rattle.desk.specs.Row.{basis_of, row_has, row_index, row_at};

use super::book::row_start;
use super::inside::{byte_in, u16_in};
use super::key::{ALL_SCALES, Key};
use super::right::RightBook;
use super::row_bytes::RowBytes;
use headers::book::{ROW_SIZE, row_count, row_offset};
use search::halving::halved;
use std::cmp::Ordering;

// What a row's coefficient is multiplied with: kilograms of product or of material.
#[derive(Clone, Copy)]
pub enum Basis {
    Product,
    Material,
}

impl Basis {
    fn of(byte: usize) -> Self
        ensures { result ≡ basis_of byte }
    {
        if byte == 1 {
            Basis::Product
        } else {
            Basis::Material
        }
    }
}

// What a line is accounted for by: units per kilogram, and the list of techniques in the block.
#[derive(Clone, Copy)]
pub struct Row {
    pub coefficient: u64,
    pub basis: Basis,
    pub rule: usize,
    pub first: usize,
    pub techniques: usize,
}

// Halving brings the search so near to the key; then row after row is looked at.
const FEW_ROWS: usize = 8;

// How many rows, from the first on, are known not to have the key: rows rise.
fn rows_passed(book: RightBook<'_>, from: usize, rows: usize, k: Key, scale: usize) -> usize
    requires { Reads from (book_header book.bytes.now).row_offset u32_range × Reads rows (row_count book.bytes.now) counted }
    ensures { Passed book.entry.bytes.now (at_scale k scale) result }
{
    let b = book.bytes;
    halved(
        rows,
        FEW_ROWS,
        |i| RowBytes::of(b, from + ROW_SIZE * i).order(k, scale).is_lt(),
    )
    .start
}

// The scan ends at the key itself, or at the first larger one.
fn index_of(book: RightBook<'_>, k: Key, scale: usize) -> Option<usize>
    ensures { Finds result (first (row_count book.entry.bytes.now) (row_has book.entry.bytes.now (at_scale k scale))) counted }
{
    let from = row_offset(book.bytes);
    let rows = row_count(book.bytes);
    for i in rows_passed(book, from, rows, k, scale)..rows {
        let row = RowBytes::of(book.bytes, from + ROW_SIZE * i);
        match row.order(k, scale) {
            Ordering::Less => {}
            Ordering::Equal => return Some(i),
            Ordering::Greater => return None,
        }
    }
    None
}

// The line's key is held once: for all scales another scale is compared in the place of its own. An `or_else` was tried: the check learns
// nothing of what a closure answers that holds a right book.
pub(crate) fn row_index(book: RightBook<'_>, k: Key) -> Option<usize>
    ensures { Finds result (row_index book.entry.bytes.now k) counted }
{
    if let Some(i) = index_of(book, k, k.scale) {
        return Some(i);
    }
    index_of(book, k, ALL_SCALES)
}

#[tactic(auto, unfolding(crate::specs::Row::row_at))]
pub(crate) fn row_at(book: RightBook<'_>, i: usize) -> Row
    requires { i < row_count book.bytes.now }
    ensures { ReadsRow result (row_at book.entry.bytes.now i) }
{
    let at = row_start(book.bytes, i);
    let row = RowBytes::of(book.bytes, at);
    Row {
        coefficient: row.coefficient() as u64,
        basis: Basis::of(byte_in(book.bytes, at, 12)),
        rule: byte_in(book.bytes, at, 15),
        first: u16_in(book.bytes, at, 20),
        techniques: u16_in(book.bytes, at, 22),
    }
}
