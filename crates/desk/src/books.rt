// The search in two books: the works' own is asked first, for the exact scale and then for scale 0, and then the published one.
ghost use Rattle.std.specs.Prelude.{◌≡◌, ◌<◌};
ghost use Rattle.search.specs.First.{Finds};
ghost use Rattle.desk.specs.Row.{row_index};
ghost use Rattle.desk.specs.Books.{bytes_of_row, fields_hold, row_bytes, row_number, row_place};
ghost use Rattle.desk.specs.Inner.{counted, FindsPlace, asked_place};

use super::book::row_start;
use super::key::Key;
use super::right::RightBook;
use super::row::row_index;
use headers::book::{MOST_ROWS, ROW_SIZE, row_count};
use little::part::part;
use little::read::{BYTE_RANGE, U16_RANGE};

// Where the row of a key is: in which book, and which row of it, counted from 0.
#[derive(Clone, Copy)]
pub enum RowPlace {
    InOwn(usize),
    InPublished(usize),
}

// Most works have no row of their own, and then their book is not searched for every line.
fn own_index(own: RightBook<'_>, k: Key) -> Option<usize>
    ensures { Finds result (row_index own.entry.bytes.now k) counted }
{
    if row_count(own.bytes) == 0 {
        return None;
    }
    row_index(own, k)
}

#[tactic(auto, unfolding(crate::specs::Books::row_place))]
pub(crate) fn row_place(own: RightBook<'_>, book: RightBook<'_>, k: Key) -> Option<RowPlace>
    ensures { FindsPlace result (row_place own.entry.bytes.now book.entry.bytes.now k) }
{
    if let Some(i) = own_index(own, k) {
        return Some(RowPlace::InOwn(i));
    }
    let i = row_index(book, k)?;
    Some(RowPlace::InPublished(i))
}

// Else scale 65,536, which no row has, would find the row for all scales.
#[tactic(auto, unfolding(crate::specs::Books::fields_hold, search::specs::Test::every))]
fn fields_hold(k: Key) -> bool
    ensures { result ≡ fields_hold k }
{
    (k.industry < U16_RANGE)
        & (k.product < U16_RANGE)
        & (k.material < U16_RANGE)
        & (k.process < U16_RANGE)
        & (k.scale < U16_RANGE)
        & (k.medium < BYTE_RANGE)
        & (k.pollutant < BYTE_RANGE)
}

// Where the row of a key of any numbers is, in books of any content and size.
fn asked_place(own: &[u8], book: &[u8], k: Key) -> Option<RowPlace>
    ensures { FindsPlace result (asked_place own.now book.now k) }
{
    if !fields_hold(k) {
        return None;
    }
    row_place(RightBook::of(own)?, RightBook::of(book)?, k)
}

fn bytes_of_row(b: &[u8], i: usize) -> &[u8]
    requires { i < counted }
    ensures { result.now ≡ bytes_of_row b.now i }
{
    part(b, row_start(b, i), ROW_SIZE)
}

// The bytes of the row that answers for a key, as a part of the book that has it, for books of any content and size. The part is empty
// where neither has it, one is not right, or a number of the key is one that no field can hold.
#[tactic(auto, unfolding(crate::specs::Books::row_bytes))]
pub fn row_bytes<'a>(own: &'a [u8], book: &'a [u8], k: Key) -> &'a [u8]
    ensures { result.now ≡ row_bytes own.now book.now k }
{
    match asked_place(own, book, k) {
        Some(RowPlace::InOwn(i)) => bytes_of_row(own, i),
        Some(RowPlace::InPublished(i)) => bytes_of_row(book, i),
        None => &own[..0],
    }
}

// Which row that is, of the same two slices: one of the own book counts from 1, one of the published book from as many further on as a book
// has rows at most; 0 where there is none.
#[tactic(auto, unfolding(crate::specs::Books::row_number))]
pub fn row_number(own: &[u8], book: &[u8], k: Key) -> usize
    ensures { result ≡ row_number own.now book.now k }
{
    match asked_place(own, book, k) {
        Some(RowPlace::InOwn(i)) => i + 1,
        Some(RowPlace::InPublished(i)) => MOST_ROWS + (i + 1),
        None => 0,
    }
}
