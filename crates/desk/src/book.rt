// The coefficient book: its rows and their techniques.
ghost use Rattle.std.specs.Prelude.{◌≡◌, true, ◌<◌, ◌≤◌, ◌*◌, length};
ghost use Rattle.little.specs.Read.{Reads};
ghost use Rattle.headers.specs.Book.{technique_count, book_header_ok, technique_block};
ghost use Rattle.desk.specs.Book.{row_start, rises, row_ok, rows_ok, book_ok};
ghost use Rattle.desk.specs.Inner.{counted, farthest, row_fits};
ghost use Rattle.desk.specs.InnerRun.{runs_apart, Runs, Block};

use super::inside::u16_in;
use super::row_bytes::RowBytes;
use super::run::{RUNS_APART, Techniques, fill_runs, list_ok};
use headers::book::{
    MOST_TECHNIQUES, ROW_SIZE, book_header_ok, row_count, row_offset, technique_block,
    technique_count,
};

// Units per kilogram, at most.
pub const MOST_COEFFICIENT: usize = 100_000_000;

pub(crate) fn row_start(b: &[u8], i: usize) -> usize
    requires { i < counted }
    ensures { Reads result (row_start b.now i) farthest }
{
    row_offset(b) + ROW_SIZE * i
}

// A row by itself.
#[tactic(auto, unfolding(crate::specs::Inner::row_fits, search::specs::Test::every))]
fn row_fits(row: RowBytes<'_>, techniques: Techniques<'_>) -> bool
    requires { techniques.size ≡ technique_count row.book.now }
    ensures { result ≡ row_fits row.entry.book.now techniques.entry.block.now row.entry.at }
{
    if row.fields_ok() {
        let first = u16_in(row.book, row.at, 20);
        let count = u16_in(row.book, row.at, 22);
        (row.coefficient() <= MOST_COEFFICIENT) & list_ok(techniques, first, count)
    } else {
        false
    }
}

// Whether this row, which is row i, has a key above that of the row before it, which is compared where it stands. The first has none
// before it.
fn row_rises(row: RowBytes<'_>, i: usize) -> bool
    requires { row.at ≡ row_start row.book.now i }
    ensures { result ≡ rises row.entry.book.now i }
{
    if i == 0 {
        return true;
    }
    let key = row.key();
    let before = RowBytes::of(row.book, row.at - ROW_SIZE);
    before.order(key, key.scale).is_lt()
}

// This row, which is row i.
fn row_ok(row: RowBytes<'_>, techniques: Techniques<'_>, i: usize) -> bool
    requires { (row.at ≡ row_start row.book.now i) × (techniques.size ≡ technique_count row.book.now) }
    ensures { result ≡ row_ok row.entry.book.now techniques.entry.block.now i }
{
    row_fits(row, techniques) && row_rises(row, i)
}

fn rows_ok(b: &[u8], runs: &[u16]) -> bool
    requires { (book_header_ok b.now ≡ true) × Runs (technique_block b.now) (technique_count b.now) runs.now }
    ensures { result ≡ rows_ok b.now }
{
    let techniques = Techniques {
        block: technique_block(b),
        size: technique_count(b),
        runs,
    };
    let from = row_offset(b);
    (0..row_count(b)).all(|i| row_ok(RowBytes::of(b, from + ROW_SIZE * i), techniques, i))
}

fn checked(b: &[u8], runs: &mut [u16]) -> bool
    requires { (book_header_ok b.now ≡ true) × (technique_count b.now ≤ runs_apart * length runs.old) }
    ensures { result ≡ rows_ok b.now }
{
    fill_runs(technique_block(b), technique_count(b), runs);
    rows_ok(b, runs)
}

// As many runs as the longest technique block has.
const KEPT_RUNS: usize = MOST_TECHNIQUES / RUNS_APART;

// Whether a book of any content and size is right. Rows are looked at only where the header is, so that no wrong count is walked; and
// where there are none no technique is looked at either, since no row names it.
pub fn book_ok(b: &[u8]) -> bool
    ensures { result ≡ book_ok b.now }
{
    if !book_header_ok(b) {
        return false;
    }
    if row_count(b) == 0 {
        return true;
    }
    let mut runs = [0u16; KEPT_RUNS];
    checked(b, &mut runs)
}
