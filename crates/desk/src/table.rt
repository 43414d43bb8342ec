// The exact table: a row of cells for each line, and a last row of sums.
ghost use Rattle.std.specs.Prelude.{◌≡◌, ◌<◌, ◌≤◌, length, Err, IfOk, MatchResult};
ghost use Rattle.headers.specs.Sheet.{line_count};
ghost use Rattle.desk.specs.Lent.{contents, lent};
ghost use Rattle.desk.specs.Account.{line_outcome};
ghost use Rattle.desk.specs.Cells.{table_size};
ghost use Rattle.desk.specs.Table.{room_for, by_sheet, by_sources, ExactTable};
ghost use Rattle.desk.specs.Inner.{counted, right_lent, Told, OfSources, FilesTold, Filled};

use super::account::line_outcome;
use super::cells::{COLUMNS, put_row};
use super::lent::Sources;
use super::right::{RightBook, RightFiles, RightSheet, RightSources, RightTable};
use super::tally::Tally;
use answers::answer::{FileFault, Refusal};
use headers::sheet::MOST_LINES;
use little::cells::clear;

// Cells that are enough for every sheet.
pub const MOST_CELLS: usize = COLUMNS * (MOST_LINES + 1);

// Rule 3.
fn room_for(lines: usize, room: usize) -> Result<(), Refusal>
    requires { lines < counted }
    ensures { result ≡ room_for lines room }
{
    if room < COLUMNS * (lines + 1) {
        return Err(Refusal::File(FileFault::ResultTooShort));
    }
    Ok(())
}

// Rules 1 and 13. Rule 1 is for either book, the works' own first.
pub(crate) fn right_sources(sources: Sources<'_>) -> Result<RightSources<'_>, Refusal>
    ensures { Told (contents sources.entry) result }
{
    let own = RightBook::of(sources.own).ok_or(Refusal::File(FileFault::OwnBookMalformed))?;
    let book = RightBook::of(sources.book).ok_or(Refusal::File(FileFault::BookMalformed))?;
    let fugitive = RightTable::of(sources.fugitive).ok_or(Refusal::File(
        FileFault::FugitiveMalformed,
    ))?;
    Ok(RightSources {
        own,
        book,
        fugitive,
    })
}

// What is wrong with books and a fugitive table of any content and size.
pub fn by_sources(sources: Sources<'_>) -> Result<(), Refusal>
    ensures { result ≡ by_sources (contents sources.entry) }
{
    right_sources(sources)?;
    Ok(())
}

// Rules 2 and 3, for results of which the shortest has this room.
fn right_sheet(s: &[u8], room: usize) -> Result<RightSheet<'_>, Refusal>
    ensures { MatchResult result
        (λ sheet. (sheet.bytes.now ≡ s.now) × (table_size (line_count s.now) ≤ room))
        (λ refusal. by_sheet s.now room ≡ Err refusal) }
{
    let sheet = RightSheet::of(s).ok_or(Refusal::File(FileFault::SheetMalformed))?;
    room_for(sheet.lines(), room)?;
    Ok(sheet)
}

// Rules 1, 13, 2 and 3, for sources that were looked at, whatever they are.
pub(crate) fn right_files<'a>(
    told: Result<RightSources<'a>, Refusal>,
    s: &'a [u8],
    room: usize,
) -> Result<RightFiles<'a>, Refusal>
    ensures told { OfSources told.entry (λ from. FilesTold (lent from s.now) room result) }
    ensures fits { IfOk result (λ files. table_size (line_count files.sheet.bytes.now) ≤ room) }
{
    let sources = told?;
    let sheet = right_sheet(s, room)?;
    Ok(RightFiles { sources, sheet })
}

// The lines from 1 up, and the row of sums; or zeros and the first refusal.
pub(crate) fn fill(files: RightFiles<'_>, exact: &mut [u64]) -> Result<(), Refusal>
    requires { table_size (line_count files.sheet.bytes.now) ≤ length exact.old }
    ensures { Filled (line_count files.entry.sheet.bytes.now) (line_outcome (right_lent files.entry))
        exact.old result exact.new }
{
    let lines = files.sheet.lines();
    let mut tally = Tally::start();
    for i in 0..lines {
        match line_outcome(files, i) {
            Ok(row) => {
                put_row(exact, i, row);
                tally = tally.add(row);
            }
            Err(fault) => {
                clear(exact);
                return Err(Refusal::Line(fault, (i + 1) as u16));
            }
        }
    }
    put_row(exact, lines, tally.sums);
    Ok(())
}

// The exact table alone, for books, a fugitive table and a sheet of any content and a result of any size. On refusal every cell is zero;
// on acceptance the cells past the table keep their values.
pub fn exact_table(sources: Sources<'_>, sheet: &[u8], exact: &mut [u64]) -> Result<(), Refusal>
    ensures { ExactTable (lent (contents sources.entry) sheet.now)
        exact.old result exact.new }
{
    match right_files(right_sources(sources), sheet, exact.len()) {
        Ok(files) => fill(files, exact),
        Err(refusal) => {
            clear(exact);
            Err(refusal)
        }
    }
}
