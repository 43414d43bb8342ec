// The report of a sheet, binary or typed, and of a bundle, as a text: the figures, or the refusal, byte for byte; and the bytes of a book's
// row for the inspector's screen. It relies on the desk only through its promises.
#![tactic(auto)]

mod rows;
mod sheets;
mod told;
mod writer;

ghost use Rattle.desk.specs.Lent.{contents, lent};
ghost use Rattle.report.specs.Report.{Reported};
ghost use Rattle.report.specs.Bundle.{ReportedBundle};
ghost use Rattle.report.specs.Typed.{ReportedText, ReportedRefusal};
ghost use Rattle.report.specs.Row.{ReportedRow};

use answers::answer::Refusal;
use bundle::header::MOST_SHEETS;
use desk::books::row_bytes;
use desk::key::Key;
use desk::lent::Sources;
use headers::sheet::MOST_LINES;
use rows::MOST_ROW;
use writer::{MOST_NUMBER, Writer};

// The bytes of the unit's line, at most: the word, the number and the line end.
const MOST_UNIT: usize = 4 + MOST_NUMBER + 1;

// The bytes of a report, at most: two tables of all rows, and the unit's line.
pub const MOST_TEXT: usize = 2 * (MOST_ROW * (MOST_LINES + 1)) + MOST_UNIT;

// The bytes of a bundle's report, at most: for each sheet its line, of a word, a number and the line end, and its report.
pub const MOST_BUNDLE_TEXT: usize = MOST_SHEETS * (5 + MOST_NUMBER + 1 + MOST_TEXT);

// The lent text has no room for all of the report.
#[derive(Clone, Copy, Debug, PartialEq, Eq)]
pub struct NoRoom;

// The report for books, a fugitive table and a sheet of any content, at the start of a text of any size. The bytes past the report keep
// their values. Where the text has no room for all of the report every byte of it is zero; one of `MOST_TEXT` bytes always has room.
pub fn report(sources: Sources<'_>, sheet: &[u8], text: &mut [u8]) -> Result<usize, NoRoom>
    ensures { Reported (lent (contents sources.entry) sheet.now)
        text.old result text.new }
{
    let mut writer = Writer::new(text);
    writer.told(sources, sheet);
    writer.finish()
}

// The report for books, a fugitive table and a bundle of any content, likewise; a text of `MOST_BUNDLE_TEXT` bytes always has room.
pub fn report_bundle(sources: Sources<'_>, bundle: &[u8], text: &mut [u8]) -> Result<usize, NoRoom>
    ensures { ReportedBundle (contents sources.entry) bundle.now
        text.old result text.new }
{
    let mut writer = Writer::new(text);
    writer.told_bundle(sources, bundle);
    writer.finish()
}

// The report for books, a fugitive table and a sheet that was typed, of any content, likewise; a text of `MOST_TEXT` bytes always has
// room.
pub fn report_text(sources: Sources<'_>, typed: &[u8], text: &mut [u8]) -> Result<usize, NoRoom>
    ensures { ReportedText (contents sources.entry) typed.now
        text.old result text.new }
{
    let mut writer = Writer::new(text);
    writer.told_text(sources, typed);
    writer.finish()
}

// A refusal alone, as a report has it, likewise; where nothing is refused its number and its line are 0.
pub fn report_refusal(answer: Result<(), Refusal>, text: &mut [u8]) -> Result<usize, NoRoom>
    ensures { ReportedRefusal answer text.old result text.new }
{
    let mut writer = Writer::new(text);
    writer.outcome(answer);
    writer.finish()
}

// The bytes of the row that answers for a key, from books of any content, likewise at the start of lent bytes of any size; none where no
// book has such a row. A row's size of bytes always has room.
pub fn report_row<'a>(
    own: &'a [u8],
    book: &'a [u8],
    k: Key,
    row: &mut [u8],
) -> Result<usize, NoRoom>
    ensures { ReportedRow own.now book.now k row.old result row.new }
{
    let mut writer = Writer::new(row);
    writer.put(row_bytes(own, book, k));
    writer.finish()
}
