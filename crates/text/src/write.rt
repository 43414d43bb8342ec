// A binary sheet written as a text.
ghost use Rattle.std.specs.Prelude.{◌≡◌, true, ◌+◌, ◌*◌, ◌≤◌, length};
ghost use Rattle.numerals.specs.Laid.{Lays, reach, Puts};
ghost use Rattle.numerals.specs.Numeral.{most_decimal};
ghost use Rattle.desk.specs.Sheet.{sheet_ok};
ghost use Rattle.text.specs.Convert.{Converts};
ghost use Rattle.text.specs.Typed.{header_fields, line_width};
ghost use Rattle.text.specs.Written.{most_record, record_text, text_of_sheet};
ghost use Rattle.text.specs.Inner.{field_text, separator_text, texts_from, LineWritten, LinesWritten};

use super::convert::{finished, refused};
use super::field::{FIRST_READING, HEADER_FIELDS, LINE_FIELDS};
use super::line::{kind_number, used_by};
use answers::answer::{FileFault, LineFault, Refusal};
use desk::line::{Line, sheet_line};
use desk::sheet::sheet_ok;
use headers::sheet::{MOST_LINES, line_count};
use little::read::{byte_at, u32_at};
use numerals::bytes::lay;
use numerals::number::{MOST_DECIMAL, decimal, thousandths};
use std::ops::Range;

// The bytes of a field and of what follows it, at most.
const MOST_FIELD: usize = MOST_DECIMAL + 2;

// The bytes of a written text, at most.
pub const MOST_SHEET_TEXT: usize = MOST_FIELD * HEADER_FIELDS
    + MOST_FIELD * LINE_FIELDS * MOST_LINES;

// With three places, or as a whole number.
fn lay_field(text: &mut [u8], at: usize, number: u64, places: bool) -> usize
    ensures { Lays (field_text number places) most_decimal at text.old result text.new }
{
    if places {
        thousandths(text, at, number)
    } else {
        decimal(text, at, number)
    }
}

fn lay_separator(text: &mut [u8], at: usize, last: bool) -> usize
    ensures { Lays (separator_text last) 2 at text.old result text.new }
{
    if last {
        lay(text, at, b"\r\n")
    } else {
        lay(text, at, b",")
    }
}

// The numbers of a record; those at these places of it have three decimal places.
fn lay_record(text: &mut [u8], at: usize, numbers: &[u64], with_places: Range<usize>) -> usize
    requires { at + most_record (length numbers.now) ≤ reach }
    ensures { Puts (record_text (texts_from with_places.start with_places.end 0 numbers.now))
        (most_record (length numbers.now)) at text.old result text.new }
{
    let mut next = at;
    for (j, number) in numbers.iter().enumerate() {
        next += lay_field(text, next, *number, with_places.contains(&j));
        next += lay_separator(text, next, j + 1 == numbers.len());
    }
    next
}

// Where the line's record ends in the text, if no used reading is bad or over its limit.
fn lay_line(text: &mut [u8], at: usize, line: Line) -> Option<usize>
    requires { at + most_record line_width ≤ reach }
    ensures { LineWritten line at text.old result text.new }
{
    let readings = used_by(line.technique, line.reading)?;
    let numbers = [
        line.key.industry as u64,
        line.key.product as u64,
        line.key.material as u64,
        line.key.process as u64,
        line.key.scale as u64,
        line.technique as u64,
        line.reuse as u64,
        kind_number(line.reading),
        line.product,
        line.material,
        readings.a,
        readings.b,
        readings.c,
        line.grades.crushing as u64,
        line.grades.tapping as u64,
        line.grades.spill as u64,
    ];
    let used = FIRST_READING..FIRST_READING + readings.used;
    Some(lay_record(text, at, &numbers, used))
}

// Where the last line's record ends; or the first line that has a bad reading. In a right sheet every line that is counted is there.
fn lay_lines(text: &mut [u8], at: usize, sheet: &[u8]) -> Result<usize, Refusal>
    requires { (sheet_ok sheet.now ≡ true) × (at ≤ most_record (length header_fields)) }
    ensures { LinesWritten sheet.now at text.old result text.new }
{
    let mut next = at;
    for i in 0..line_count(sheet) {
        let Some(line) = sheet_line(sheet, i) else {
            return Ok(next);
        };
        let bad = Refusal::Line(LineFault::BadReading, (i + 1) as u16);
        next = lay_line(text, next, line).ok_or(bad)?;
    }
    Ok(next)
}

fn text_from_right(sheet: &[u8], text: &mut [u8]) -> Result<usize, Refusal>
    requires { sheet_ok sheet.now ≡ true }
    ensures { Converts (text_of_sheet sheet.now) text.old result text.new }
{
    let header = [
        byte_at(sheet, 6) as u64,
        byte_at(sheet, 7) as u64,
        u32_at(sheet, 12) as u64,
    ];
    let at = lay_record(text, 0, &header, 0..0);
    match lay_lines(text, at, sheet) {
        Ok(end) => finished(text, end),
        Err(refusal) => refused(text, refusal),
    }
}

// The text of a sheet of any content and size, at the start of lent bytes of any size: how many bytes it has, and the bytes past it keep
// their values. Refused is a sheet that the desk refuses with 2; then the first line with a used reading that is bad or over its limit (9);
// then a text that has no room (3). Every lent byte is then zero. `MOST_SHEET_TEXT` bytes always have room.
pub fn text_from_sheet(sheet: &[u8], text: &mut [u8]) -> Result<usize, Refusal>
    ensures { Converts (text_of_sheet sheet.now) text.old result text.new }
{
    if sheet_ok(sheet) {
        text_from_right(sheet, text)
    } else {
        refused(text, Refusal::File(FileFault::SheetMalformed))
    }
}
