// A text read into a binary sheet.
ghost use Rattle.text.specs.Convert.{Converts};
ghost use Rattle.text.specs.Read.{sheet_of_text};
ghost use Rattle.text.specs.Inner.{LinesFound, SheetFound};

use super::convert::{finished, refused};
use super::field::{A_READING, HEADER_FIELDS, LINE_FIELDS, NEEDED_FIELDS, read_record};
use super::words::{lay_header, lay_line};
use answers::answer::{FileFault, Refusal};
use headers::house::MOST_BYTES;
use headers::sheet::{HEADER_SIZE, LINE_SIZE, MOST_LINES};

// The bytes of a sheet that is read from a text, at most.
pub const MOST_SHEET: usize = HEADER_SIZE + LINE_SIZE * MOST_LINES;

// The largest numbers that the fields take: a u16, a u64, and what a right sheet has of the others.
const A_CODE: u64 = u16::MAX as u64;

const AN_AMOUNT: u64 = u64::MAX;

const A_MEDIUM: u64 = 3;

const A_POLLUTANT: u64 = u8::MAX as u64;

const A_UNIT: u64 = 3;

const A_KIND: u64 = 3;

const A_GRADE: u64 = u8::MAX as u64;

// The records from `at` on, each laid as a line of the sheet; further bytes are dropped where the sheet ends. How many lines there are, if
// the text is well formed.
fn lay_lines(text: &[u8], at: usize, sheet: &mut [u8]) -> Option<usize>
    ensures { LinesFound text.now at sheet.old result sheet.new }
{
    let takes = [
        A_CODE, A_CODE, A_CODE, A_CODE, A_CODE, A_CODE, A_CODE, A_KIND, AN_AMOUNT, AN_AMOUNT,
        A_READING, A_READING, A_READING, A_GRADE, A_GRADE, A_GRADE,
    ];
    let mut numbers = [0u64; LINE_FIELDS];
    let mut next = at;
    for line in 0..MOST_LINES {
        if text.len() <= next {
            return Some(line);
        }
        next = read_record(text, next, NEEDED_FIELDS, &takes, &mut numbers)?;
        lay_line(sheet, line, &numbers);
    }
    (text.len() <= next).then_some(MOST_LINES)
}

// The lines come first, since the header says how many there are.
fn lay_sheet(text: &[u8], sheet: &mut [u8]) -> Option<usize>
    ensures { SheetFound text.now sheet.old result sheet.new }
{
    if MOST_BYTES < text.len() {
        return None;
    }
    let takes = [A_MEDIUM, A_POLLUTANT, A_UNIT];
    let mut header = [0u64; HEADER_FIELDS];
    let at = read_record(text, 0, HEADER_FIELDS, &takes, &mut header)?;
    if header.contains(&0) {
        return None;
    }
    let lines = lay_lines(text, at, sheet)?;
    lay_header(sheet, &header, lines);
    Some(lines)
}

// The binary sheet of a text of any content and size, at the start of lent bytes of any size: how many bytes it has, and the bytes past it
// keep their values. Refused is a text that is malformed, or is a sheet that the desk refuses with 2 (12); then one that has no room (3).
// Every lent byte is then zero. `MOST_SHEET` bytes always have room.
pub fn sheet_from_text(text: &[u8], sheet: &mut [u8]) -> Result<usize, Refusal>
    ensures { Converts (sheet_of_text text.now) sheet.old result sheet.new }
{
    match lay_sheet(text, sheet) {
        Some(lines) => finished(sheet, HEADER_SIZE + LINE_SIZE * lines),
        None => refused(sheet, Refusal::File(FileFault::TextMalformed)),
    }
}
