// The words of a binary sheet.
ghost use Rattle.std.specs.Prelude.{◌≡◌, ◌≤◌, ◌<◌, length};
ghost use Rattle.headers.specs.House.{most_bytes};
ghost use Rattle.headers.specs.Sheet.{most_lines};
ghost use Rattle.numerals.specs.Laid.{laid, Puts};
ghost use Rattle.text.specs.Binary.{used_readings, reading_bits, words_of, line_bytes, header_sizes, header_words, sheet_size};
ghost use Rattle.text.specs.Typed.{line_width, reading_fields};
ghost use Rattle.text.specs.Inner.{code_bytes, amount_bytes, reading_bytes, grade_bytes};

use super::field::{
    FIRST_GRADE, FIRST_READING, HEADER_FIELDS, KIND, LINE_FIELDS, READINGS, TECHNIQUE,
};
use amounts::reading::bits_of_parts;
use headers::sheet::{HEADER_SIZE, LINE_SIZE};
use numerals::word::lay_word;

// How many of a, b, c are used. A record is its numbers, the kind among them, since the laws of what is read and written speak of these.
#[tactic(auto, unfolding(crate::specs::Binary::used_readings))]
fn used_readings(technique: u64, kind: u64) -> usize
    ensures { result ≡ used_readings technique kind }
{
    if technique == 0 {
        return 0;
    }
    match kind {
        1 => 2,
        2 => 3,
        _ => 0,
    }
}

// Reading r of a, b, c; one that is not used is zero, whatever was typed.
fn reading_bits(numbers: &[u64; LINE_FIELDS], r: usize) -> u64
    requires { r < reading_fields }
    ensures { result ≡ reading_bits numbers.now r }
{
    if r < used_readings(numbers[TECHNIQUE], numbers[KIND]) {
        bits_of_parts(numbers[FIRST_READING + r])
    } else {
        0
    }
}

// Industry, product, material, process, scale, technique and reuse.
fn lay_codes(sheet: &mut [u8], at: usize, numbers: &[u64; LINE_FIELDS]) -> usize
    requires { at < most_bytes }
    ensures { Puts (code_bytes numbers.now) 14 at sheet.old result sheet.new }
{
    let mut next = at;
    for code in &numbers[..KIND] {
        next += lay_word::<2>(sheet, next, *code);
    }
    next
}

// The kind, a zero byte, product and material.
fn lay_amounts(sheet: &mut [u8], at: usize, numbers: &[u64; LINE_FIELDS]) -> usize
    requires { at < most_bytes }
    ensures { Puts (amount_bytes numbers.now) 18 at sheet.old result sheet.new }
{
    let mut next = at;
    next += lay_word::<1>(sheet, next, numbers[KIND]);
    next += lay_word::<1>(sheet, next, 0);
    next += lay_word::<8>(sheet, next, numbers[8]);
    next += lay_word::<8>(sheet, next, numbers[9]);
    next
}

// a, b, c.
fn lay_readings(sheet: &mut [u8], at: usize, numbers: &[u64; LINE_FIELDS]) -> usize
    requires { at < most_bytes }
    ensures { Puts (reading_bytes numbers.now) 24 at sheet.old result sheet.new }
{
    let mut next = at;
    for r in 0..READINGS {
        next += lay_word::<8>(sheet, next, reading_bits(numbers, r));
    }
    next
}

// The grades and five zero bytes.
fn lay_grades(sheet: &mut [u8], at: usize, numbers: &[u64; LINE_FIELDS]) -> usize
    requires { at < most_bytes }
    ensures { Puts (grade_bytes numbers.now) 8 at sheet.old result sheet.new }
{
    let mut next = at;
    next += lay_word::<1>(sheet, next, numbers[FIRST_GRADE]);
    next += lay_word::<1>(sheet, next, numbers[FIRST_GRADE + 1]);
    next += lay_word::<1>(sheet, next, numbers[FIRST_GRADE + 2]);
    next += lay_word::<1>(sheet, next, 0);
    next += lay_word::<4>(sheet, next, 0);
    next
}

// Line i, counted from 0.
pub(crate) fn lay_line(sheet: &mut [u8], i: usize, numbers: &[u64; LINE_FIELDS])
    requires { i < most_lines }
    ensures { sheet.new ≡ laid (sheet_size i) (line_bytes numbers.now) sheet.old }
{
    let at = HEADER_SIZE + LINE_SIZE * i;
    let amounts = lay_codes(sheet, at, numbers);
    let readings = lay_amounts(sheet, amounts, numbers);
    let grades = lay_readings(sheet, readings, numbers);
    lay_grades(sheet, grades, numbers);
}

// The header of a sheet of so many lines.
pub(crate) fn lay_header(sheet: &mut [u8], header: &[u64; HEADER_FIELDS], lines: usize)
    requires { lines ≤ most_lines }
    ensures { sheet.new ≡ laid 0 (words_of header_sizes (header_words header.now lines)) sheet.old }
{
    let size = HEADER_SIZE + LINE_SIZE * lines;
    let mut at = 0;
    at += lay_word::<4>(sheet, at, size as u64);
    at += lay_word::<2>(sheet, at, lines as u64);
    at += lay_word::<1>(sheet, at, header[0]);
    at += lay_word::<1>(sheet, at, header[1]);
    at += lay_word::<4>(sheet, at, HEADER_SIZE as u64);
    lay_word::<4>(sheet, at, header[2]);
}
