// The fields of a record, as numbers.
ghost use Rattle.std.specs.Prelude.{◌≡◌, ◌≤◌, length};
ghost use Rattle.text.specs.Typed.{field_number};
ghost use Rattle.text.specs.Inner.{field_ahead, field_read, Recordable, Ended, RecordFound};

use little::part::part;
use numerals::ahead::{Ahead, decimal_from, number_from};
use numerals::number::MOST_DIGITS;
use numerals::typed::{decimal_in, number_in};
use records::field::{Behind, content, field_end, field_ends, what_follows};

// The fields of a line's record, and how many of these are needed; of the others those that are left off count as 0.
pub(crate) const LINE_FIELDS: usize = 16;

pub(crate) const NEEDED_FIELDS: usize = 13;

// Of these the technique, the kind, the first reading and the first grade, counted from 0.
pub(crate) const TECHNIQUE: usize = 5;

pub(crate) const KIND: usize = 7;

pub(crate) const FIRST_READING: usize = 10;

pub(crate) const FIRST_GRADE: usize = 13;

// How many readings there are: a, b, c.
pub(crate) const READINGS: usize = FIRST_GRADE - FIRST_READING;

// The fields of the header's record.
pub(crate) const HEADER_FIELDS: usize = 3;

// What stands for a reading in a list of the largest numbers that fields take. It is no enum, since what a text means (`line_fields`,
// `field_number`) and the laws about left off fields (`left_off_zero`) are over such lists of numbers.
pub(crate) const A_READING: u64 = 0;

// A field's number, and where what follows it begins: more of its record, or, behind its last field, the next one.
#[derive(Clone, Copy)]
struct FieldRead {
    number: u64,
    follows: Behind,
}

fn field_number(field: &[u8], takes: u64) -> Option<u64>
    ensures { result ≡ field_number takes field.now }
{
    let typed = content(field);
    if takes == A_READING {
        decimal_in(typed)
    } else {
        number_in(typed, MOST_DIGITS, takes)
    }
}

// The field that begins at `at`, with quotes or without; none where it holds no number.
#[cold]
fn any_field(text: &[u8], at: usize, takes: u64) -> Option<FieldRead>
    ensures { result ≡ field_read text.now at takes }
{
    let end = field_end(text, at);
    let number = field_number(part(text, at, end - at), takes)?;
    Some(FieldRead {
        number,
        follows: what_follows(text, end),
    })
}

// What is asked for, if it stands there, whatever follows it.
fn number_ahead(text: &[u8], at: usize, takes: u64) -> Option<Ahead>
    ensures { result ≡ field_ahead text.now at takes }
{
    if takes == A_READING {
        decimal_from(text, at)
    } else {
        number_from(text, at, MOST_DIGITS, takes)
    }
}

// The field that begins at `at`. Nearly every one is a numeral without quotes, and is read in one pass: the number that stands there, if
// the field ends with it.
fn field_at(text: &[u8], at: usize, takes: u64) -> Option<FieldRead>
    ensures { result ≡ field_read text.now at takes }
{
    match number_ahead(text, at, takes) {
        Some(ahead) if field_ends(text, ahead.end) => Some(FieldRead {
            number: ahead.number,
            follows: what_follows(text, ahead.end),
        }),
        _ => any_field(text, at, takes),
    }
}

// The record ends behind so many fields. The numbers of those that are left off are 0; none of these may be needed.
fn ended(numbers: &mut [u64], fields: usize, needed: usize, next: usize) -> Option<usize>
    requires { fields ≤ length numbers.old }
    ensures { Ended fields needed next numbers.old result numbers.new }
{
    if fields < needed {
        return None;
    }
    numbers[fields..].fill(0);
    Some(next)
}

// The numbers of the record that begins at `at`: a field for each that is asked for, of which the first so many are needed, and no other.
// Answers where the next record begins, if this one is well formed. Of two copies, for arrays of either length, neither has the reading of
// a field compiled into it, and a full sheet is read in half as much time again.
pub(crate) fn read_record(
    text: &[u8],
    at: usize,
    needed: usize,
    takes: &[u64],
    numbers: &mut [u64],
) -> Option<usize>
    requires { Recordable needed takes.now numbers.old }
    ensures { RecordFound text.now at needed takes.now result numbers.new }
{
    let mut next = at;
    for (j, largest) in takes.iter().enumerate() {
        let field = field_at(text, next, *largest)?;
        numbers[j] = field.number;
        match field.follows {
            Behind::Field(after) => next = after,
            Behind::Record(after) => return ended(numbers, j + 1, needed, after),
        }
    }
    None
}
