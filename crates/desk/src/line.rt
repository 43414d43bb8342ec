// A line of a sheet as a value: what stands between the bytes and the accounts.
ghost use Rattle.std.specs.Prelude.{◌≡◌, ◌≤◌, ◌+◌, length};
ghost use Rattle.desk.specs.Inner.{LineIn, LineThere};
ghost use Rattle.desk.specs.Line.{float_at, reading_at, grades_at, line_of};
ghost use Rattle.desk.specs.Found.{sheet_line};
ghost use Rattle.desk.specs.Sheet.{line_start};

use super::inside::{byte_in, u16_in, u64_in};
use super::key::{Key, key_from};
use super::sheet::line_start;
use amounts::reading::from_bits;
use fugitive::grades::Grades;
use headers::sheet::{LINE_SIZE, line_count};
use shares::share::{EnergyReading, Reading};

// Efficiency and reuse are in tenths of a percent.
pub const WHOLE_SHARE: usize = amounts::line::WHOLE_SHARE as usize;

// Product and material, at most.
pub const MOST_KILOGRAMS: u64 = 1_000_000_000;

// The key has the sheet's medium and pollutant; product and material are in kilograms.
#[derive(Clone, Copy)]
pub struct Line {
    pub key: Key,
    pub technique: usize,
    pub reuse: usize,
    pub product: u64,
    pub material: u64,
    pub reading: Reading,
    pub grades: Grades,
}

fn float_at(s: &[u8], at: usize, field: usize) -> f64
    requires { at + field + 8 ≤ length s.now }
    ensures { result ≡ float_at s.now (at + field) }
{
    from_bits(u64_in(s, at, field))
}

#[tactic(auto, unfolding(crate::specs::Line::reading_at))]
pub(crate) fn reading_at(s: &[u8], at: usize) -> Reading
    requires { LineIn s.now at }
    ensures { result ≡ reading_at s.now at }
{
    match byte_in(s, at, 14) {
        1 => Reading::Hours {
            run: float_at(s, at, 32),
            production: float_at(s, at, 40),
        },
        2 => Reading::Energy(EnergyReading {
            kwh: float_at(s, at, 32),
            kw: float_at(s, at, 40),
            hours: float_at(s, at, 48),
        }),
        3 => Reading::Throughout,
        _ => Reading::None,
    }
}

// Of the three places where dust escapes.
#[tactic(auto, unfolding(crate::specs::Line::grades_at))]
fn grades_at(s: &[u8], at: usize) -> Grades
    requires { LineIn s.now at }
    ensures { result ≡ grades_at s.now at }
{
    Grades {
        crushing: byte_in(s, at, 56),
        tapping: byte_in(s, at, 57),
        spill: byte_in(s, at, 58),
    }
}

// Line i, with its reading. That is read by a function of its own: the two are each so small that the compiler puts them into every loop
// that asks for lines.
#[tactic(auto, unfolding(crate::specs::Line::line_of))]
pub(crate) fn line_of(s: &[u8], i: usize, reading: Reading) -> Line
    requires { LineThere s.now i × (reading ≡ reading_at s.now (line_start s.now i)) }
    ensures { result ≡ line_of s.now i }
{
    let at = line_start(s, i);
    Line {
        key: key_from(s, at, byte_in(s, 0, 6), byte_in(s, 0, 7)),
        technique: u16_in(s, at, 10),
        reuse: u16_in(s, at, 12),
        product: u64_in(s, at, 16),
        material: u64_in(s, at, 24),
        reading,
        grades: grades_at(s, at),
    }
}

// Line i of a sheet of any content, counted from 0: there is none where the header states no more lines, or the sheet ends before it does.
#[tactic(auto, unfolding(crate::specs::Found::sheet_line))]
pub fn sheet_line(s: &[u8], i: usize) -> Option<Line>
    ensures { result ≡ sheet_line s.now i }
{
    if line_count(s) <= i {
        return None;
    }
    let at = line_start(s, i);
    if s.len() < at + LINE_SIZE {
        return None;
    }
    Some(line_of(s, i, reading_at(s, at)))
}
