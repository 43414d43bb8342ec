// The dust of a line that never meets a duct.
ghost use Rattle.std.specs.Prelude.{◌≡◌, false, ◌<◌};
ghost use Rattle.search.specs.First.{Finds, first};
ghost use Rattle.fugitive.specs.Table.{entry_count};
ghost use Rattle.desk.specs.Account.{misgraded};
ghost use Rattle.desk.specs.Dust.{entry_has, entry_index, dust_by, dust_of};
ghost use Rattle.desk.specs.Inner.{counted, at_scale, OfDust, Moderate, FindsDust};

use super::key::{ALL_SCALES, Key, codes_order};
use super::line::Line;
use super::right::RightTable;
use fugitive::entry::factors_of;
use fugitive::header::{ENTRY_SIZE, entry_count, entry_offset};
use little::part::part;
use std::cmp::Ordering;

// A thousandth of kg/t is so many units per kilogram.
pub const UNITS_PER_FACTOR: u64 = 100;

// Entries rise, so that half of those in question fall away at each turn. Counting those before the key by `search::halving` was tried: it
// does not stop where it meets the entry, and a full sheet of dust took 2.7 % more instructions.
fn entry_at_scale(table: RightTable<'_>, k: Key, scale: usize) -> Option<usize>
    requires { OfDust k }
    ensures { Finds result (first (entry_count table.entry.bytes.now) (entry_has table.entry.bytes.now (at_scale k scale))) counted }
{
    let from = entry_offset(table.bytes);
    let mut low = 0;
    let mut high = entry_count(table.bytes);
    while low < high {
        let middle = low + (high - low) / 2;
        match codes_order(table.bytes, from + ENTRY_SIZE * middle, k, scale) {
            Ordering::Less => low = middle + 1,
            Ordering::Equal => return Some(middle),
            Ordering::Greater => high = middle,
        }
    }
    None
}

// The entry for the line's own scale, or else the one for all scales. An `or_else` was tried: the check learns nothing of what a closure
// answers that holds a right table.
fn entry_index(table: RightTable<'_>, k: Key) -> Option<usize>
    requires { OfDust k }
    ensures { Finds result (entry_index table.entry.bytes.now k) counted }
{
    if let Some(i) = entry_at_scale(table, k, k.scale) {
        return Some(i);
    }
    entry_at_scale(table, k, ALL_SCALES)
}

// By entry i.
fn dust_by(f: &[u8], i: usize, line: Line) -> Option<u64>
    requires { (i < counted) × Moderate line }
    ensures { FindsDust result (dust_by f.now line (Some i)) }
{
    let entry = part(f, entry_offset(f) + ENTRY_SIZE * i, ENTRY_SIZE);
    let factors = factors_of(entry, line.grades);
    Some((factors as u64) * UNITS_PER_FACTOR * line.product)
}

// A line without grades needs no entry.
pub(crate) fn dust_of(table: RightTable<'_>, line: Line) -> Option<u64>
    requires { (misgraded line ≡ false) × Moderate line }
    ensures { FindsDust result (dust_of table.entry.bytes.now line) }
{
    let grades = line.grades;
    if !grades.is_given() {
        return Some(0);
    }
    let i = entry_index(table, line.key)?;
    dust_by(table.bytes, i, line)
}
