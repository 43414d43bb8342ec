// The whole desk: the exact table and the shown one.
ghost use Rattle.std.specs.Prelude.{◌≡◌, ◌≤◌, min, length};
ghost use Rattle.headers.specs.Sheet.{line_count};
ghost use Rattle.desk.specs.Lent.{contents, lent};
ghost use Rattle.desk.specs.Cells.{table_size};
ghost use Rattle.desk.specs.Declare.{Declared};
ghost use Rattle.desk.specs.Inner.{OfSources, Showable, right_lent, shown_over, LinesDeclared};

use super::cells::{COLUMNS, DISCHARGED};
use super::lent::Sources;
use super::right::{RightFiles, RightSources};
use super::table::{fill, right_files, right_sources};
use answers::answer::Refusal;
use headers::unit::unit_of;
use little::cells::clear;

// An exact table is one that can be settled.
fn show(unit: u64, lines: usize, exact: &[u64], shown: &mut [u64])
    requires { Showable unit lines exact.now shown.old }
    ensures { shown.new ≡ shown_over unit lines exact.now shown.old }
{
    let cells = COLUMNS * (lines + 1);
    settle::show(unit, COLUMNS, lines + 1, DISCHARGED, &exact[..cells], shown).unwrap();
}

fn both_tables(files: RightFiles<'_>, exact: &mut [u64], shown: &mut [u64]) -> Result<(), Refusal>
    requires { table_size (line_count files.sheet.bytes.now) ≤ min (length exact.old) (length shown.old) }
    ensures { LinesDeclared (right_lent files.entry)
        exact.old shown.old result exact.new shown.new }
{
    if let Err(refusal) = fill(files, exact) {
        clear(shown);
        return Err(refusal);
    }
    let sheet = files.sheet;
    show(unit_of(sheet.bytes), sheet.lines(), exact, shown);
    Ok(())
}

// What `declare` answers and leaves, for sources that were looked at, whatever they are.
pub(crate) fn declare_told(
    told: Result<RightSources<'_>, Refusal>,
    sheet: &[u8],
    exact: &mut [u64],
    shown: &mut [u64],
) -> Result<(), Refusal>
    ensures { OfSources told.entry (λ from. Declared (lent from sheet.now)
        exact.old shown.old result exact.new shown.new) }
{
    match right_files(told, sheet, exact.len().min(shown.len())) {
        Ok(files) => both_tables(files, exact, shown),
        Err(refusal) => {
            clear(exact);
            clear(shown);
            Err(refusal)
        }
    }
}

// Figures, or one refusal, for books, a fugitive table and a sheet of any content and results of any size. Rule 3 is for either result,
// before any line is looked at. On refusal every cell of both results is zero; on acceptance the cells past the tables keep their values.
pub fn declare(
    sources: Sources<'_>,
    sheet: &[u8],
    exact: &mut [u64],
    shown: &mut [u64],
) -> Result<(), Refusal>
    ensures { Declared (lent (contents sources.entry) sheet.now)
        exact.old shown.old result exact.new shown.new }
{
    declare_told(right_sources(sources), sheet, exact, shown)
}
