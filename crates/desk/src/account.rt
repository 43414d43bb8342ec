// From a line to its amounts.
ghost use Rattle.std.specs.Prelude.{◌≡◌, ◌<◌, ◌≤◌};
ghost use Rattle.amounts.specs.Line.{Admissible, amounts_of};
ghost use Rattle.headers.specs.Book.{technique_block};
ghost use Rattle.headers.specs.Sheet.{line_count};
ghost use Rattle.shares.specs.Share.{share_by};
ghost use Rattle.desk.specs.Row.{Hit, row_at};
ghost use Rattle.desk.specs.Books.{book_for};
ghost use Rattle.desk.specs.Dust.{dust_of};
ghost use Rattle.desk.specs.Account.{treated, treatment_of, generated_of, by_treatment, by_dust, by_row, by_book, account_of, line_outcome};
ghost use Rattle.desk.specs.Inner.{Listed, SmallProduct, SmallRow, RowThere, most_dust};
ghost use Rattle.desk.specs.Inner.{Treatable, Gradable, Admitted, right_contents, right_lent};

use super::books::{RowPlace, row_place};
use super::cells::{TableRow, row_from};
use super::dust::dust_of;
use super::key::WATER;
use super::line::{Line, MOST_KILOGRAMS, WHOLE_SHARE, line_of, reading_at};
use super::right::{RightBook, RightFiles, RightSources, RightTable};
use super::row::{Basis, Row, row_at};
use super::sheet::line_start;
use super::technique::{efficiency_at, technique_index};
use amounts::line::{Amounts, work};
use answers::answer::LineFault;
use headers::book::technique_block;
use shares::share::{Fraction, Reading, share_by};

// The efficiency, and k: the share of the production that the treatment ran for.
#[derive(Clone, Copy, Debug, PartialEq, Eq)]
pub struct Treatment {
    pub efficiency: usize,
    pub ran: Fraction,
}

fn treated(efficiency: usize, reading: Reading, rule: usize) -> Result<Treatment, LineFault>
    ensures { result ≡ treated efficiency (share_by reading rule) }
{
    let ran = share_by(reading, rule)?;
    Ok(Treatment { efficiency, ran })
}

// Technique 0 is direct discharge, whatever the reading.
#[tactic(auto, unfolding(crate::specs::Account::treatment_of))]
fn treatment_of(
    t: &[u8],
    row: Row,
    technique: usize,
    reading: Reading,
) -> Result<Treatment, LineFault>
    requires { SmallRow row × Listed t.now row.first row.techniques }
    ensures { result ≡ treatment_of t.now row technique reading }
{
    if technique == 0 {
        return Ok(Treatment {
            efficiency: 0,
            ran: Fraction { n: 0, d: 1 },
        });
    }
    let Some(j) = technique_index(t, row.first, row.techniques, technique) else {
        return Err(LineFault::NoTechnique);
    };
    treated(efficiency_at(t, row.first + j), reading, row.rule)
}

#[tactic(auto, unfolding(crate::specs::Account::generated_of))]
fn generated(row: Row, line: Line) -> u64
    requires { SmallProduct row line }
    ensures { result ≡ generated_of row line }
{
    match row.basis {
        Basis::Product => row.coefficient * line.product,
        Basis::Material => row.coefficient * line.material,
    }
}

// `work` takes these numbers.
fn amounts_of(generated: u64, treatment: Treatment, reuse: usize, water: bool) -> Amounts
    requires { Admissible treatment.efficiency treatment.ran.n treatment.ran.d reuse }
    ensures { result ≡ amounts_of generated treatment.efficiency treatment.ran.n treatment.ran.d reuse water }
{
    let efficiency = treatment.efficiency as u64;
    let ran = treatment.ran;
    work(generated, efficiency, ran.n, ran.d, reuse as u64, water).unwrap()
}

// Where it is known what escapes.
fn by_treatment(t: &[u8], row: Row, line: Line, fugitive: u64) -> Result<TableRow, LineFault>
    requires { Treatable t.now row line × (fugitive ≤ most_dust) }
    ensures { result ≡ by_treatment row line fugitive (treatment_of t.now row line.technique line.reading) }
{
    let key = line.key;
    let treatment = treatment_of(t, row, line.technique, line.reading)?;
    let amounts = amounts_of(
        generated(row, line),
        treatment,
        line.reuse,
        key.medium == WATER,
    );
    Ok(row_from(amounts, fugitive))
}

// Rule 14 where the line needs an entry and there is none.
fn by_dust(t: &[u8], table: RightTable<'_>, row: Row, line: Line) -> Result<TableRow, LineFault>
    requires { Gradable t.now row line }
    ensures { result ≡ by_dust t.now row line (dust_of table.entry.bytes.now line) }
{
    let fugitive = dust_of(table, line).ok_or(LineFault::NoFugitiveEntry)?;
    by_treatment(t, row, line, fugitive)
}

// By row i of a book, with the techniques of the same book.
fn by_row(
    book: RightBook<'_>,
    i: usize,
    table: RightTable<'_>,
    line: Line,
) -> Result<TableRow, LineFault>
    requires { RowThere book.bytes.now line.key i × Admitted line }
    ensures { result ≡ by_row (technique_block book.entry.bytes.now) table.entry.bytes.now line (Hit (row_at book.entry.bytes.now i)) }
{
    by_dust(technique_block(book.bytes), table, row_at(book, i), line)
}

fn by_books(sources: RightSources<'_>, line: Line) -> Result<TableRow, LineFault>
    requires { Admitted line }
    ensures { result ≡ by_book (book_for (right_contents sources.entry) line.key)
        (right_contents sources.entry).fugitive line }
{
    let key = line.key;
    match row_place(sources.own, sources.book, key) {
        Some(RowPlace::InOwn(i)) => by_row(sources.own, i, sources.fugitive, line),
        Some(RowPlace::InPublished(i)) => by_row(sources.book, i, sources.fugitive, line),
        None => Err(LineFault::NoRow),
    }
}

#[tactic(auto, unfolding(crate::specs::Account::account_of, crate::specs::Account::account_in))]
fn account(sources: RightSources<'_>, line: Line) -> Result<TableRow, LineFault>
    ensures { result ≡ account_of (right_contents sources.entry) line }
{
    let excessive = (MOST_KILOGRAMS < line.product) | (MOST_KILOGRAMS < line.material);
    if excessive {
        return Err(LineFault::ActivityTooLarge);
    }
    if WHOLE_SHARE < line.reuse {
        return Err(LineFault::ReuseTooLarge);
    }
    let key = line.key;
    let grades = line.grades;
    if grades.is_bad(key.medium, key.pollutant) {
        return Err(LineFault::BadGrade);
    }
    by_books(sources, line)
}

#[tactic(auto, unfolding(crate::specs::Account::line_outcome))]
pub(crate) fn line_outcome(files: RightFiles<'_>, i: usize) -> Result<TableRow, LineFault>
    requires { i < line_count files.sheet.bytes.now }
    ensures { result ≡ line_outcome (right_lent files.entry) i }
{
    let sheet = files.sheet.bytes;
    let reading = reading_at(sheet, line_start(sheet, i));
    account(files.sources, line_of(sheet, i, reading))
}
