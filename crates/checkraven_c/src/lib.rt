// The desk for C. A slice is a pointer and then a length, and each file is a slice of its own.
#![tactic(auto)]

ghost use Rattle.std.specs.Prelude.{◌≡◌};
ghost use Rattle.desk.specs.Lent.{sources, lent};
ghost use Rattle.checkraven_c.specs.Code.{Accounts};
ghost use Rattle.checkraven_c.specs.TextCode.{written_code, Reports};
ghost use Rattle.checkraven_c.specs.BundleCode.{AccountsBundle};
ghost use Rattle.checkraven_c.specs.ConvertCode.{ConvertsCode, AccountsText};
ghost use Rattle.checkraven_c.specs.RowCode.{key_of, ShowsRow};
ghost use Rattle.checkraven_c.specs.StepCode.{StepsCode, CountsCode};
ghost use Rattle.desk.specs.Works.{results};
ghost use Rattle.desk.specs.Books.{row_number};
ghost use Rattle.text.specs.Read.{sheet_of_text};
ghost use Rattle.text.specs.Written.{text_of_sheet};

use answers::answer::{FileFault, Refusal, outcome_code};
use answers::bundle::bundle_code;
use answers::step::{count_code, step_code};
use desk::books::row_number;
use desk::declare::declare;
use desk::key::Key;
use desk::lent::Sources;
use desk::works::declare_bundle;
use report::{NoRoom, report, report_row};
use steps::count::settling_steps;
use steps::step::settling_step;
use text::convert::converted_code;
use text::declare::declare_text;
use text::read::sheet_from_text;
use text::write::text_from_sheet;

// How many bytes, below 65,536; or rule 3's number times 65,536.
fn written_code(written: Result<usize, NoRoom>) -> u64
    ensures { result ≡ written_code written }
{
    match written {
        Ok(bytes) => bytes as u64,
        Err(NoRoom) => Refusal::File(FileFault::ResultTooShort).code(),
    }
}

// 0 where the sheet is accepted; else the refusal's number times 65,536, and the line. Both results are left as the desk leaves them.
#[unsafe(no_mangle)]
pub extern "C" fn checkraven_account(
    own: &[u8],
    book: &[u8],
    fugitive: &[u8],
    sheet: &[u8],
    exact: &mut [u64],
    shown: &mut [u64],
) -> u64
    ensures { Accounts (lent (sources own.now book.now fugitive.now) sheet.now)
        exact.old shown.old result exact.new shown.new }
{
    let sources = Sources {
        own,
        book,
        fugitive,
    };
    outcome_code(declare(sources, sheet, exact, shown))
}

// 0 where the bundle is taken; else the refusal's number times 65,536. The results and the outcomes are left as the desk leaves them.
#[unsafe(no_mangle)]
pub extern "C" fn checkraven_account_bundle(
    own: &[u8],
    book: &[u8],
    fugitive: &[u8],
    bundle: &[u8],
    exact: &mut [u64],
    shown: &mut [u64],
    outcomes: &mut [u64],
) -> u64
    ensures { AccountsBundle (sources own.now book.now fugitive.now) bundle.now
        (results exact.old shown.old outcomes.old) result
        (results exact.new shown.new outcomes.new) }
{
    let sources = Sources {
        own,
        book,
        fugitive,
    };
    bundle_code(declare_bundle(sources, bundle, exact, shown, outcomes))
}

// The bytes of the report, below 65,536; or rule 3's number times 65,536, where the text has no room for them. The text is left as the
// report leaves it.
#[unsafe(no_mangle)]
pub extern "C" fn checkraven_report(
    own: &[u8],
    book: &[u8],
    fugitive: &[u8],
    sheet: &[u8],
    text: &mut [u8],
) -> u64
    ensures { Reports (lent (sources own.now book.now fugitive.now) sheet.now)
        text.old result text.new }
{
    let sources = Sources {
        own,
        book,
        fugitive,
    };
    written_code(report(sources, sheet, text))
}

// The bytes of the binary sheet, below 65,536; or the refusal's number times 65,536. The sheet is left as the reader leaves it.
#[unsafe(no_mangle)]
pub extern "C" fn checkraven_sheet_from_text(text: &[u8], sheet: &mut [u8]) -> u64
    ensures { ConvertsCode (sheet_of_text text.now) sheet.old result sheet.new }
{
    converted_code(sheet_from_text(text, sheet))
}

// The bytes of the text, below 65,536; or the refusal's number times 65,536, and the line. The text is left as the writer leaves it.
#[unsafe(no_mangle)]
pub extern "C" fn checkraven_text_from_sheet(sheet: &[u8], text: &mut [u8]) -> u64
    ensures { ConvertsCode (text_of_sheet sheet.now) text.old result text.new }
{
    converted_code(text_from_sheet(sheet, text))
}

// 0 where the sheet is accepted; else the refusal's number times 65,536, and the line. Both results are left as the desk leaves them.
#[unsafe(no_mangle)]
pub extern "C" fn checkraven_account_text(
    own: &[u8],
    book: &[u8],
    fugitive: &[u8],
    text: &[u8],
    exact: &mut [u64],
    shown: &mut [u64],
) -> u64
    ensures { AccountsText (sources own.now book.now fugitive.now) text.now
        exact.old shown.old result exact.new shown.new }
{
    let sources = Sources {
        own,
        book,
        fugitive,
    };
    outcome_code(declare_text(sources, text, exact, shown))
}

fn key_of(
    industry: u64,
    product: u64,
    material: u64,
    process: u64,
    scale: u64,
    medium: u64,
    pollutant: u64,
) -> Key
    ensures { result ≡ key_of industry product material process scale medium pollutant }
{
    Key {
        industry: industry as usize,
        product: product as usize,
        material: material as usize,
        process: process as usize,
        scale: scale as usize,
        medium: medium as usize,
        pollutant: pollutant as usize,
    }
}

// The bytes of the row that answers for these seven, below 65,536, and 0 where none does; or rule 3's number times 65,536, where they have
// no room. The lent bytes are left as the report leaves them.
#[unsafe(no_mangle)]
pub extern "C" fn checkraven_row<'a>(
    own: &'a [u8],
    book: &'a [u8],
    industry: u64,
    product: u64,
    material: u64,
    process: u64,
    scale: u64,
    medium: u64,
    pollutant: u64,
    row: &mut [u8],
) -> u64
    ensures { ShowsRow own.now book.now (key_of industry product material process scale medium pollutant)
        row.old result row.new }
{
    let key = key_of(
        industry, product, material, process, scale, medium, pollutant,
    );
    written_code(report_row(own, book, key, row))
}

// Which row that is: 1 to 1,024 in the own book, 1,025 to 2,048 in the published one; 0 where there is none.
#[unsafe(no_mangle)]
pub extern "C" fn checkraven_row_number(
    own: &[u8],
    book: &[u8],
    industry: u64,
    product: u64,
    material: u64,
    process: u64,
    scale: u64,
    medium: u64,
    pollutant: u64,
) -> u64
    ensures { result ≡ row_number own.now book.now
        (key_of industry product material process scale medium pollutant) }
{
    let key = key_of(
        industry, product, material, process, scale, medium, pollutant,
    );
    row_number(own, book, key) as u64
}

// 1 where something changed, 0 where the table is whole; else the refusal's number times 65,536. The result is left as the step leaves it.
#[unsafe(no_mangle)]
pub extern "C" fn checkraven_step(unit: u64, table: &[u64], next: &mut [u64]) -> u64
    ensures { StepsCode unit table.now next.old result next.new }
{
    step_code(settling_step(unit, table, next))
}

// How many steps change something, below 65,536; or the refusal's number times 65,536.
#[unsafe(no_mangle)]
pub extern "C" fn checkraven_steps(unit: u64, table: &[u64]) -> u64
    ensures { CountsCode unit table.now result }
{
    count_code(settling_steps(unit, table))
}
