// The desk on a text sheet.
ghost use Rattle.std.specs.Prelude.{◌≡◌};
ghost use Rattle.desk.specs.Lent.{contents};
ghost use Rattle.text.specs.Declare.{sources_first, NoSheet, DeclaredText};

use super::read::{MOST_SHEET, sheet_from_text};
use answers::answer::Refusal;
use desk::declare::declare;
use desk::lent::Sources;
use desk::table::by_sources;
use little::cells::clear;
use little::part::part;

// Rules 1 and 13 come before what is wrong with the text.
pub fn sources_first(sources: Sources<'_>, next: Result<(), Refusal>) -> Result<(), Refusal>
    ensures { result ≡ sources_first (contents sources.entry) next }
{
    by_sources(sources)?;
    next
}

fn no_sheet(
    sources: Sources<'_>,
    refusal: Refusal,
    exact: &mut [u64],
    shown: &mut [u64],
) -> Result<(), Refusal>
    ensures { NoSheet (contents sources.entry) refusal
        exact.old shown.old result exact.new shown.new }
{
    clear(exact);
    clear(shown);
    sources_first(sources, Err(refusal))
}

// Figures, or one refusal, for books, a fugitive table and a text of any content and results of any size: 1, 13, 12, 3, then the lines.
// The sheet is read into bytes of its own, which always have room; there is no heap, so that their number says how far it goes. On refusal
// every cell of both results is zero; on acceptance the cells past the tables keep their values.
pub fn declare_text(
    sources: Sources<'_>,
    text: &[u8],
    exact: &mut [u64],
    shown: &mut [u64],
) -> Result<(), Refusal>
    ensures { DeclaredText (contents sources.entry) text.now
        exact.old shown.old result exact.new shown.new }
{
    let mut sheet = [0u8; MOST_SHEET];
    match sheet_from_text(text, &mut sheet) {
        Ok(bytes) => declare(sources, part(&sheet, 0, bytes), exact, shown),
        Err(refusal) => no_sheet(sources, refusal, exact, shown),
    }
}
