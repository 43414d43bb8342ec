// What the desk is given beside the sources, and the report of it.
ghost use Rattle.std.specs.Prelude.{◌≡◌, ◌≤◌, length};
ghost use Rattle.desk.specs.Lent.{contents};
ghost use Rattle.report.specs.Report.{Wrote};
ghost use Rattle.folder.specs.Given.{given_report, most_given, whole_in};

use desk::lent::Sources;
use report::{NoRoom, report, report_bundle, report_text};

#[derive(Clone, Copy, Debug, PartialEq, Eq)]
pub enum Given {
    Sheet,
    Typed,
    Bundle,
}

// The report for books, a fugitive table and a file of any content, at the start of a text of any size. The bytes past the report keep
// their values. Where the text has no room for all of the report every byte of it is zero.
pub fn report_given(
    given: Given,
    sources: Sources<'_>,
    file: &[u8],
    text: &mut [u8],
) -> Result<usize, NoRoom>
    ensures { Wrote (given_report given (contents sources.entry) file.now) (most_given given)
        text.old result text.new }
{
    match given {
        Given::Sheet => report(sources, file, text),
        Given::Typed => report_text(sources, file, text),
        Given::Bundle => report_bundle(sources, file, text),
    }
}

// The report itself, at the start of a text of any size; nothing where the text has no room for all of it, which one of as many bytes as
// such a report has at most always has.
pub fn whole_report<'a>(
    given: Given,
    sources: Sources<'_>,
    file: &[u8],
    text: &'a mut [u8],
) -> &'a [u8]
    ensures whole { result.now ≡ whole_in (given_report given (contents sources.entry) file.now) (length text.old) }
    ensures always { most_given given ≤ length text.old
        → result.now ≡ given_report given (contents sources.entry) file.now }
{
    match report_given(given, sources, file, text) {
        Ok(bytes) => &text[..bytes],
        Err(_) => &text[..0],
    }
}
