// What the desk answers to a bundle, told: sheet by sheet, or the refusal of the whole.
ghost use Rattle.std.specs.Prelude.{◌≡◌, ◌+◌, ◌*◌, ◌≤◌, ◌<◌, length};
ghost use Rattle.little.specs.Part.{part_of};
ghost use Rattle.bundle.specs.Bundle.{sheet_count};
ghost use Rattle.desk.specs.Lent.{contents};
ghost use Rattle.desk.specs.Works.{results};
ghost use Rattle.report.specs.Bundle.{sheet_line, most_sheet_line, most_sheet_text, most_bundle_text, bundle_report_of};
ghost use Rattle.report.specs.Inner.{counted, sheet_text, sheet_texts, SheetsTellable, SheetTellable, Adds};
ghost use Rattle.numerals.specs.Laid.{reach};

use super::writer::Writer;
use bundle::entry::sheet_of;
use bundle::header::{MOST_SHEETS, cells_per_sheet, sheet_count};
use desk::lent::Sources;
use desk::table::MOST_CELLS;
use desk::works::declare_bundle;
use little::read::are_bytes;

// The cells of both results: enough for so many sheets of all lines.
const ROOM: usize = MOST_SHEETS * MOST_CELLS;

// Run i of so many cells.
fn run(cells: &[u64], i: usize, count: usize) -> &[u64]
    requires { i * count + count ≤ length cells.now }
    ensures { result.now ≡ part_of cells.now (i * count) count }
{
    let from = i * count;
    &cells[from..from + count]
}

impl Writer<'_> {
    // Sheets count from 1.
    fn sheet_line(&mut self, i: usize)
        requires { (i < counted) × (self.old.at + most_sheet_line ≤ reach) }
        ensures { Adds (sheet_line i) most_sheet_line self.old self.new }
    {
        self.put(b"sheet");
        self.number((i + 1) as u64);
        self.put(b"\n");
    }

    // The line of sheet i, and what the desk answered to it.
    fn sheet(&mut self, bundle: &[u8], i: usize, exact: &[u64], shown: &[u64], outcomes: &[u64])
        requires { SheetTellable bundle.now (results exact.now shown.now outcomes.now) i self.old.at }
        ensures { Adds (sheet_text bundle.now (results exact.now shown.now outcomes.now) i)
            most_sheet_text self.old self.new }
    {
        let cells = cells_per_sheet(bundle);
        self.sheet_line(i);
        self.answer(
            sheet_of(bundle, i),
            outcomes[i],
            run(exact, i, cells),
            run(shown, i, cells),
        );
    }

    fn sheets(&mut self, bundle: &[u8], exact: &[u64], shown: &[u64], outcomes: &[u64])
        requires { SheetsTellable bundle.now (results exact.now shown.now outcomes.now)
            × (self.old.at + most_bundle_text ≤ reach) }
        ensures { Adds (sheet_texts bundle.now (results exact.now shown.now outcomes.now) (sheet_count bundle.now))
            most_bundle_text self.old self.new }
    {
        for i in 0..sheet_count(bundle) {
            self.sheet(bundle, i, exact, shown, outcomes);
        }
    }

    // The desk is lent room for as many sheets as a bundle may have, each of all lines.
    pub(crate) fn told_bundle(&mut self, sources: Sources<'_>, bundle: &[u8])
        requires { self.old.at + most_bundle_text ≤ reach }
        ensures { Adds (bundle_report_of (contents sources.entry) bundle.now)
            most_bundle_text self.old self.new }
    {
        let mut exact = [0u64; ROOM];
        let mut shown = [0u64; ROOM];
        let mut outcomes = [0u64; MOST_SHEETS];
        are_bytes(sources.fugitive);
        match declare_bundle(sources, bundle, &mut exact, &mut shown, &mut outcomes) {
            Ok(()) => self.sheets(bundle, &exact, &shown, &outcomes),
            Err(fault) => self.refusal(fault.number() as u64, 0),
        }
    }
}
