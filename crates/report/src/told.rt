// What the desk answers, told: the figures, or the refusal.
ghost use Rattle.std.specs.Prelude.{◌≡◌, ◌+◌, ◌≤◌, take};
ghost use Rattle.desk.specs.Lent.{contents, lent};
ghost use Rattle.headers.specs.Sheet.{most_lines};
ghost use Rattle.report.specs.Report.{most_unit, most_text, unit_text, figures_text, refusal_text, report_of};
ghost use Rattle.report.specs.Typed.{refused_text, text_report_of};
ghost use Rattle.report.specs.Inner.{most_refusal, answer_text, Tellable, Adds};
ghost use Rattle.numerals.specs.Laid.{reach};

use super::writer::Writer;
use answers::answer::{NUMBER_UNIT, Refusal, outcome_code};
use answers::outcome::{outcome_line, outcome_number};
use desk::cells::COLUMNS;
use desk::declare::declare;
use desk::lent::Sources;
use desk::table::MOST_CELLS;
use headers::sheet::line_count;
use headers::unit::unit_of;
use little::part::part;
use little::read::are_bytes;
use text::declare::sources_first;
use text::read::{MOST_SHEET, sheet_from_text};

// So many cells, or as many of them as there are.
fn first_cells(cells: &[u64], count: usize) -> &[u64]
    ensures { result.now ≡ take count cells.now }
{
    &cells[..count.min(cells.len())]
}

impl Writer<'_> {
    pub(crate) fn refusal(&mut self, rule: u64, line: u64)
        requires { self.old.at + most_refusal ≤ reach }
        ensures { Adds (refusal_text rule line) most_refusal self.old self.new }
    {
        self.put(b"refused");
        self.number(rule);
        self.put(b" line");
        self.number(line);
        self.put(b"\n");
    }

    fn unit_line(&mut self, unit: u64)
        requires { self.old.at + most_unit ≤ reach }
        ensures { Adds (unit_text unit) most_unit self.old self.new }
    {
        self.put(b"unit");
        self.number(unit);
        self.put(b"\n");
    }

    fn figures(&mut self, lines: usize, unit: u64, exact: &[u64], shown: &[u64])
        requires { (lines ≤ most_lines) × (self.old.at + most_text ≤ reach) }
        ensures { Adds (figures_text lines unit exact.now shown.now) most_text self.old self.new }
    {
        self.table(b"exact", exact, lines);
        self.unit_line(unit);
        self.table(b"shown", shown, lines);
    }

    // The desk's answer to a sheet as one number, as a bundle's outcomes are lent, and the results as the desk left them.
    pub(crate) fn answer(&mut self, sheet: &[u8], code: u64, exact: &[u64], shown: &[u64])
        requires { Tellable self.old.at code sheet.now }
        ensures { Adds (answer_text code sheet.now exact.now shown.now) most_text self.old self.new }
    {
        if code == 0 {
            let lines = line_count(sheet);
            let cells = COLUMNS * (lines + 1);
            let exact_table = first_cells(exact, cells);
            self.figures(
                lines,
                unit_of(sheet),
                exact_table,
                first_cells(shown, cells),
            );
        } else {
            self.refusal(code / NUMBER_UNIT, code % NUMBER_UNIT);
        }
    }

    // Where nothing is refused both numbers are 0.
    pub(crate) fn outcome(&mut self, outcome: Result<(), Refusal>)
        requires { self.old.at + most_text ≤ reach }
        ensures { Adds (refused_text outcome) most_text self.old self.new }
    {
        self.refusal(outcome_number(outcome) as u64, outcome_line(outcome) as u64);
    }

    // The desk is lent results with room for every sheet.
    pub(crate) fn told(&mut self, sources: Sources<'_>, sheet: &[u8])
        requires { self.old.at + most_text ≤ reach }
        ensures { Adds (report_of (lent (contents sources.entry) sheet.now))
            most_text self.old self.new }
    {
        let mut exact = [0u64; MOST_CELLS];
        let mut shown = [0u64; MOST_CELLS];
        are_bytes(sources.fugitive);
        let outcome = declare(sources, sheet, &mut exact, &mut shown);
        self.answer(sheet, outcome_code(outcome), &exact, &shown);
    }

    // A sheet that was typed is read into bytes that have room for every one: there is no heap, so that their number says how far it goes.
    pub(crate) fn told_text(&mut self, sources: Sources<'_>, typed: &[u8])
        requires { self.old.at + most_text ≤ reach }
        ensures { Adds (text_report_of (contents sources.entry) typed.now)
            most_text self.old self.new }
    {
        let mut sheet = [0u8; MOST_SHEET];
        match sheet_from_text(typed, &mut sheet) {
            Ok(bytes) => self.told(sources, part(&sheet, 0, bytes)),
            Err(refusal) => self.outcome(sources_first(sources, Err(refusal))),
        }
    }
}
