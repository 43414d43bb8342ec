// The rows of a table.
ghost use Rattle.std.specs.Prelude.{◌≡◌, ◌+◌, ◌*◌, ◌≤◌, ◌<◌};
ghost use Rattle.desk.specs.Cells.{width};
ghost use Rattle.desk.specs.Demands.{cell_at};
ghost use Rattle.report.specs.Report.{most_amounts, most_row, number_text, amounts_text, row_text, table_text};
ghost use Rattle.report.specs.Inner.{counted, Rowable, Adds};
ghost use Rattle.numerals.specs.Laid.{reach};

use super::writer::{MOST_NUMBER, Writer};
use desk::cells::COLUMNS;

// The letters of a table's name.
const NAME_SIZE: usize = 5;

// The bytes of a row, at most: the table's name, the line's number, the cells and the line end.
pub(crate) const MOST_ROW: usize = NAME_SIZE + MOST_NUMBER + (COLUMNS * MOST_NUMBER + 1);

// Cell j of row i, both counted from 0; 0 where the table has no such cell.
fn cell(cells: &[u64], i: usize, j: usize) -> u64
    requires { (i < counted) × (j < width) }
    ensures { result ≡ cell_at cells.now i j }
{
    cells.get(i * COLUMNS + j).copied().unwrap_or(0)
}

impl Writer<'_> {
    // G, R, U, D, F of row i, and the line end.
    fn amounts(&mut self, cells: &[u64], i: usize)
        requires { (i < counted) × (self.old.at + most_amounts ≤ reach) }
        ensures { Adds (amounts_text cells.now i) most_amounts self.old self.new }
    {
        for column in 0..COLUMNS {
            self.number(cell(cells, i, column));
        }
        self.put(b"\n");
    }

    // The row of line i; lines count from 1.
    fn line_row(&mut self, name: &[u8], cells: &[u64], i: usize)
        requires { Rowable name.now i self.old.at most_row }
        ensures { Adds (row_text name.now (number_text (i + 1)) cells.now i) most_row self.old self.new }
    {
        self.put(name);
        self.number((i + 1) as u64);
        self.amounts(cells, i);
    }

    // A row for each line, and the row of sums.
    pub(crate) fn table(&mut self, name: &[u8], cells: &[u64], lines: usize)
        requires { Rowable name.now lines self.old.at (most_row * (lines + 1)) }
        ensures { Adds (table_text name.now cells.now lines) (most_row * (lines + 1)) self.old self.new }
    {
        for i in 0..lines {
            self.line_row(name, cells, i);
        }
        self.put(name);
        self.put(b" total");
        self.amounts(cells, lines);
    }
}
