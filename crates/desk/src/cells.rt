// A row of the tables as a value, and the cells that it is written in.
ghost use Rattle.std.specs.Prelude.{◌≡◌, length, ◌<◌, ◌≤◌, ◌+◌, ◌*◌};
ghost use Rattle.desk.specs.Cells.{cells_of, row_from, width};
ghost use Rattle.desk.specs.Inner.{with_row};

use amounts::line::Amounts;

// The cells of a row: G, R, U, D, F.
pub const COLUMNS: usize = 5;

// The column of what is discharged, counted from 0.
pub const DISCHARGED: usize = 3;

// In units of 10 micrograms.
#[derive(Clone, Copy, Debug, Default, PartialEq, Eq)]
pub struct TableRow {
    pub generated: u64,
    pub removed: u64,
    pub reused: u64,
    pub discharged: u64,
    pub fugitive: u64,
}

impl TableRow {
    fn cells(self) -> [u64; COLUMNS]
        ensures { result ≡ cells_of self }
    {
        [
            self.generated,
            self.removed,
            self.reused,
            self.discharged,
            self.fugitive,
        ]
    }
}

// What escapes is not among the amounts that are treated: it raises G, and stands by itself.
pub(crate) fn row_from(a: Amounts, fugitive: u64) -> TableRow
    requires { a.generated + fugitive < 18_446_744_073_709_551_616 }
    ensures { result ≡ row_from a fugitive }
{
    TableRow {
        generated: a.generated + fugitive,
        removed: a.removed,
        reused: a.reused,
        discharged: a.discharged,
        fugitive,
    }
}

// The row's own part of the result is lent.
fn write_row(cells: &mut [u64], row: TableRow)
    requires { length cells.old ≡ width }
    ensures { cells.new ≡ cells_of row }
{
    cells.copy_from_slice(&row.cells());
}

// Row i of a table, written in its own part of the table's cells.
pub(crate) fn put_row(cells: &mut [u64], i: usize, row: TableRow)
    requires { width * i + width ≤ length cells.old }
    ensures { cells.new ≡ with_row i row cells.old }
{
    let from = COLUMNS * i;
    write_row(&mut cells[from..from + COLUMNS], row);
}
