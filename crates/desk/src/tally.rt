// A running tally: it takes one line's row after another and hands itself on.
ghost use Rattle.std.specs.Prelude.{◌≡◌};
ghost use Rattle.desk.specs.Inner.{Fitting};
ghost use Rattle.desk.specs.Tally.{add, start};

use super::cells::TableRow;

#[derive(Clone, Copy, Default)]
pub struct Tally {
    pub sums: TableRow,
}

impl Tally {
    pub(crate) fn start() -> Self
        ensures { result ≡ start }
    {
        Tally::default()
    }

    pub(crate) fn add(mut self, row: TableRow) -> Self
        requires { Fitting self row }
        ensures { result ≡ add self row }
    {
        let sums = self.sums;
        self.sums = TableRow {
            generated: sums.generated + row.generated,
            removed: sums.removed + row.removed,
            reused: sums.reused + row.reused,
            discharged: sums.discharged + row.discharged,
            fugitive: sums.fugitive + row.fugitive,
        };
        self
    }
}
