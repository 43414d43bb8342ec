// Files that were looked at and are right: what reads them needs no test of its own.
ghost use Rattle.std.specs.Prelude.{◌≡◌, ◌+◌, true, false, MatchOption};
ghost use Rattle.little.specs.Read.{AreBytes, Reads};
ghost use Rattle.headers.specs.Sheet.{line_count, most_lines};
ghost use Rattle.desk.specs.Book.{book_ok};
ghost use Rattle.desk.specs.Entries.{fugitive_ok};
ghost use Rattle.desk.specs.Sheet.{sheet_ok};

use super::book::book_ok;
use super::entries::fugitive_ok;
use super::sheet::sheet_ok;
use headers::sheet::line_count;

// A coefficient book.
#[derive(Clone, Copy)]
pub(crate) struct RightBook<'a> {
    pub bytes: &'a [u8],
    ghost right: { book_ok bytes.now ≡ true },
}

impl<'a> RightBook<'a> {
    pub(crate) fn of(bytes: &'a [u8]) -> Option<Self>
        ensures { MatchOption result (book_ok bytes.now ≡ false) (λ book. book.bytes.now ≡ bytes.now) }
    {
        if book_ok(bytes) {
            Some(RightBook { bytes })
        } else {
            None
        }
    }
}

// A fugitive table.
#[derive(Clone, Copy)]
pub(crate) struct RightTable<'a> {
    pub bytes: &'a [u8],
    ghost right: { fugitive_ok bytes.now ≡ true },
    // which is so of any slice: it tells the check how large the factors of an entry are at most
    ghost small: { AreBytes bytes.now },
}

impl<'a> RightTable<'a> {
    pub(crate) fn of(bytes: &'a [u8]) -> Option<Self>
        ensures { MatchOption result (fugitive_ok bytes.now ≡ false) (λ table. table.bytes.now ≡ bytes.now) }
    {
        if fugitive_ok(bytes) {
            Some(RightTable { bytes })
        } else {
            None
        }
    }
}

// A sheet.
#[derive(Clone, Copy)]
pub(crate) struct RightSheet<'a> {
    pub bytes: &'a [u8],
    ghost right: { sheet_ok bytes.now ≡ true },
}

impl<'a> RightSheet<'a> {
    pub(crate) fn of(bytes: &'a [u8]) -> Option<Self>
        ensures { MatchOption result (sheet_ok bytes.now ≡ false) (λ sheet. sheet.bytes.now ≡ bytes.now) }
    {
        if sheet_ok(bytes) {
            Some(RightSheet { bytes })
        } else {
            None
        }
    }

    #[tactic(auto, using(crate::proofs::LawTable::lines_few))]
    pub(crate) fn lines(self) -> usize
        ensures { Reads result (line_count self.entry.bytes.now) (most_lines + 1) }
    {
        line_count(self.bytes)
    }
}

// The files that every sheet alike is accounted for by.
#[derive(Clone, Copy)]
pub(crate) struct RightSources<'a> {
    pub own: RightBook<'a>,
    pub book: RightBook<'a>,
    pub fugitive: RightTable<'a>,
}

// With a sheet that is accounted for by them.
#[derive(Clone, Copy)]
pub(crate) struct RightFiles<'a> {
    pub sources: RightSources<'a>,
    pub sheet: RightSheet<'a>,
}
