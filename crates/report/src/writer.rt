// Words and numbers put into a text, one after the other.
ghost use Rattle.std.specs.Prelude.{◌≡◌, ◌+◌, ◌≤◌, length};
ghost use Rattle.report.specs.Report.{most_number, number_text};
ghost use Rattle.report.specs.Inner.{Finished, Adds};
ghost use Rattle.numerals.specs.Laid.{reach};

use super::NoRoom;
use little::cells::clear;
use numerals::bytes::lay;
use numerals::number::{MOST_DIGITS, decimal};

// The bytes of a number and the space before it, at most.
pub(crate) const MOST_NUMBER: usize = 1 + MOST_DIGITS;

// A lent text, and the place where the next bytes go. The place goes on past the end of the text, and what has no room is dropped, so that
// at last the report's length is known even where the text has no room for it.
pub(crate) struct Writer<'a> {
    pub(crate) text: &'a mut [u8],
    pub(crate) at: usize,
}

impl<'a> Writer<'a> {
    pub(crate) fn new(text: &'a mut [u8]) -> Writer<'a>
        ensures same_text { result.text.ghost_name ≡ text.entry.ghost_name }
        ensures start { (result.at ≡ 0) × (result.text.now ≡ text.old) }
    {
        Writer { text, at: 0 }
    }

    pub(crate) fn put(&mut self, bytes: &[u8])
        requires { self.old.at + length bytes.now ≤ reach }
        ensures { Adds bytes.now (length bytes.now) self.old self.new }
    {
        self.at += lay(self.text, self.at, bytes);
    }

    // A space and the numeral.
    pub(crate) fn number(&mut self, n: u64)
        requires { self.old.at + most_number ≤ reach }
        ensures { Adds (number_text n) most_number self.old self.new }
    {
        self.put(b" ");
        self.at += decimal(self.text, self.at, n);
    }

    // How many bytes were put, all of which stand; or the text has no room for them, and then every byte of it is zero.
    pub(crate) fn finish(self) -> Result<usize, NoRoom>
        ensures { Finished self.entry.at self.entry.text.now result self.exit.0.now }
    {
        let Writer { text, at } = self;
        if at <= text.len() {
            Ok(at)
        } else {
            clear(text);
            Err(NoRoom)
        }
    }
}
