// A row of the coefficient book, read where it stands.
ghost use Rattle.std.specs.Prelude.{◌≡◌, true, ◌<◌, ◌^◌};
ghost use Rattle.little.specs.Read.{Reads};
ghost use Rattle.desk.specs.Book.{key_at, fields_ok, coefficient_at};
ghost use Rattle.search.specs.InnerOrder.{list_order};
ghost use Rattle.desk.specs.Inner.{RowIn, at_scale, rest_fields, key_order};

use super::inside::{byte_in, u16_in, u32_in};
use super::key::{Key, codes_order, key_from};
use std::cmp::Ordering;

// A book, and where in it a row starts: all of the row's bytes are there.
#[derive(Clone, Copy)]
pub(crate) struct RowBytes<'a> {
    pub book: &'a [u8],
    pub at: usize,
    ghost there: { RowIn book.now at },
}

// A match, since a table would be laid out anew at each call.
fn ten_to(e: usize) -> usize
    requires { e < 9 }
    ensures { Reads result (10 ^ e) 100_000_001 }
{
    match e {
        0 => 1,
        1 => 10,
        2 => 100,
        3 => 1000,
        4 => 10000,
        5 => 100_000,
        6 => 1_000_000,
        7 => 10_000_000,
        _ => 100_000_000,
    }
}

impl<'a> RowBytes<'a> {
    pub(crate) fn of(book: &'a [u8], at: usize) -> Self
        requires { RowIn book.now at }
        ensures { (result.book.now ≡ book.now) × (result.at ≡ at) }
    {
        RowBytes { book, at }
    }

    pub(crate) fn key(self) -> Key
        ensures { result ≡ key_at self.entry.book.now self.entry.at }
    {
        let medium = byte_in(self.book, self.at, 10);
        let pollutant = byte_in(self.book, self.at, 11);
        key_from(self.book, self.at, medium, pollutant)
    }

    // How the row's medium and pollutant stand to those of this key.
    fn rest_order(self, k: Key) -> Ordering
        ensures { result ≡ list_order (rest_fields (key_at self.entry.book.now self.entry.at)) (rest_fields k) }
    {
        let medium = byte_in(self.book, self.at, 10);
        if medium != k.medium {
            return medium.cmp(&k.medium);
        }
        byte_in(self.book, self.at, 11).cmp(&k.pollutant)
    }

    // How the row's key stands to this key with this scale. The closure makes the row anew: of one that holds a row the check learns nothing.
    pub(crate) fn order(self, k: Key, scale: usize) -> Ordering
        ensures { result ≡ key_order (key_at self.entry.book.now self.entry.at) (at_scale k scale) }
    {
        let book = self.book;
        let at = self.at;
        codes_order(book, at, k, scale).then_with(|| RowBytes::of(book, at).rest_order(k))
    }

    #[tactic(auto, unfolding(crate::specs::Book::fields_ok, search::specs::Test::every))]
    pub(crate) fn fields_ok(self) -> bool
        ensures { result ≡ fields_ok self.entry.book.now self.entry.at }
    {
        let medium = byte_in(self.book, self.at, 10);
        let pollutant = byte_in(self.book, self.at, 11);
        let basis = byte_in(self.book, self.at, 12);
        let unit = byte_in(self.book, self.at, 13);
        let places = byte_in(self.book, self.at, 14);
        let rule = byte_in(self.book, self.at, 15);
        let techniques = u16_in(self.book, self.at, 22);
        (1 <= medium)
            & (medium <= 3)
            & (pollutant != 0)
            & (1 <= basis)
            & (basis <= 2)
            & (1 <= unit)
            & (unit <= 3)
            & (places <= 5)
            & ((unit != 1) | (places <= 2))
            & (rule <= 2)
            & ((rule == 0) == (techniques == 0))
    }

    #[tactic(auto, unfolding(crate::specs::Book::coefficient_at))]
    pub(crate) fn coefficient(self) -> usize
        requires { fields_ok self.book.now self.at ≡ true }
        ensures { result ≡ coefficient_at self.entry.book.now self.entry.at }
    {
        let unit = byte_in(self.book, self.at, 13);
        let places = byte_in(self.book, self.at, 14);
        let digits = u32_in(self.book, self.at, 16);
        digits * ten_to(3 * unit - 1 - places)
    }
}
