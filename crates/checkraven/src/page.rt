// Lent room that words and figures are put into, one after the other. What has no room is dropped.
use headers::unit::TONNE;
use little::part::part;
use numerals::bytes::lay;
use numerals::number::{MOST_DIGITS, decimal};

// The bytes of a figure, at most: the digits of an amount, and the point.
pub(crate) const MOST_FIGURE: usize = MOST_DIGITS + 1;

#[derive(Drop)]
pub(crate) struct Page<'a> {
    room: &'a mut [u8],
    end: usize,
}

impl<'a> Page<'a> {
    pub(crate) fn new(room: &'a mut [u8]) -> Page<'a> {
        Page { room, end: 0 }
    }

    // What was put so far.
    pub(crate) fn text(&self) -> &[u8] {
        part(self.room, 0, self.end)
    }

    fn grow(&mut self, bytes: usize) {
        self.end = self.end.saturating_add(bytes).min(self.room.len());
    }

    pub(crate) fn put(&mut self, bytes: &[u8]) {
        let laid = lay(self.room, self.end, bytes);
        self.grow(laid);
    }

    pub(crate) fn number(&mut self, n: u64) {
        let digits = decimal(self.room, self.end, n);
        self.grow(digits);
    }

    // An amount in units of w, a power of ten, with all its decimals. Before the fraction w keeps the zeros that begin it, and then the point
    // takes the place of w's digit 1.
    pub(crate) fn figure(&mut self, amount: u64, w: u64) {
        if (w == 0) | (TONNE < w) {
            return;
        }
        self.number(amount / w);
        let point = self.end;
        self.number(w + amount % w);
        lay(self.room, point, b".");
    }

    // So many spaces, and never more than there are columns in the widest picture's figure or label.
    pub(crate) fn spaces(&mut self, count: usize) {
        self.put(part(b"                     ", 0, count));
    }

    // Bytes that end where a column of that width ends.
    pub(crate) fn right(&mut self, width: usize, bytes: &[u8]) {
        self.spaces(width.saturating_sub(bytes.len()));
        self.put(bytes);
    }

    // Bytes that begin where a column of that width begins.
    pub(crate) fn left(&mut self, width: usize, bytes: &[u8]) {
        self.put(bytes);
        self.spaces(width.saturating_sub(bytes.len()));
    }
}

// Not all of it could be printed.
#[derive(Drop)]
pub(crate) struct Unprinted;

// One write.
pub(crate) fn print(rt: &impl Print, text: &[u8]) -> Result<(), Unprinted> {
    rt.write_all(text).map_err(|_| Unprinted)
}
