// A field of a text.
ghost use Rattle.std.specs.Prelude.{◌≡◌, ◌<◌, length};
ghost use Rattle.records.specs.Records.{turned, content_of, field_end};
ghost use Rattle.records.specs.Follow.{behind, ends_field, field_ends};

use little::read::byte_at;

const COMMA: usize = b',' as usize;

const QUOTE: usize = b'"' as usize;

const CARRIAGE_RETURN: usize = b'\r' as usize;

const LINE_FEED: usize = b'\n' as usize;

// Where the next field of the same record begins; or, behind a record's last field, where the next record does.
#[derive(Clone, Copy, Debug, PartialEq, Eq)]
pub enum Behind {
    Field(usize),
    Record(usize),
}

// A comma, or a carriage return before a line feed, each outside quotes.
#[tactic(auto, unfolding(crate::specs::Follow::ends_field))]
fn ends_field(text: &[u8], at: usize, quoted: bool) -> bool
    requires { at < length text.now }
    ensures { result ≡ ends_field text.now at quoted }
{
    if quoted {
        return false;
    }
    let byte = byte_at(text, at);
    if byte == COMMA {
        return true;
    }
    (byte == CARRIAGE_RETURN) & (byte_at(text, at + 1) == LINE_FEED)
}

fn turned(quoted: bool, byte: usize) -> bool
    ensures { result ≡ turned quoted byte }
{
    if byte == QUOTE { !quoted } else { quoted }
}

// Where the field that begins at `at` ends: at the first comma or line end outside double quotes, or with the text. Of a place past the
// text, that place.
pub fn field_end(text: &[u8], at: usize) -> usize
    ensures { result ≡ field_end text.now at }
{
    let mut quoted = false;
    for i in at..text.len() {
        if ends_field(text, i, quoted) {
            return i;
        }
        quoted = turned(quoted, byte_at(text, i));
    }
    at.max(text.len())
}

// Whether a field that is not inside quotes there ends there, if not before: at a comma, at a line end or with the text.
#[tactic(auto, unfolding(crate::specs::Follow::field_ends))]
pub fn field_ends(text: &[u8], at: usize) -> bool
    ensures { result ≡ field_ends text.now at }
{
    if text.len() <= at {
        return true;
    }
    ends_field(text, at, false)
}

// What follows a field that ends there: after a comma a field, after a line end a record. Where the text ends the next record would begin
// there, and there is none.
#[tactic(auto, unfolding(crate::specs::Follow::behind))]
pub fn what_follows(text: &[u8], end: usize) -> Behind
    ensures { result ≡ behind text.now end }
{
    if text.len() <= end {
        return Behind::Record(end);
    }
    if byte_at(text, end) == COMMA {
        return Behind::Field(end + 1);
    }
    Behind::Record(end + 2)
}

// What a field holds: what stands between its double quotes, or all of it.
pub fn content(field: &[u8]) -> &[u8]
    ensures { result.now ≡ content_of field.now }
{
    match field {
        [b'"', inner @ .., b'"'] => inner,
        _ => field,
    }
}
