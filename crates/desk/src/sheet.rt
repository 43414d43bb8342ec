// The sheet: what may stand in a line.
ghost use Rattle.std.specs.Prelude.{◌≡◌, true, ◌<◌};
ghost use Rattle.little.specs.Read.{Reads};
ghost use Rattle.desk.specs.Inner.{counted, farthest, LineIn};
ghost use Rattle.headers.specs.Sheet.{sheet_header_ok};
ghost use Rattle.desk.specs.Sheet.{line_start, line_ok, lines_ok, sheet_ok};

use super::inside::{byte_in, u32_in};
use headers::sheet::{LINE_SIZE, line_count, line_offset, sheet_header_ok};

pub(crate) fn line_start(s: &[u8], i: usize) -> usize
    requires { i < counted }
    ensures { Reads result (line_start s.now i) farthest }
{
    line_offset(s) + LINE_SIZE * i
}

#[tactic(auto, unfolding(crate::specs::Sheet::line_ok, search::specs::Test::every))]
fn line_ok(s: &[u8], i: usize) -> bool
    requires { (i < counted) × LineIn s.now (line_start s.now i) }
    ensures { result ≡ line_ok s.now i }
{
    let at = line_start(s, i);
    (byte_in(s, at, 14) <= 3)
        & (byte_in(s, at, 15) == 0)
        & (byte_in(s, at, 59) == 0)
        & (u32_in(s, at, 60) == 0)
}

fn lines_ok(s: &[u8]) -> bool
    requires { sheet_header_ok s.now ≡ true }
    ensures { result ≡ lines_ok s.now }
{
    (0..line_count(s)).all(|i| line_ok(s, i))
}

// Whether a sheet of any content and size is right. Lines are looked at only where the header is, so that no wrong count is walked.
#[tactic(auto, unfolding(crate::specs::Sheet::sheet_ok))]
pub fn sheet_ok(s: &[u8]) -> bool
    ensures { result ≡ sheet_ok s.now }
{
    sheet_header_ok(s) && lines_ok(s)
}
