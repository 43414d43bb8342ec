// When a bundle is not malformed.
ghost use Rattle.std.specs.Prelude.{◌≡◌, ◌<◌};
ghost use Rattle.bundle.specs.Bundle.{after_the_one_before, entry_ok, entries_ok, bundle_ok};
ghost use Rattle.bundle.specs.Inner.{counted};

use super::entry::{sheet_end, sheet_offset};
use super::header::{ENTRY_SIZE, HEADER_SIZE, bundle_header_ok, sheet_count};
use little::read::u32_at;

#[tactic(auto, unfolding(crate::specs::Bundle::after_the_one_before))]
fn after_the_one_before(b: &[u8], i: usize) -> bool
    requires { i < counted }
    ensures { result ≡ after_the_one_before b.now i }
{
    if i == 0 {
        true
    } else {
        sheet_end(b, i - 1) <= sheet_offset(b, i)
    }
}

#[tactic(auto, unfolding(crate::specs::Bundle::entry_ok, search::specs::Test::every))]
fn entry_ok(b: &[u8], i: usize) -> bool
    requires { i < counted }
    ensures { result ≡ entry_ok b.now i }
{
    let entries_end = HEADER_SIZE + ENTRY_SIZE * sheet_count(b);
    (entries_end <= sheet_offset(b, i))
        & after_the_one_before(b, i)
        & (sheet_end(b, i) <= u32_at(b, 0))
}

fn entries_ok(b: &[u8]) -> bool
    ensures { result ≡ entries_ok b.now }
{
    (0..sheet_count(b)).all(|i| entry_ok(b, i))
}

// Whether a bundle of any content and size is right. Entries are looked at only where the header is, so that no wrong count is walked.
#[tactic(auto, unfolding(crate::specs::Bundle::bundle_ok))]
pub fn bundle_ok(b: &[u8]) -> bool
    ensures { result ≡ bundle_ok b.now }
{
    bundle_header_ok(b) && entries_ok(b)
}
