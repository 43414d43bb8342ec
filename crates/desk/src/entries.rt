// The fugitive table: its entries rise.
ghost use Rattle.std.specs.Prelude.{◌≡◌, true};
ghost use Rattle.fugitive.specs.Table.{entry_start, fugitive_header_ok};
ghost use Rattle.desk.specs.Entries.{entry_rises, entries_ok, fugitive_ok};
ghost use Rattle.desk.specs.Inner.{EntryIn};

use super::key::{codes_order, key_from};
use fugitive::grades::{GAS, PARTICULATES};
use fugitive::header::{ENTRY_SIZE, entry_count, entry_offset, fugitive_header_ok};

// Whether entry i, which starts at `at`, has a key above that of the entry before it, which is compared where it stands. The first has none
// before it.
fn entry_rises(f: &[u8], i: usize, at: usize) -> bool
    requires { EntryIn f.now at × (at ≡ entry_start f.now i) }
    ensures { result ≡ entry_rises f.now i }
{
    if i == 0 {
        return true;
    }
    let key = key_from(f, at, GAS, PARTICULATES);
    codes_order(f, at - ENTRY_SIZE, key, key.scale).is_lt()
}

fn entries_ok(f: &[u8]) -> bool
    requires { fugitive_header_ok f.now ≡ true }
    ensures { result ≡ entries_ok f.now }
{
    let from = entry_offset(f);
    (0..entry_count(f)).all(|i| entry_rises(f, i, from + ENTRY_SIZE * i))
}

// Whether a fugitive table of any content and size is right. Entries are looked at only where the header is, so that no wrong count is
// walked.
#[tactic(auto, unfolding(crate::specs::Entries::fugitive_ok))]
pub fn fugitive_ok(f: &[u8]) -> bool
    ensures { result ≡ fugitive_ok f.now }
{
    fugitive_header_ok(f) && entries_ok(f)
}
