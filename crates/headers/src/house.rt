// What holds of every house file.
ghost use Rattle.std.specs.Prelude.{◌≡◌};
ghost use Rattle.headers.specs.House.{file_ok};

use little::read::u32_at;

// The bytes of a file, at most.
pub const MOST_BYTES: usize = 65536;

// The file has its header of so many bytes, is within the limit, and states at `origin` that its whole length is the bytes given.
#[tactic(auto, unfolding(crate::specs::House::file_ok, search::specs::Test::every))]
pub fn file_ok(file: &[u8], origin: usize, header: usize) -> bool
    ensures { result ≡ file_ok file.now origin header }
{
    (header <= file.len()) & (file.len() <= MOST_BYTES) & (u32_at(file, origin) == file.len())
}
