// How a conversion ends: how many bytes are written, or why there are none.
ghost use Rattle.std.specs.Prelude.{◌≡◌};
ghost use Rattle.text.specs.Convert.{converted_code};
ghost use Rattle.text.specs.Inner.{Finished, RefusedAll};

use answers::answer::{FileFault, Refusal};
use little::cells::clear;

// The answer as one number: the bytes; or the refusal's number times 65,536, and its line.
pub fn converted_code(converted: Result<usize, Refusal>) -> u64
    ensures { result ≡ converted_code converted }
{
    match converted {
        Ok(bytes) => bytes as u64,
        Err(refusal) => refusal.code(),
    }
}

pub(crate) fn refused(bytes: &mut [u8], refusal: Refusal) -> Result<usize, Refusal>
    ensures { RefusedAll refusal bytes.old result bytes.new }
{
    clear(bytes);
    Err(refusal)
}

// All that ends there was laid; or its end is past the lent bytes, and then nothing stands (3).
pub(crate) fn finished(bytes: &mut [u8], end: usize) -> Result<usize, Refusal>
    ensures { Finished end bytes.old result bytes.new }
{
    if end <= bytes.len() {
        Ok(end)
    } else {
        refused(bytes, Refusal::File(FileFault::ResultTooShort))
    }
}
