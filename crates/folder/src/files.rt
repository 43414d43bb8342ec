// Files read into lent room. Knows no format.
ghost use Rattle.std.specs.Prelude.{◌≡◌, ◌≤◌, [], length, OnErr};

use std::fs;
use std::io::{self, Read};
use std::rt::Files;

// Reads until the room is full, the file ends or a read fails, and answers how many bytes stand at the room's start. (After an error the
// library's `read_to_end` says less of what was read.)
fn read_full<F: Read>(file: &mut F, room: &mut [u8]) -> usize
    ensures { result ≤ length room.new }
{
    let mut done = 0;
    while done < room.len() {
        match file.read(&mut room[done..]) {
            Ok(0) | Err(_) => return done,
            Ok(bytes) => done += bytes,
        }
    }
    done
}

// What could be read of a file into the room; one that could not be opened counts as empty.
pub fn load_open<'a, F: Read + Drop>(opened: io::Result<F>, room: &'a mut [u8]) -> &'a [u8]
    ensures within { length result.now ≤ length room.old }
    ensures unopened { OnErr opened (result.now ≡ []) }
{
    let bytes = match opened {
        Ok(mut file) => read_full(&mut file, room),
        Err(_) => 0,
    };
    &room[..bytes]
}

// The same of the file of that name.
pub fn load<'a>(rt: &impl Files, name: &str, room: &'a mut [u8]) -> &'a [u8]
    ensures { length result.now ≤ length room.old }
{
    load_open(fs::open(rt, name), room)
}

// Room of N bytes, all of them 0. Only its length is told, so that nothing else that is proved has to look at so many zeros.
pub fn room<const N: usize>() -> [u8; N]
    ensures { length result ≡ N }
{
    [0; N]
}
