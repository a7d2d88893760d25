// What the programs read: bytes into a caller's buffer, from whatever gives some, and the files that arguments name. A read that fails gives no byte, as
// at the end.
#![tactic(auto)]

mod arguments;

ghost use Rattle.std.specs.Prelude.{◌≤◌, length};
ghost use Rattle.input.specs.Counts.{IsPrefixLen};

pub use arguments::{is_given, open_named};
use std::io::Read;

// As many bytes as one read gives, at the start of `buf`: 0 at the end, and where the read fails.
pub fn read_once<R: Read>(from: &mut R, buf: &mut [u8]) -> usize
    ensures { IsPrefixLen result buf.new }
{
    from.read(buf).unwrap_or(0)
}

// Reads until `buf` is full, the end is reached or a read fails, and answers how many bytes stand at its start. A `for` over the reads would be no plainer:
// how many there are is not known before, and `done` says where the next begins.
pub fn read_full<R: Read>(from: &mut R, buf: &mut [u8]) -> usize
    ensures { IsPrefixLen result buf.new }
{
    let mut done: usize = 0;
    while done < buf.len() {
        let count = read_once(from, &mut buf[done..]);
        if count == 0 {
            return done;
        }
        done += count;
    }
    done
}
