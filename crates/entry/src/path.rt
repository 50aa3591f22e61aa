// The path of the command to run.
ghost use Rattle.text.specs.Contract.{Wrote};
ghost use Rattle.entry.specs.Path.{starred};

use text::buffer::{put, put_all};

#[derive(Drop)]
pub struct Path;

impl Path {
    // The most bytes, each `*` replaced.
    pub const BYTES: usize = 1024;
}

// The byte of a path that the command takes the place of.
const STAR: u8 = b'*';

// The path with each `*` replaced by the command, once, from the buffer's beginning on, or that it does not fit.
pub fn put_path(path: &[u8], command: &[u8], out: &mut [u8]) -> Option<usize>
    ensures { Wrote out.old out.new 0 (starred command.now path.now) result }
{
    let mut m = 0;
    for b in path {
        m = if *b == STAR {
            put_all(out, m, command)?
        } else {
            put(out, m, *b)?
        };
    }
    Some(m)
}
