// The lines of the records of a block of bytes, without a system call.
ghost use Rattle.std.specs.Prelude.{◌≡◌, ◌+◌, ◌-◌, ◌≤◌, length, take, drop};
ghost use Rattle.record.specs.Read.{record_in};
ghost use Rattle.log_text.specs.Printed.{record_text};
ghost use Rattle.log_text.specs.LogText.{last_text};
ghost use Rattle.log_text.specs.Contract.{Added, Shows, Reached};

use super::print::put_record;
use record::Record;

// No line has more bytes.
const LINE: usize = 32;

// How many bytes of a block were shown, and how many bytes of lines wait then.
#[derive(Clone, Copy)]
pub struct Shown {
    pub bytes: usize,
    pub waiting: usize,
}

// Puts the line of these bytes as a record behind those that wait.
fn add_line(bytes: &[u8], out: &mut [u8], waiting: usize) -> usize
    requires { waiting + 32 ≤ length out.old }
    ensures { Added (record_text (record_in bytes.now)) out.old waiting out.new result }
{
    put_record(bytes, out, waiting).unwrap_or(waiting)
}

// Puts the line of each whole record of a block behind those that wait, as long as there is room for another.
pub fn show_block(block: &[u8], out: &mut [u8], start: usize) -> Shown
    requires { start ≤ length out.old }
    ensures reached { Reached (length block.now) (length out.new) start result }
    ensures shows { Shows block.now (take start out.old) result.bytes (take result.waiting out.new) }
{
    let mut waiting = start;
    let mut at = 0;
    for bytes in block.chunks_exact(Record::BYTES) {
        if out.len() - waiting < LINE {
            return Shown { bytes: at, waiting };
        }
        waiting = add_line(bytes, out, waiting);
        at += Record::BYTES;
    }
    Shown { bytes: at, waiting }
}

// Puts the line of what is left at the end of a log, if anything is.
pub fn show_last(left: &[u8], out: &mut [u8], waiting: usize) -> usize
    requires { waiting + 32 ≤ length out.old }
    ensures { Added (last_text left.now) out.old waiting out.new result }
{
    if left.is_empty() {
        return waiting;
    }
    add_line(left, out, waiting)
}

// Moves the bytes between two places of a block to its front.
pub fn move_front(block: &mut [u8], from: usize, end: usize)
    requires { (from ≤ end) × (end ≤ length block.old) }
    ensures { take (end - from) block.new ≡ take (end - from) (drop from block.old) }
{
    for i in 0..end - from {
        block[i] = block[from + i];
    }
}
