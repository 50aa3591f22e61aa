// Bytes on standard output.
ghost use Rattle.std.specs.Prelude.{◌≡◌, true};
ghost use Rattle.streams.specs.Contract.{counted_on, Prints};

use super::message;
use super::standard::Streams;
use std::io::Write;

// Standard output, with how many bytes were handed to it. The fields are private, so that no caller can have a larger count
// but by handing bytes on, nor say that a write failed.
#[derive(Clone, Copy)]
pub struct Output {
    streams: Streams,
    handed: u64,
    // Whether all of them were written.
    whole: bool,
}

// A count with so many more; it stays at the largest number, which no run comes to.
#[tactic(auto, unfolding(crate::specs::Contract::counted_on))]
pub fn count_on(count: u64, more: usize) -> u64
    ensures { result ≡ counted_on count more }
{
    count.saturating_add(more as u64)
}

// Whether all bytes were written to standard output; if not, that is told. That they are written is trusted: it is the one
// line that writes to it.
fn write(streams: Streams, bytes: &[u8]) -> bool {
    let mut to = streams.output;
    match to.write_all(bytes) {
        Ok(()) => true,
        Err(why) => {
            message::failed(streams.errors, b"standard output", why);
            false
        }
    }
}

impl Output {
    // Nothing was handed on.
    pub fn new(streams: Streams) -> Output
        ensures { (result.handed ≡ 0) × (result.whole ≡ true) }
    {
        Output {
            streams,
            handed: 0,
            whole: true,
        }
    }

    // Whether all bytes that were handed on were written.
    pub fn is_whole(self) -> bool
        ensures { result ≡ self.whole }
    {
        self.whole
    }

    // Hands these bytes on; a write that fails is told.
    pub fn print(self, bytes: &[u8]) -> Output
        ensures { Prints bytes.now self result }
    {
        let is_written = write(self.streams, bytes);
        Output {
            handed: count_on(self.handed, bytes.len()),
            whole: self.whole && is_written,
            ..self
        }
    }
}

// Whether all bytes were written; if not, that was told.
pub fn print(streams: Streams, bytes: &[u8]) -> bool {
    Output::new(streams).print(bytes).is_whole()
}
