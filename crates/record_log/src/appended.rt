// What was handed to a log's file.
ghost use Rattle.std.specs.Prelude.{◌≡◌, true, length, take};
ghost use Rattle.std.specs.Io.{WritesAtMost};
ghost use Rattle.record_log.specs.Appending.{clamp_len, took_all, AfterWrite, HandsOn, AppendsFirst};

use std::fs::File;
use std::io;
use std::io::{Error, Stderr, Write};
use streams::message;
use streams::standard_output::count_on;

// The number that the system has for a write to no open file.
const NOT_OPEN: i32 = 9;

// How many bytes were handed to a log, and whether each write took all that it was given. Both are private, so that no
// caller can have others but by handing bytes on.
#[derive(Clone, Copy)]
pub struct Appended {
    bytes: u64,
    whole: bool,
}

// What a write told, as a number of the part's bytes: 0 where it failed.
fn count(told: Option<usize>, part: &[u8]) -> usize
    ensures { result ≡ clamp_len told (length part.now) }
{
    match told {
        Some(n) => n.min(part.len()),
        None => 0,
    }
}

// Whether a write that told this took the whole part.
#[tactic(auto, unfolding(crate::specs::Appending::took_all))]
fn took_all(told: Option<usize>, part: &[u8]) -> bool
    ensures { result ≡ took_all told (length part.now) }
{
    count(told, part) == part.len()
}

// What a write told: how many bytes it took, or none where it failed, which is told.
fn told_by(answer: io::Result<usize>, errors: Stderr, name: &[u8]) -> Option<usize> {
    match answer {
        Ok(n) => Some(n),
        Err(why) => {
            message::failed_with(errors, name, b"logging stops", why);
            None
        }
    }
}

// Tells that a write took only a part.
fn tell_part(errors: Stderr, name: &[u8]) {
    message::tell_about(
        errors,
        name,
        b"only a part of the records could be written, so logging stops; make room, and see that its length is a multiple of 8",
    );
}

// One call of the system's.
fn write_once(to: Option<&File>, part: &[u8]) -> io::Result<usize>
    ensures { WritesAtMost result part.now }
{
    match to {
        Some(mut file) => file.write(part),
        None => Err(Error::from_raw_os_error(NOT_OPEN)),
    }
}

impl Appended {
    // Nothing was handed on.
    pub fn new() -> Appended
        ensures { (result.bytes ≡ 0) × (result.whole ≡ true) }
    {
        Appended {
            bytes: 0,
            whole: true,
        }
    }

    // Whether each write took all that it was given.
    pub fn is_whole(self) -> bool
        ensures { result ≡ self.whole }
    {
        self.whole
    }

    // The same with this part handed on, by what its write told. Of a write that failed that was told.
    fn after_write(self, told: Option<usize>, errors: Stderr, name: &[u8], part: &[u8]) -> Appended
        ensures { AfterWrite told part.now self result }
    {
        let is_whole = took_all(told, part);
        if told.is_some() && !is_whole {
            tell_part(errors, name);
        }
        Appended {
            bytes: count_on(self.bytes, part.len()),
            whole: self.whole && is_whole,
        }
    }

    // Hands on the part, which is the first bytes of the records, with one write. That they are written is trusted: it is
    // the one line with `write`.
    fn write(
        self,
        to: Option<&File>,
        errors: Stderr,
        name: &[u8],
        records: &[u8],
        count: usize,
        part: &[u8],
    ) -> Appended
        requires { part.now ≡ take count records.now }
        ensures { HandsOn (take count records.now) self result }
    {
        let told = told_by(write_once(to, part), errors, name);
        self.after_write(told, errors, name, part)
    }

    // Hands on so many first bytes of the records, or all where there are fewer, with one write, so that another process that
    // appends never comes between their bytes. A write that fails or takes only a part is told.
    pub fn append(
        self,
        to: Option<&File>,
        errors: Stderr,
        name: &[u8],
        records: &[u8],
        waiting: usize,
    ) -> Appended
        ensures { AppendsFirst waiting records.now self result }
    {
        let count = waiting.min(records.len());
        if count == 0 {
            return self;
        }
        self.write(to, errors, name, records, count, &records[..count])
    }
}
