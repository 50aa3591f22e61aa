// Bytes from a file, and the name of one.
ghost use Rattle.std.specs.Io.{ReadsAtMost};
ghost use Rattle.streams.specs.Contract.{LoadedIn};

use super::message;
use super::standard::Streams;
use std::env::FillError;
use std::fs::File;
use std::io;
use std::io::{Error, Read, Stderr, Stdin};
use std::rt::Env;

// The numbers that the system has for an argument that is too long or not there.
const TOO_LONG: i32 = 36;

const NOT_THERE: i32 = 22;

// What is read from.
#[derive(Clone, Copy)]
enum Origin<'a> {
    Standard(Stdin),
    File(&'a File),
}

// Standard input or an open file, with what a read that fails is told as.
#[derive(Clone, Copy)]
pub struct Input<'a> {
    origin: Origin<'a>,
    errors: Stderr,
    name: &'a [u8],
    // What follows from a failure, if it is told.
    words: &'a [u8],
}

impl<'a> Input<'a> {
    // Standard input.
    pub fn standard(streams: Streams) -> Input<'a> {
        Input {
            origin: Origin::Standard(streams.input),
            errors: streams.errors,
            name: b"standard input",
            words: b"",
        }
    }

    // An open file by its name, and words on what follows from a read that fails, or none.
    pub fn of_file(streams: Streams, file: &'a File, name: &'a [u8], words: &'a [u8]) -> Input<'a> {
        Input {
            origin: Origin::File(file),
            errors: streams.errors,
            name,
            words,
        }
    }

    // One call of the system's.
    fn read(self, out: &mut [u8]) -> io::Result<usize>
        ensures { ReadsAtMost result out.new }
    {
        match self.origin {
            Origin::Standard(mut input) => input.read(out),
            Origin::File(mut file) => file.read(out),
        }
    }

    fn tell(self, why: Error) {
        if self.words.is_empty() {
            message::failed(self.errors, self.name, why);
            return;
        }
        message::failed_with(self.errors, self.name, self.words, why);
    }
}

// Reads once; no byte where the file ends. A failure is told.
pub fn read_some(input: Input<'_>, out: &mut [u8]) -> Option<usize>
    ensures { LoadedIn out.new result }
{
    match input.read(out) {
        Ok(n) => Some(n),
        Err(why) => {
            input.tell(why);
            None
        }
    }
}

// Reads to the file's end, or until the buffer is full. A failure is told.
pub fn read_all(input: Input<'_>, out: &mut [u8]) -> Option<usize>
    ensures { LoadedIn out.new result }
{
    let mut n = 0;
    // Stays a while: the step differs from turn to turn.
    while n < out.len() {
        let more = read_some(input, &mut out[n..])?;
        if more == 0 {
            return Some(n);
        }
        n += more;
    }
    Some(n)
}

// Why an argument is no name of a file.
fn no_name(why: FillError) -> Error {
    match why {
        FillError::TooLong => Error::from_raw_os_error(TOO_LONG),
        FillError::NotPresent => Error::from_raw_os_error(NOT_THERE),
    }
}

// The name that an argument gives to a file; one that is longer than the buffer is told, by what it is the name of.
pub fn load_name<R: Env>(
    rt: &R,
    errors: Stderr,
    i: usize,
    what: &[u8],
    out: &mut [u8],
) -> Option<usize>
    ensures { LoadedIn out.new result }
{
    match rt.arg(i, out) {
        Ok(n) => Some(n),
        Err(why) => {
            message::failed(errors, what, no_name(why));
            None
        }
    }
}
