// The log that records are appended to. A file is looked at before it is opened for that, so that no table is taken for a log.
ghost use Rattle.std.specs.Prelude.{ℕ, ◌%◌, ◌≡◌, ◌≤◌, true, List, [], length, take, IfSome};
ghost use Rattle.record.specs.Layout.{record_length};
ghost use Rattle.record_log.specs.Recognised.{seen_in, takes_records};
ghost use Rattle.streams.specs.Contract.{LoadedIn};
ghost use Rattle.record_log.specs.Contract.{Looked, LooksOn, LooksAt};

use super::file::Log;
use super::recognise::{Kind, Seen};
use std::fs::File;
use std::io;
use std::io::{ErrorKind, Stderr};
use std::rt::Files;
use streams::buffers::zeros;
use streams::identity::{Identity, identify, identify_input, is_special};
use streams::input::{Input, read_all};
use streams::message;
use streams::name::{create, open_append, open_read};
use streams::standard::Streams;

// What follows where a file cannot be opened or read.
const NO_LOG: &[u8] = b"there is no log";

// How far a file has been looked at.
#[derive(Clone, Copy)]
struct Looking {
    seen: Seen,
    // Whether there is more to read.
    going: bool,
}

impl Looking {
    // Nothing has been read.
    fn start() -> Looking
        ensures { Looked [] result }
    {
        Looking {
            seen: Seen::nothing(),
            going: true,
        }
    }

    // The first n bytes of a block, which were read, are looked at; there is more to read where they fill it.
    fn on(self, block: &[u8], n: usize) -> Looking
        requires read { n ≤ length block.now }
        requires whole { length block.now % record_length ≡ 0 }
        requires going { self.going ≡ true }
        ensures { LooksOn (take n block.now) (length block.now) self result }
    {
        Looking {
            seen: self.seen.with_block(&block[..n]),
            going: n == block.len(),
        }
    }
}

// What a read told is looked at; none where it failed, which was told.
fn look_at(loaded: Option<usize>, block: &[u8], looking: Looking) -> Option<Looking>
    requires read { LoadedIn block.now loaded }
    requires whole { length block.now % record_length ≡ 0 }
    requires going { looking.going ≡ true }
    ensures { LooksAt loaded block.now looking result }
{
    Some(looking.on(block, loaded?))
}

// What is seen in the bytes of a file; none where a read failed, which was told. Nothing says that the file ends, so the
// turns are counted up to a number that no run comes to.
fn look_through(input: Input<'_>, block: &mut [u8]) -> Option<Seen>
    requires { length block.old % record_length ≡ 0 }
    ensures { IfSome result (λ seen. (bytes : List ℕ) × (seen ≡ seen_in bytes)) }
{
    let mut looking = Looking::start();
    for _ in 0..u64::MAX {
        if !looking.going {
            break;
        }
        let loaded = read_all(input, block);
        looking = look_at(loaded, block, looking)?;
    }
    Some(looking.seen)
}

// Whether records may follow what was found; if not, that is told.
#[tactic(auto, unfolding(crate::specs::Recognised::takes_records))]
fn is_welcome(kind: Kind, errors: Stderr, name: &[u8]) -> bool
    ensures { result ≡ takes_records kind }
{
    let words: &[u8] = match kind {
        Kind::Log => return true,
        Kind::Text => {
            b"a table may have every byte of it, so it is not appended to; the log comes before the table, --log LOG TABLE; name another log"
        }
        Kind::Other => {
            b"it holds something other than records, so it is not appended to; name another log"
        }
        Kind::Cut => {
            b"its length is no multiple of 8, so it is not appended to; name another log, or cut what is left of its last record"
        }
    };
    message::tell_about(errors, name, words);
    false
}

// Whether the bytes of an open file make it a log; if not, that is told.
fn has_records(streams: Streams, file: &File, name: &[u8]) -> bool {
    let mut block = zeros::<65536>();
    let input = Input::of_file(streams, file, name, NO_LOG);
    match look_through(input, &mut block) {
        Some(seen) => is_welcome(seen.kind(), streams.errors, name),
        None => false,
    }
}

// Whether records may be appended to this open file while the table is read; if not, that is told.
fn may_be_log<R: Files>(
    rt: &R,
    streams: Streams,
    file: &File,
    identity: Identity,
    name: &[u8],
    table: Identity,
) -> bool {
    if identity.is_same(table) {
        message::tell_about(
            streams.errors,
            name,
            b"it is the table that is read, so it is not appended to; name another log",
        );
        return false;
    }
    if identity.is_same(identify_input(rt)) {
        message::tell_about(
            streams.errors,
            name,
            b"the questions are read from it, so it is not appended to; name another log",
        );
        return false;
    }
    has_records(streams, file, name)
}

// Makes the file of this name, and opens it for reading; one that was made meanwhile is opened.
fn make<R: Files<File = File>>(rt: &R, name: &[u8]) -> io::Result<File> {
    match create(rt, name) {
        Err(why) if why.kind() != ErrorKind::AlreadyExists => Err(why),
        _ => open_read(rt, name),
    }
}

// The file of this name, for reading, which is made where it is missing.
fn open_or_make<R: Files<File = File>>(rt: &R, name: &[u8]) -> io::Result<File> {
    match open_read(rt, name) {
        Err(why) if why.kind() == ErrorKind::NotFound => make(rt, name),
        opened => opened,
    }
}

fn tell_special(errors: Stderr, name: &[u8]) {
    message::tell_about(
        errors,
        name,
        b"it is a directory, a pipe or a device, so it is not appended to; name a file",
    );
}

// The log of this name, if it is still the file that was looked at.
fn open_again<R: Files<File = File>>(
    rt: &R,
    errors: Stderr,
    name: &[u8],
    looked_at: Identity,
) -> Log
    ensures { result.waiting ≡ 0 }
{
    match open_append(rt, name) {
        Ok(file) => {
            if identify(&file).is_same(looked_at) {
                return Log::on(file);
            }
            message::tell_about(
                errors,
                name,
                b"another file has its name now, so it is not appended to; try again",
            );
        }
        Err(why) => message::failed_with(errors, name, NO_LOG, why),
    }
    Log::none()
}

// The log of this open file, if records may be appended to it.
fn open_looked_at<R: Files<File = File>>(
    rt: &R,
    streams: Streams,
    file: &File,
    name: &[u8],
    table: Identity,
) -> Log
    ensures { result.waiting ≡ 0 }
{
    let identity = identify(file);
    if !identity.regular {
        tell_special(streams.errors, name);
        return Log::none();
    }
    if !may_be_log(rt, streams, file, identity, name, table) {
        return Log::none();
    }
    open_again(rt, streams.errors, name, identity)
}

// The log of this name, for the answers of a table. One that cannot be opened, or is no log, is told and is not appended to.
// A pipe is not opened, since that may wait for ever.
pub fn open<R: Files<File = File>>(rt: &R, streams: Streams, name: &[u8], table: Identity) -> Log
    ensures { result.waiting ≡ 0 }
{
    if is_special(rt, name) {
        tell_special(streams.errors, name);
        return Log::none();
    }
    match open_or_make(rt, name) {
        Ok(file) => open_looked_at(rt, streams, &file, name, table),
        Err(why) => {
            message::failed_with(streams.errors, name, NO_LOG, why);
            Log::none()
        }
    }
}
