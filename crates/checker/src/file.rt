// The bytes of a table or another file of its size, whole.
ghost use Rattle.std.specs.Prelude.{◌+◌, ◌≡◌, length};
ghost use Rattle.line.specs.Line.{table_limit};
ghost use Rattle.streams.specs.Contract.{LoadedIn};

use line::whole::WholeText;
use std::fs::File;
use std::rt::{Env, Files};
use streams::buffers::zeros;
use streams::identity::{Identity, identify};
use streams::input::{Input, load_name, read_all};
use streams::message;
use streams::name::open_read;
use streams::standard::Streams;

// One byte more than the file may have, which is enough to see that it is too long.
pub const FILE: usize = WholeText::BYTES + 1;

// Room for the file.
pub fn file_buffer() -> [u8; FILE]
    ensures { table_limit + 1 ≡ length result }
{
    zeros::<FILE>()
}

// The longest name of a file.
pub const NAME: usize = 4096;

// The bytes of an open file, as many as there is room for; a failure is told.
pub fn load_from(input: Input<'_>, out: &mut [u8]) -> Option<usize>
    ensures { LoadedIn out.new result }
{
    read_all(input, out)
}

// What was read of a file, and which file it is.
#[derive(Clone, Copy)]
pub struct FileRead {
    pub loaded: Option<usize>,
    pub identity: Identity,
}

// The bytes of the file of this name, with its identity; a failure is told.
fn load_known<R: Files<File = File>>(
    rt: &R,
    streams: Streams,
    name: &[u8],
    out: &mut [u8],
) -> FileRead
    ensures { LoadedIn out.new result.loaded }
{
    match open_read(rt, name) {
        Ok(file) => {
            let identity = identify(&file);
            let loaded = load_from(Input::of_file(streams, &file, name, b""), out);
            FileRead { loaded, identity }
        }
        Err(why) => {
            message::failed(streams.errors, name, why);
            FileRead {
                loaded: None,
                identity: Identity::unknown(),
            }
        }
    }
}

// The bytes of the file of this name; a failure is told.
pub fn load_file<R: Files<File = File>>(
    rt: &R,
    streams: Streams,
    name: &[u8],
    out: &mut [u8],
) -> Option<usize>
    ensures { LoadedIn out.new result }
{
    let read = load_known(rt, streams, name, out);
    read.loaded
}

// The bytes of the file of this name, `-` for standard input; a failure is told.
pub fn load_named<R: Files<File = File>>(
    rt: &R,
    streams: Streams,
    name: &[u8],
    out: &mut [u8],
) -> Option<usize>
    ensures { LoadedIn out.new result }
{
    if name == b"-".as_slice() {
        return load_from(Input::standard(streams), out);
    }
    load_file(rt, streams, name, out)
}

// The bytes of the file that an argument names, with its identity; a failure is told, that of the name by what it is the name of.
pub fn load_argument<R: Env + Files<File = File>>(
    rt: &R,
    streams: Streams,
    i: usize,
    what: &[u8],
    out: &mut [u8],
) -> FileRead
    ensures { LoadedIn out.new result.loaded }
{
    let mut name = zeros::<NAME>();
    let Some(n) = load_name(rt, streams.errors, i, what, &mut name) else {
        return FileRead {
            loaded: None,
            identity: Identity::unknown(),
        };
    };
    load_known(rt, streams, &name[..n], out)
}

// The same without its identity.
pub fn load<R: Env + Files<File = File>>(
    rt: &R,
    streams: Streams,
    i: usize,
    what: &[u8],
    out: &mut [u8],
) -> Option<usize>
    ensures { LoadedIn out.new result }
{
    let read = load_argument(rt, streams, i, what, out);
    read.loaded
}
