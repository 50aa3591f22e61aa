// The name of a file, and the file opened by it.
ghost use Rattle.std.specs.Prelude.{◌≡◌, IfOk};

use std::fs::{File, OpenOptions};
use std::io;
use std::io::{Error, ErrorKind};
use std::rt::Files;

// The name as the library takes it: its bytes, which have to be UTF-8.
pub fn path_of(name: &[u8]) -> io::Result<&str>
    ensures { IfOk result (λ path. path.now ≡ name.now) }
{
    match std::str::from_utf8(name) {
        Ok(path) => Ok(path),
        Err(_) => Err(Error::from(ErrorKind::InvalidFilename)),
    }
}

// The file of this name, for reading.
pub fn open_read<R: Files<File = File>>(rt: &R, name: &[u8]) -> io::Result<File> {
    OpenOptions::new().read(true).open(rt, path_of(name)?)
}

// The same for appending: each write lands where the file ends by then.
pub fn open_append<R: Files<File = File>>(rt: &R, name: &[u8]) -> io::Result<File> {
    OpenOptions::new().append(true).open(rt, path_of(name)?)
}

// Makes the file of this name, which must not be there.
pub fn create<R: Files<File = File>>(rt: &R, name: &[u8]) -> io::Result<File> {
    OpenOptions::new()
        .write(true)
        .create_new(true)
        .open(rt, path_of(name)?)
}
