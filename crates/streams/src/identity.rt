// Which file an open one is, whatever name it was opened by.
ghost use Rattle.std.specs.Prelude.{◌≡◌, false};
ghost use Rattle.streams.specs.Contract.{regular_mode, same_file};

use super::name::path_of;
use std::fs::{File, Metadata};
use std::os::unix::fs::MetadataExt;
use std::rt::Files;
use std::{fs, io};

// The kind of a file is one of sixteen in its mode, above twelve bits of permissions.
const KINDS: u32 = 16;

const KIND: u32 = 4096;

const REGULAR: u32 = 8;

// The name by which the system knows the file of standard input.
const INPUT: &str = "/proc/self/fd/0";

// A file's device and its number there.
#[derive(Clone, Copy)]
pub struct Identity {
    pub device: u64,
    pub number: u64,
    // Whether it is a regular file: no directory, pipe or device.
    pub regular: bool,
}

impl Identity {
    // Of a file that is not known.
    pub fn unknown() -> Identity
        ensures { result.regular ≡ false }
    {
        Identity {
            device: 0,
            number: 0,
            regular: false,
        }
    }

    // Whether both are one regular file.
    #[tactic(auto, unfolding(crate::specs::Contract::same_file))]
    pub fn is_same(self, other: Identity) -> bool
        ensures { result ≡ same_file self other }
    {
        self.regular && other.regular && self.device == other.device && self.number == other.number
    }
}

// Whether a mode is that of a regular file.
#[tactic(auto, unfolding(crate::specs::Contract::regular_mode))]
fn is_regular_mode(mode: u32) -> bool
    ensures { result ≡ regular_mode mode }
{
    mode / KIND % KINDS == REGULAR
}

// Whether it is known to be a regular file.
fn is_regular(status: &Metadata) -> bool {
    is_regular_mode(status.mode())
}

// What the system answered of a file; one that it tells nothing of is not regular.
fn identity_in(answered: io::Result<Metadata>) -> Identity {
    let Ok(status) = answered else {
        return Identity::unknown();
    };
    Identity {
        device: status.dev(),
        number: status.ino(),
        regular: is_regular(&status),
    }
}

// An open file; one that the system tells nothing of is not regular.
pub fn identify(file: &File) -> Identity {
    identity_in(file.metadata())
}

// The same of the file that standard input is.
pub fn identify_input<R: Files>(rt: &R) -> Identity {
    identity_in(fs::metadata(rt, INPUT))
}

// Whether there is a file of this name that is no regular one. It is not opened, since that of a pipe may wait for ever.
pub fn is_special<R: Files>(rt: &R, name: &[u8]) -> bool {
    let Ok(path) = path_of(name) else {
        return false;
    };
    fs::metadata(rt, path).is_ok_and(|status| !is_regular(&status))
}
