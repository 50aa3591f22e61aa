// The bytes of an argument.
ghost use Rattle.streams.specs.Contract.{IsPrefixLen};

use std::env::FillError;
use std::rt::Env;

// The bytes of an argument; one that is longer fills the buffer.
pub fn argument<R: Env>(rt: &R, i: usize, out: &mut [u8]) -> usize
    ensures { IsPrefixLen result out.new }
{
    match rt.arg(i, out) {
        Ok(n) => n,
        Err(FillError::TooLong) => out.len(),
        Err(FillError::NotPresent) => 0,
    }
}
