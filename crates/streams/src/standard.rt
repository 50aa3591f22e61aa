// The three standard streams.
use std::io::{Stderr, Stdin, Stdout};

// What the system lends to a program. Each is a permission, and none has a buffer.
#[derive(Clone, Copy)]
pub struct Streams {
    pub input: Stdin,
    pub output: Stdout,
    pub errors: Stderr,
}
