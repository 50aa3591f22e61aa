// The program's arguments, files and standard streams.
#![tactic(auto)]

pub mod argument; // the bytes of an argument
pub mod buffers; // zeros that bytes are read into
pub mod identity; // which file an open one is
pub mod input; // bytes from a file, and the name of one
pub mod message; // lines on standard error
pub mod name; // the name of a file, and the file opened by it
pub mod standard; // the three standard streams
pub mod standard_output; // bytes on standard output
