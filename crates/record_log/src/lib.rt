// The log of the program: the file that records are appended to.
#![tactic(auto)]

pub mod appended; // what was handed to the file
pub mod file; // the log and its records that wait
pub mod opening; // the file looked at before it is opened for appending
mod recognise; // whether the bytes of a file make it a log
