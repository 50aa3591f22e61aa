// What --check prints of a file, and the bytes of one that an argument names.
#![tactic(auto)]

pub mod file; // the bytes of a file, whole
mod report; // a report and its buffer
pub mod su; // what is printed of a su file
pub mod table; // what is printed of a table
