// Entries: their conditions, command patterns and path, and what the deciding one answers.
#![tactic(auto)]

pub mod entry; // an entry, field by field
pub mod own; // the options and argument patterns of the deciding entry
mod pair; // a command pattern and its path
pub mod path; // the path with the command put in
pub mod position; // where a field stands, and what it is there
pub mod verdict; // what the deciding entry answers
