// The fields of a line that is an entry: its first fault, whether it accepts, and what it answers where it decides.
#![tactic(auto)]

pub mod decide; // what the deciding entry answers
mod own; // the deciding entry's own options and argument patterns
pub mod read; // the fields from left to right
