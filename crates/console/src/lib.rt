// The console: one question line in, one printed line out.
#![tactic(auto)]

pub mod print; // the printed line of an answer
pub mod question_line; // what a question line asks
pub mod respond; // the printed line for a question line, from a table
