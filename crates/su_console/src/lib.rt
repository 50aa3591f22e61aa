// What is printed about a su file: one line for each question line, and what is wrong with a file that is checked.
#![tactic(auto)]

pub mod print; // the printed line of an answer
pub mod question_line; // what a question line asks
pub mod report; // what is printed for a file that is checked
pub mod respond; // the printed line for a question line, from a file
