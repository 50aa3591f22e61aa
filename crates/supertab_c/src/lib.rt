// The calls for C and for whoever calls by C's ABI (include/supertab.h): numbers and lent slices in, a number out.
#![tactic(auto)]

mod asked; // a minute and an age as a caller in C gives them
pub mod call; // the answer to a question
pub mod log_figures; // the two calls on figures of log records
pub mod log_record; // the two calls on log records
mod report; // the report: 24 numbers beside the answer's number
pub mod su; // the answer to a question from a su file
