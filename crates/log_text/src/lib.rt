// What is printed of a log.
#![tactic(auto)]

mod block; // the lines of the records of a block, without a system call
pub mod print; // the printed line of a record
pub mod show; // the printed lines of a whole log
