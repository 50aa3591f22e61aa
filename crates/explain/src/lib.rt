// What is printed for a table that is checked: that it is ok, or what is wrong with it, where, and what to do.
#![tactic(auto)]

mod place; // where a place of a table stands
pub mod report; // what is printed
mod row; // the physical line and the line of the caret
mod words; // the words of each cause
