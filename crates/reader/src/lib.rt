// One control line, from the old state to the new.
#![tactic(auto)]

pub mod control_line; // what a control line does
mod conditional; // whether the rest of an `:if` is taken
pub mod define; // the name and the text of a `:define`, and where it goes
mod global; // the options of a `:global`
pub mod state; // the state but for the variables, by value
mod word; // the word that a line with a colon begins with
