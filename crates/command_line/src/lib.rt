// What the program's arguments ask for.
#![tactic(auto)]

mod operands; // what stands behind the options
mod options; // the options, which stand first
pub mod request; // what is asked for, or what is wrong
pub mod uses; // the request that the arguments make
pub mod word; // what one argument is where an option may stand
