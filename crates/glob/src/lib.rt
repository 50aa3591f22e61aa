// Brace-free patterns: sets, and what one matches.
#![tactic(auto)]

pub mod matcher; // what a brace-free pattern matches
pub mod set; // the bytes between brackets
