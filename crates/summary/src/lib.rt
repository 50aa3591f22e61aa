// What --figures prints: the figures of a whole log, one on a line, the name first.
#![tactic(auto)]

mod bar; // the bar beside a count
pub mod gather; // the figures of an open log, read block by block
pub mod lines; // the printed lines
