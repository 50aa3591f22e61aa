// Bytes put behind one another into a lent buffer.
#![tactic(auto)]

pub mod behind; // bytes behind those put before
pub mod decimal; // a number in decimal digits
