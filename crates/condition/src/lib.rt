// Conditions: one field's users, groups or times, judged alternative by alternative.
#![tactic(auto)]

pub mod rightmost; // the rightmost alternative that applies decides
pub mod prefix; // what a condition asks for
pub mod judge; // one alternative, judged
pub mod condition; // one field
