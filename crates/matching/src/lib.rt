// The one way to patterns for the layers above: how the pattern of a field is read, what it matches, and an alternative
// parted into a name and a host.
#![tactic(auto)]

pub mod alternative; // the name and the host of one alternative
pub mod field; // the pattern of a field
pub mod matcher; // what a pattern matches
