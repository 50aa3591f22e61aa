// Bytes and slices: what every layer above shares.
#![tactic(auto)]

pub mod alphabet; // which bytes a text may hold
pub mod buffer; // bytes put into a lent buffer
pub mod case; // a letter in its other case
pub mod class; // the class of a byte, and tests on one byte
pub mod number; // decimal numbers
pub mod quote; // quotes
pub mod slice; // comparing and searching slices
pub mod split; // the parts between the bytes of one kind
