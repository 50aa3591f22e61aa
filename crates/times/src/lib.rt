// Time conditions: time items, the day names, and the rule over several items.
#![tactic(auto)]

pub mod clock; // clock times
pub mod day; // day names
pub mod item; // time items, and the minutes that they match
mod parts; // a text parted at a byte
pub mod period; // the minutes of the day of an item
