// The question: its types with their limits, and whether one is as document 01 wants it.
#![tactic(auto)]

pub mod form; // whether a question is good
pub mod password; // whether a password is needed
pub mod strings; // zero-ended strings, one after the other

// A command, as bytes.
#[derive(Drop)]
pub struct Command;

impl Command {
    // The most bytes of one.
    pub const BYTES: usize = 256;
}

// A user, as bytes; a group has the same form.
#[derive(Drop)]
pub struct User;

impl User {
    // The most bytes of one.
    pub const BYTES: usize = 32;
}

// A host, as bytes.
#[derive(Drop)]
pub struct Host;

impl Host {
    // The most bytes of one.
    pub const BYTES: usize = 255;
}

// The groups of a user, as zero-ended strings.
#[derive(Drop)]
pub struct Groups;

impl Groups {
    // The most groups.
    pub const MOST: usize = 32;
}

// An argument, as bytes.
#[derive(Drop)]
pub struct Argument;

impl Argument {
    // The most bytes of one.
    pub const BYTES: usize = 256;
}

// The arguments, as zero-ended strings.
#[derive(Drop)]
pub struct Arguments;

impl Arguments {
    // The most arguments.
    pub const MOST: usize = 64;
}

// A minute of the week; Monday 0:00 is 0. It is never added to an age or compared with one.
#[derive(Clone, Copy)]
pub struct WeekMinute(pub u16);

impl WeekMinute {
    // The minutes of a week; a minute of the week is below it.
    pub const LIMIT: u16 = 10080;
}

// Minutes of age, below zero where the clock went back.
#[derive(Clone, Copy)]
pub struct Age(pub i32);
