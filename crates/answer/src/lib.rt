// The answer to a question from a table.
#![tactic(auto)]

pub mod call; // the whole call
mod grant; // what is told and written beside a permit
pub mod number; // the number of every answer
mod table; // the control lines of a table, one after the other

use fault::Cause;
use options::span::Span;

// What is told beside a permit. The path and the four ids are in the buffer.
#[derive(Clone, Copy)]
pub struct Granted {
    // The number of the deciding control line's first physical line.
    pub line: usize,
    // Where each string ends in the buffer, just after its zero byte; the last end is how many bytes were written.
    pub path: usize,
    pub uid: usize,
    pub euid: usize,
    pub gid: usize,
    pub egid: usize,
    pub auth: bool,
    pub timeout: Option<i32>,
    // How many arguments are allowed.
    pub nargs: Option<Span>,
}

#[derive(Clone, Copy)]
pub enum Answer {
    Permit(Granted),
    // Permit after password.
    Password(Granted),
    NoEntry,
    // Each of these with the deciding line.
    StoppedByNargs(usize),
    StoppedByArgument(usize),
    StoppedByPath(usize),
    MalformedQuestion,
    LongTable,
    // With the byte's place.
    RefusedByte(usize),
    // With the place where the cut line begins.
    CutShort(usize),
    // With the cause, and the place where the faulty line begins.
    RefusedLine(Cause, usize),
    SmallBuffer,
}

impl Answer {
    // The least bytes of an answer buffer.
    pub const BUFFER: usize = 2048;
}
