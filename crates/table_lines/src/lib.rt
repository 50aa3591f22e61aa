// The control lines of a table, one after the other: the first fault, a line that is cut, or the decision.
#![tactic(auto)]

mod action; // what one line does
pub mod lines; // the loop over the lines

use entry::verdict::Verdict;
use fault::Cause;
use options::set::OptionSet;

// The decision: the deciding line, its verdict, the bytes of the path and the options in force.
#[derive(Drop)]
pub struct Decision {
    pub line: usize,
    pub verdict: Verdict,
    pub path: usize,
    pub options: OptionSet,
}

// Why the lines give no answer.
#[derive(Clone, Copy)]
pub enum LinesFault {
    // The cause, and the place where the faulty line begins.
    Refused(Cause, usize),
    // The place where the line begins that does not end.
    Cut(usize),
}
