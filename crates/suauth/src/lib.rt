// The answer to a question from a su file.
#![tactic(auto)]

mod ids; // one side of a rule
mod lines; // all lines of a file
mod names; // a list of names
mod rule; // one line
mod trim; // the blanks at a line's two ends

ghost use Rattle.std.specs.Prelude.{◌≡◌};
ghost use Rattle.suauth.specs.Meaning.{question_of};
ghost use Rattle.suauth.specs.Contract.{asking, is_question, Promised};

use line::whole::{Unaccepted, acceptance_of};
use lines::read_lines;
use question::User;
use question::form::{Listed, name_is_good, strings_are_good};

// What a rule of a su file says.
#[derive(Clone, Copy, PartialEq, Eq)]
pub enum Action {
    Deny,
    NoPassword,
    OwnPassword,
}

#[derive(Clone, Copy)]
pub enum SuAnswer {
    // Each of these with the number of the deciding line.
    Deny(usize),
    NoPassword(usize),
    OwnPassword(usize),
    NoRule,
    MalformedQuestion,
    LongFile,
    // The place of the byte.
    RefusedByte(usize),
    // Where the cut line begins.
    CutShort(usize),
    // Where the malformed line begins.
    MalformedLine(usize),
}

// Whether the bytes ask a question.
#[tactic(auto, using(crate::proofs::AnswerLaws::question_is))]
fn question_is_good(target: &[u8], user: &[u8], groups: &[u8]) -> bool
    ensures { result ≡ is_question (question_of (asking target.now user.now groups.now)) }
{
    name_is_good(target, User::BYTES)
        && name_is_good(user, User::BYTES)
        && strings_are_good(groups, Listed::Groups)
}

// The answer for a user who has these groups and wants to be the target. Groups are zero-ended strings one after the other.
pub fn su_answer(file: &[u8], target: &[u8], user: &[u8], groups: &[u8]) -> SuAnswer
    ensures { Promised file.now (asking target.now user.now groups.now) result }
{
    if !question_is_good(target, user, groups) {
        return SuAnswer::MalformedQuestion;
    }
    match acceptance_of(file) {
        Err(Unaccepted::Long) => SuAnswer::LongFile,
        Err(Unaccepted::RefusedAt(place)) => SuAnswer::RefusedByte(place),
        Ok(()) => read_lines(file, target, user, groups),
    }
}
