// All lines of a file, each once, every newline ending one.
ghost use Rattle.std.specs.Prelude.{◌≡◌};
ghost use Rattle.suauth.specs.Meaning.{settled, lines_give};
ghost use Rattle.suauth.specs.Contract.{question_in};

use super::rule::line_tells;
use super::{Action, SuAnswer};
use line::ends::{Continuation, LineEnd, line_end};

// The first rule that applies: its line and what it says.
#[derive(Clone, Copy)]
pub struct Decision {
    pub line: usize,
    pub action: Action,
}

// The answer where no line is left.
fn answer_by(decided: Option<Decision>) -> SuAnswer
    ensures { result ≡ settled (Ok decided) }
{
    let Some(decision) = decided else {
        return SuAnswer::NoRule;
    };
    let line = decision.line;
    match decision.action {
        Action::Deny => SuAnswer::Deny(line),
        Action::NoPassword => SuAnswer::NoPassword(line),
        Action::OwnPassword => SuAnswer::OwnPassword(line),
    }
}

// A malformed line, or one that does not end, refuses the file, also behind the line that decides.
pub fn read_lines(file: &[u8], target: &[u8], user: &[u8], groups: &[u8]) -> SuAnswer
    ensures { result ≡ settled (lines_give (question_in target.now user.now groups.now) file.now) }
{
    let mut decided = None;
    let mut from = 0;
    let mut number = 1;
    // Stays a while: where a line ends differs from turn to turn.
    while from < file.len() {
        let Some(LineEnd { end, lines }) = line_end(file, from, Continuation::Never) else {
            return SuAnswer::CutShort(from);
        };
        let Ok(told) = line_tells(&file[from..end - 1], target, user, groups) else {
            return SuAnswer::MalformedLine(from);
        };
        decided = decided.or(told.map(|action| Decision {
            line: number,
            action,
        }));
        from = end;
        number += lines;
    }
    answer_by(decided)
}
