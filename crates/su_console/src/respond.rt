// The printed line for a question line, from a su file.
ghost use Rattle.std.specs.Prelude.{◌≡◌};
ghost use Rattle.su_console.specs.QuestionLine.{su_asked_in};
ghost use Rattle.su_console.specs.Response.{su_answer_for};
ghost use Rattle.su_console.specs.Contract.{SuResponds};

use super::print::put_su_answer;
use super::question_line::read_su_question_line;
use console::question_line::QuestionLine;
use console::respond::{Response, Written};
use suauth::{SuAnswer, su_answer};

// The answer to a question line.
pub fn answer_su_line(file: &[u8], line: &[u8]) -> SuAnswer
    ensures { result ≡ su_answer_for file.now (su_asked_in line.now) }
{
    let mut scratch = [0u8; QuestionLine::BYTES];
    let Some(pieces) = read_su_question_line(line, &mut scratch) else {
        return SuAnswer::MalformedQuestion;
    };
    let strings = &scratch[..];
    let target = pieces.target;
    let user = pieces.user;
    let groups = pieces.groups;
    su_answer(
        file,
        &line[0..target],
        &line[target + 1..user],
        &strings[0..groups],
    )
}

// One question line, without its newline, is answered by one printed line; no record is made of it. None: the lent
// buffer has under 2,048 bytes, and nothing was written.
pub fn respond_su(file: &[u8], line: &[u8], out: &mut [u8]) -> Option<Written>
    ensures { SuResponds file.now line.now out.old out.new result }
{
    if out.len() < Response::BUFFER {
        return None;
    }
    let written = put_su_answer(answer_su_line(file, line), out)?;
    Some(Written {
        line: written,
        record: 0,
    })
}
