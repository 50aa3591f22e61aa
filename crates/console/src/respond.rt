// The printed line for a question line, from a table, and the record of its answer.
ghost use Rattle.console.specs.Contract.{Answers, Responds};

use super::print::put_answer;
use super::question_line::{QuestionLine, read_question_line};
use answer::Answer;
use answer::call::answer;
use question::{Age, WeekMinute};
use record::bytes_recorded;
use record::decision::record_answer;

// How much of a response was written.
#[derive(Clone, Copy)]
pub struct Written {
    // How many bytes of the line, the newline counted.
    pub line: usize,
    // How many bytes of the record: eight, or none.
    pub record: usize,
}

// The printed line for a question line.
#[derive(Drop)]
pub struct Response;

impl Response {
    // The least bytes of the lent buffer.
    pub const BUFFER: usize = 2048;
}

// The answer to a question line, and the minute and the age that it asks with.
#[derive(Drop)]
pub struct Answered {
    pub answer: Answer,
    pub minute: WeekMinute,
    pub last: Option<Age>,
}

// The answer to a question line, with its strings in the lent buffer.
pub fn answer_line(table: &[u8], line: &[u8], buffer: &mut [u8]) -> Answered
    ensures { Answers table.now line.now buffer.old buffer.new result }
{
    let mut scratch = [0u8; QuestionLine::BYTES];
    let Some(pieces) = read_question_line(line, &mut scratch) else {
        return Answered {
            answer: Answer::MalformedQuestion,
            minute: WeekMinute(0),
            last: None,
        };
    };
    let strings = &scratch[..];
    let command = pieces.command;
    let user = pieces.user;
    let list = pieces.list;
    let host = pieces.host;
    let minute = pieces.minute;
    let last = pieces.last;
    let groups = pieces.groups;
    let args = pieces.args;
    let told = answer(
        table,
        &line[0..command],
        &line[command + 1..user],
        &strings[0..groups],
        &line[list + 1..host],
        minute,
        last,
        &strings[groups..args],
        buffer,
    );
    Answered {
        answer: told,
        minute,
        last,
    }
}

// One question line, without its newline, is answered by one printed line; eight bytes that are lent for the log get the
// record of the answer. None: the lent buffer has under 2,048 bytes, and nothing was written.
pub fn respond(table: &[u8], line: &[u8], out: &mut [u8], log: &mut [u8]) -> Option<Written>
    ensures { Responds table.now line.now out.old out.new log.old log.new result }
{
    if out.len() < Response::BUFFER {
        return None;
    }
    let mut buffer = [0u8; Answer::BUFFER];
    let answered = answer_line(table, line, &mut buffer);
    let told = answered.answer;
    let minute = answered.minute;
    let last = answered.last;
    let written = put_answer(told, &buffer, out)?;
    let recorded = record_answer(told, minute, last, log);
    Some(Written {
        line: written,
        record: bytes_recorded(recorded),
    })
}
