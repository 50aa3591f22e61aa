// The whole call: the buffer, the question, then the table.
ghost use Rattle.answer.specs.Answer.{result as result_with};
ghost use Rattle.answer.specs.Contract.{asking, Promised};

use super::Answer;
use super::table::read_table;
use question::form::question_is_good;
use question::{Age, WeekMinute};

// The answer to a question from a table. Groups and arguments are zero-ended strings one after the other; the buffer is
// changed by a permit only, with and without a password.
pub fn answer(
    table: &[u8],
    command: &[u8],
    user: &[u8],
    groups: &[u8],
    host: &[u8],
    minute: WeekMinute,
    last: Option<Age>,
    args: &[u8],
    buffer: &mut [u8],
) -> Answer
    ensures { Promised
        table.now
        (asking command.now user.now groups.now host.now minute last args.now)
        buffer.old (result_with result buffer.new) }
{
    if buffer.len() < Answer::BUFFER {
        return Answer::SmallBuffer;
    }
    if !question_is_good(command, user, groups, host, minute, args) {
        return Answer::MalformedQuestion;
    }
    read_table(
        table, command, user, groups, host, minute, last, args, buffer,
    )
}
