// The answer of a table: its length, its bytes, its control lines, then the decision.
ghost use Rattle.std.specs.Prelude.{◌≤◌, ◌≡◌, length};
ghost use Rattle.table_lines.specs.Contract.{decided_in, ended_by};
ghost use Rattle.answer.specs.Answer.{least_buffer, result as result_with};
ghost use Rattle.answer.specs.Meaning.{settled};
ghost use Rattle.answer.specs.Contract.{ReadsTable};

use super::Answer;
use super::grant::grant;
use entry::path::Path;
use entry::verdict::Verdict;
use line::whole::{Unaccepted, acceptance_of};
use question::{Age, WeekMinute};
use table_lines::lines::read_lines;
use table_lines::{Decision, LinesFault};

// The answer of a decision.
fn resolve(decision: Decision, path: &[u8; Path::BYTES], buffer: &mut [u8]) -> Answer
    ensures { least_buffer ≤ length buffer.old
        → result_with result buffer.new ≡ settled buffer.old (Ok (decided_in (Some decision) path.now)) }
{
    let line = decision.line;
    let options = decision.options;
    let all = &path[..];
    let written = &all[..decision.path.min(Path::BYTES)];
    match decision.verdict {
        Verdict::Nargs => Answer::StoppedByNargs(line),
        Verdict::Argument => Answer::StoppedByArgument(line),
        Verdict::Path => Answer::StoppedByPath(line),
        Verdict::Password => {
            grant(line, written, options, buffer).map_or(
                Answer::SmallBuffer,
                |g| Answer::Password(g),
            )
        }
        Verdict::Permit => {
            grant(line, written, options, buffer).map_or(Answer::SmallBuffer, |g| Answer::Permit(g))
        }
    }
}

// The answer of the lines: the first fault, a line that is cut, or the decision.
fn settle(
    read: Result<Option<Decision>, LinesFault>,
    path: &[u8; Path::BYTES],
    buffer: &mut [u8],
) -> Answer
    ensures { least_buffer ≤ length buffer.old
        → result_with result buffer.new ≡ settled buffer.old (ended_by path.now read) }
{
    match read {
        Err(LinesFault::Refused(cause, place)) => Answer::RefusedLine(cause, place),
        Err(LinesFault::Cut(place)) => Answer::CutShort(place),
        Ok(None) => Answer::NoEntry,
        Ok(Some(decision)) => resolve(decision, path, buffer),
    }
}

// The answer of a table to a good question: its length, its bytes, then its control lines.
pub fn read_table(
    table: &[u8],
    command: &[u8],
    user: &[u8],
    groups: &[u8],
    host: &[u8],
    minute: WeekMinute,
    last: Option<Age>,
    args: &[u8],
    buffer: &mut [u8],
) -> Answer
    ensures { ReadsTable
        table.now command.now user.now groups.now host.now
        minute last args.now buffer.old buffer.new result }
{
    match acceptance_of(table) {
        Err(Unaccepted::Long) => Answer::LongTable,
        Err(Unaccepted::RefusedAt(place)) => Answer::RefusedByte(place),
        Ok(()) => {
            let mut path = [0u8; Path::BYTES];
            let read = read_lines(
                table, command, user, groups, host, minute, last, args, &mut path,
            );
            settle(read, &path, buffer)
        }
    }
}
