// The call for C. Its prototype and its meaning for a user stand in include/supertab.h.
ghost use Rattle.std.specs.Prelude.{◌≡◌};
ghost use Rattle.supertab_c.specs.Call.{asked_by, called, call_of};

use super::asked::{last_of, minute_of};
use super::report::{Report, numbers_of, put_numbers};
use answer::call::answer;
use answer::number::number_of;

// Answers a question from a table: the result is the number of the answer; the buffer and the report hold what is beside it.
#[unsafe(no_mangle)]
pub extern "C" fn supertab_answer(
    table: &[u8],
    command: &[u8],
    user: &[u8],
    groups: &[u8],
    host: &[u8],
    minute: u32,
    authenticated: bool,
    age: i32,
    args: &[u8],
    buffer: &mut [u8],
    report: &mut [i64],
) -> u8
    ensures { called result buffer.new report.new ≡ call_of
        table.now
        (asked_by command.now user.now groups.now host.now minute authenticated age args.now)
        buffer.old report.old }
{
    if report.len() < Report::LENGTH {
        return Report::SHORT;
    }
    let week_minute = minute_of(minute);
    let last = last_of(authenticated, age);
    let told = answer(
        table,
        command,
        user,
        groups,
        host,
        week_minute,
        last,
        args,
        buffer,
    );
    let numbers = numbers_of(told);
    put_numbers(numbers, report);
    number_of(told)
}
