// The loop over the control lines of a table. What is kept from line to line stands in its locals, since the variables are
// too large to be handed on for each line.
ghost use Rattle.table_lines.specs.Contract.{ReadsLines};

use super::action::{LineAction, line_action};
use super::{Decision, LinesFault};
use entry::path::Path;
use entry_line::decide::decide;
use line::ends::{LineEnd, control_end};
use line::scan::ControlLine;
use question::{Age, WeekMinute};
use reader::define::read_define;
use reader::state::Reader;
use variables::Variables;
use variables::field::FieldText;

// What the control lines of a table come to, for a good question: the decision, or none. The path of the decision is put
// into the lent buffer.
pub fn read_lines(
    table: &[u8],
    command: &[u8],
    user: &[u8],
    groups: &[u8],
    host: &[u8],
    minute: WeekMinute,
    last: Option<Age>,
    args: &[u8],
    path: &mut [u8; Path::BYTES],
) -> Result<Option<Decision>, LinesFault>
    ensures { ReadsLines
        table.now command.now user.now groups.now host.now
        minute last args.now path.new result }
{
    let mut variables = Variables::new();
    let mut reader = Reader::new();
    let mut decision = None;
    let mut scratch = [0u8; FieldText::BYTES];
    let mut text = [0u8; ControlLine::JOINED];
    let mut ends = [0usize; ControlLine::FIELDS];
    let mut at = 0;
    let mut number = 1;
    // Stays a while: where a line ends differs from turn to turn.
    while at < table.len() {
        let begin = at;
        let first = number;
        let Some(LineEnd { end, lines }) = control_end(table, begin) else {
            return Err(LinesFault::Cut(begin));
        };
        at = end;
        number += lines;
        match line_action(
            &table[begin..end - 1],
            &mut text,
            &mut ends,
            &mut scratch,
            reader.shell,
            decision.is_none(),
            command,
            user,
            groups,
            host,
            minute,
            &variables.bytes,
            &variables.sizes,
            variables.count,
        ) {
            Err(cause) => return Err(LinesFault::Refused(cause, begin)),
            Ok(LineAction::Nothing) => {}
            Ok(LineAction::Define(count, from)) => {
                let mut name = [0u8; FieldText::BYTES];
                let mut value = [0u8; FieldText::BYTES];
                match read_define(
                    &text,
                    &ends,
                    count,
                    from,
                    user,
                    host,
                    &variables.bytes,
                    &variables.sizes,
                    variables.count,
                    &mut name,
                    &mut value,
                ) {
                    Err(cause) => return Err(LinesFault::Refused(cause, begin)),
                    Ok(definition) => variables.store(
                        definition.place,
                        definition.names,
                        &name[..definition.name],
                        &value[..definition.text],
                    ),
                }
            }
            Ok(LineAction::Global(count, from)) => {
                match reader.global(
                    &text,
                    &ends,
                    count,
                    from,
                    user,
                    host,
                    args,
                    &variables.bytes,
                    &variables.sizes,
                    variables.count,
                ) {
                    Err(cause) => return Err(LinesFault::Refused(cause, begin)),
                    Ok(next) => reader = next,
                }
            }
            Ok(LineAction::Decide(count, from, place)) => {
                let decided = decide(
                    &text,
                    &ends,
                    count,
                    from,
                    place.field,
                    place.at,
                    reader.options,
                    reader.failures,
                    command,
                    user,
                    groups,
                    host,
                    minute,
                    last,
                    args,
                    &variables.bytes,
                    &variables.sizes,
                    variables.count,
                    &mut scratch,
                    path,
                );
                decision = Some(Decision {
                    line: first,
                    verdict: decided.verdict,
                    path: decided.path,
                    options: decided.options,
                });
            }
        }
    }
    Ok(decision)
}
