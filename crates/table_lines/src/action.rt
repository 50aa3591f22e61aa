// What one control line does: its fields are read so far as it takes to know.
ghost use Rattle.table_lines.specs.Contract.{LineDoes};

use entry::entry::PathPlace;
use entry_line::read::read_entry;
use fault::Cause;
use line::scan::{ControlLine, scan_line};
use question::WeekMinute;
use reader::control_line::{Action, control_line};
use reader::state::Reader;
use variables::Variables;
use variables::field::FieldText;

// What is left to do with a line. Its number of fields and the first one of those that count come first.
#[derive(Clone, Copy)]
pub enum LineAction {
    // Also for an entry that does not decide.
    Nothing,
    Define(usize, usize),
    Global(usize, usize),
    // With the place of the path.
    Decide(usize, usize, PathPlace),
}

// What a line does. Its fields are left in the lent buffers.
pub fn line_action<'a>(
    line: &[u8],
    text: &mut [u8; ControlLine::JOINED],
    ends: &mut [usize; ControlLine::FIELDS],
    scratch: &mut [u8; FieldText::BYTES],
    shell: bool,
    judging: bool,
    command: &[u8],
    user: &[u8],
    groups: &[u8],
    host: &[u8],
    minute: WeekMinute,
    bytes: &'a [u8; Variables::BYTES],
    sizes: &'a [usize; Variables::SIZES],
    names: usize,
) -> Result<LineAction, Cause>
    ensures { LineDoes
        line.now text.old text.new ends.old ends.new
        shell judging command.now user.now groups.now host.now minute
        bytes.now sizes.now names result }
{
    if line.is_empty() {
        return Ok(LineAction::Nothing);
    }
    let count = scan_line(line, &mut text[..], ends)?;
    let action = control_line(
        &text[..],
        ends,
        count,
        0,
        Reader::IF_DEPTH,
        shell,
        user,
        host,
        bytes,
        sizes,
        names,
    )?;
    match action {
        Action::Nothing => Ok(LineAction::Nothing),
        Action::Define(from) => Ok(LineAction::Define(count, from)),
        Action::Global(from) => Ok(LineAction::Global(count, from)),
        Action::Entry(from) => {
            let accepted = read_entry(
                &text[..],
                ends,
                count,
                from,
                judging,
                command,
                user,
                groups,
                host,
                minute,
                bytes,
                sizes,
                names,
                scratch,
            )?;
            match accepted {
                None => Ok(LineAction::Nothing),
                Some(place) => Ok(LineAction::Decide(count, from, place)),
            }
        }
    }
}
