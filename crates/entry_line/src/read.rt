// The fields of an entry from left to right, each replaced by its text.
ghost use Rattle.std.specs.Prelude.{◌≡◌, true, take};
ghost use Rattle.line.specs.Contract.{fields_in};
ghost use Rattle.question.specs.Contract.{strings_in};
ghost use Rattle.variables.specs.Contract.{scope_in, verbatim};
ghost use Rattle.condition.specs.Condition.{judge_of};
ghost use Rattle.entry_line.specs.Contract.{GivesText, AddsWritten, ReadsEntry, ActsOn};

use entry::entry::{Entry, PathPlace};
use fault::Cause;
use line::fields::{field, start_of};
use line::scan::ControlLine;
use question::WeekMinute;
use variables::Variables;
use variables::field::{FieldText, field_text, is_verbatim};

// Whether a text has no quote and no `$` up to a place.
fn is_plain(text: &[u8], reach: usize) -> bool
    ensures { result ≡ verbatim (take reach text.now) }
{
    is_verbatim(&text[..reach.min(text.len())])
}

// The text to add for a field: one that is its own text is given as it is, whatever its length, and nothing is copied.
fn text_of<'a, 'b>(
    bytes: &'a [u8; Variables::BYTES],
    sizes: &'a [usize; Variables::SIZES],
    names: usize,
    user: &[u8],
    host: &[u8],
    field: &'b [u8],
    known: bool,
    scratch: &'b mut [u8; FieldText::BYTES],
) -> Result<&'b [u8], Cause>
    requires { known ≡ true → verbatim field.now ≡ true }
    ensures { GivesText
        (scope_in user.now host.now bytes.now sizes.now names)
        field.now result }
{
    if known || is_verbatim(field) {
        return Ok(field);
    }
    let n = field_text(bytes, sizes, names, user, host, field, scratch)?;
    Ok(&scratch[..n])
}

// One field more, as it is written.
fn add_field<'a>(
    entry: Entry,
    index: usize,
    field: &[u8],
    known: bool,
    judging: bool,
    command: &[u8],
    user: &[u8],
    groups: &[u8],
    host: &[u8],
    minute: WeekMinute,
    bytes: &'a [u8; Variables::BYTES],
    sizes: &'a [usize; Variables::SIZES],
    names: usize,
    scratch: &mut [u8; FieldText::BYTES],
) -> Result<Entry, Cause>
    requires { known ≡ true → verbatim field.now ≡ true }
    ensures { AddsWritten
        (judge_of user.now (strings_in groups.now) host.now minute.0)
        (scope_in user.now host.now bytes.now sizes.now names)
        judging command.now index field.now entry result }
{
    let text = text_of(bytes, sizes, names, user, host, field, known, scratch)?;
    entry.add(index, text, judging, command, user, groups, host, minute)
}

// All fields from one on, and what concerns the whole entry.
fn read_fields<'a, 'b>(
    text: &'a [u8],
    ends: &'a [usize; 64],
    count: usize,
    from: usize,
    judging: bool,
    command: &[u8],
    user: &[u8],
    groups: &[u8],
    host: &[u8],
    minute: WeekMinute,
    bytes: &'b [u8; Variables::BYTES],
    sizes: &'b [usize; Variables::SIZES],
    names: usize,
    scratch: &mut [u8; FieldText::BYTES],
) -> Result<Entry, Cause>
    ensures { ReadsEntry
        (judge_of user.now (strings_in groups.now) host.now minute.0)
        (scope_in user.now host.now bytes.now sizes.now names)
        (fields_in text.now ends.now count)
        from judging command.now result }
{
    let most = count.min(ControlLine::FIELDS);
    let reach = start_of(ends, most);
    let plain = is_plain(text, reach);
    let mut entry = Entry::new();
    for i in from..most {
        entry = add_field(
            entry,
            i,
            field(text, ends, count, i),
            plain & (ends[i] <= reach),
            judging,
            command,
            user,
            groups,
            host,
            minute,
            bytes,
            sizes,
            names,
            scratch,
        )?;
    }
    entry.finish()?;
    Ok(entry)
}

// The place of the path of the entry that the fields make from one of them on, or none where it does not accept or nothing
// is judged. Its faults are found whatever is asked; the command, users and times are judged only where something is judged.
pub fn read_entry<'a, 'b>(
    text: &'a [u8],
    ends: &'a [usize; 64],
    count: usize,
    from: usize,
    judging: bool,
    command: &[u8],
    user: &[u8],
    groups: &[u8],
    host: &[u8],
    minute: WeekMinute,
    bytes: &'b [u8; Variables::BYTES],
    sizes: &'b [usize; Variables::SIZES],
    names: usize,
    scratch: &mut [u8; FieldText::BYTES],
) -> Result<Option<PathPlace>, Cause>
    ensures { ActsOn
        (judge_of user.now (strings_in groups.now) host.now minute.0)
        (scope_in user.now host.now bytes.now sizes.now names)
        (fields_in text.now ends.now count)
        from judging command.now user.now result }
{
    let entry = read_fields(
        text, ends, count, from, judging, command, user, groups, host, minute, bytes, sizes, names,
        scratch,
    )?;
    if !judging {
        return Ok(None);
    }
    Ok(entry.accepts(user))
}
