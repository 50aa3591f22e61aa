// What the deciding entry answers.
ghost use Rattle.std.specs.Prelude.{◌≡◌, drop};
ghost use Rattle.text.specs.Contract.{Wrote};
ghost use Rattle.line.specs.Contract.{fields_in};
ghost use Rattle.question.specs.Contract.{strings_in};
ghost use Rattle.variables.specs.Contract.{scope_in};
ghost use Rattle.options.specs.Contract.{options_in};
ghost use Rattle.condition.specs.Condition.{judge_of};
ghost use Rattle.entry.specs.Path.{starred};
ghost use Rattle.entry_line.specs.Contract.{PutsPath, DecidesEntry};

use super::own::own_settings;
use entry::path::{Path, put_path};
use entry::verdict::{Verdict, verdict_of};
use line::fields::field;
use options::arguments::Failures;
use options::set::OptionSet;
use question::strings::string_count;
use question::{Age, WeekMinute};
use variables::Variables;
use variables::field::{FieldText, field_text};

// The verdict, how many bytes its path has, and the options in force.
#[derive(Drop)]
pub struct Decided {
    pub verdict: Verdict,
    pub path: usize,
    pub options: OptionSet,
}

// The path that stands in a text from a byte on, with the command put in.
fn put_from(text: &[u8], at: usize, command: &[u8], path: &mut [u8]) -> Option<usize>
    ensures { Wrote path.old path.new 0 (starred command.now (drop at text.now)) result }
{
    let start = at.min(text.len());
    put_path(&text[start..], command, path)
}

// The path that stands in a field's text from a byte on, with the command put in, into the lent buffer.
fn path_of<'a, 'b>(
    text: &'a [u8],
    ends: &'a [usize; 64],
    count: usize,
    index: usize,
    at: usize,
    command: &[u8],
    user: &[u8],
    host: &[u8],
    bytes: &'b [u8; Variables::BYTES],
    sizes: &'b [usize; Variables::SIZES],
    names: usize,
    scratch: &mut [u8; FieldText::BYTES],
    path: &mut [u8; Path::BYTES],
) -> Option<usize>
    ensures { PutsPath
        (scope_in user.now host.now bytes.now sizes.now names)
        (fields_in text.now ends.now count)
        index at command.now path.old path.new result }
{
    let written = field(text, ends, count, index);
    let Ok(n) = field_text(bytes, sizes, names, user, host, written, scratch) else {
        return put_from(written, at, command, path);
    };
    put_from(&scratch[..n], at, command, path)
}

// The verdict on the entry that the fields make from one of them on, whose path stands in the text of one of them from a
// byte on. The path is put into the lent buffer; options and argument patterns in force go before the entry's own.
pub fn decide<'a, 'b>(
    text: &'a [u8],
    ends: &'a [usize; 64],
    count: usize,
    from: usize,
    index: usize,
    at: usize,
    options: OptionSet,
    failures: Failures,
    command: &[u8],
    user: &[u8],
    groups: &[u8],
    host: &[u8],
    minute: WeekMinute,
    last: Option<Age>,
    args: &[u8],
    bytes: &'b [u8; Variables::BYTES],
    sizes: &'b [usize; Variables::SIZES],
    names: usize,
    scratch: &mut [u8; FieldText::BYTES],
    path: &mut [u8; Path::BYTES],
) -> Decided
    ensures { DecidesEntry
        (judge_of user.now (strings_in groups.now) host.now minute.0)
        (scope_in user.now host.now bytes.now sizes.now names)
        (fields_in text.now ends.now count)
        from index at command.now user.now last (strings_in args.now)
        (options_in options) failures.at path.new result }
{
    let own = own_settings(
        failures, text, ends, count, from, user, host, args, bytes, sizes, names, scratch,
    );
    let filled = path_of(
        text, ends, count, index, at, command, user, host, bytes, sizes, names, scratch, path,
    );
    let effective = own.options.over(options);
    Decided {
        verdict: verdict_of(effective, own.failures, string_count(args), filled, last),
        path: filled.unwrap_or(0),
        options: effective,
    }
}
