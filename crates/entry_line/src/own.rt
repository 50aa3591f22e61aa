// The deciding entry's own options and argument patterns: its fields a second time, for the settings alone.
ghost use Rattle.std.specs.Prelude.{false, cond, [], drop};
ghost use Rattle.line.specs.Contract.{fields_in};
ghost use Rattle.question.specs.Contract.{strings_in};
ghost use Rattle.variables.specs.Contract.{scope_in};
ghost use Rattle.options.specs.Read.{option_of};
ghost use Rattle.entry.specs.Contract.{is_other, settings_in, AddsSettings};
ghost use Rattle.entry_line.specs.Contract.{OwnSettings};

use entry::own::Own;
use entry::position::{FieldKind, Position};
use line::fields::field;
use line::scan::ControlLine;
use options::arguments::Failures;
use variables::Variables;
use variables::field::{FieldText, field_text};

// The settings with those of one more field, by what it is and its text.
fn with_text(own: Own, kind: FieldKind, text: &[u8], args: &[u8]) -> Own
    ensures { AddsSettings (strings_in args.now) text.now
        (cond (is_other kind) (settings_in (option_of false text.now)) [])
        own result }
{
    if kind.is_other() {
        return own.add(text, args);
    }
    own
}

// The settings of the fields from one on, over the argument patterns in force, whatever is judged.
pub fn own_settings<'a, 'b>(
    failures: Failures,
    text: &'a [u8],
    ends: &'a [usize; 64],
    count: usize,
    from: usize,
    user: &[u8],
    host: &[u8],
    args: &[u8],
    bytes: &'b [u8; Variables::BYTES],
    sizes: &'b [usize; Variables::SIZES],
    names: usize,
    scratch: &mut [u8; FieldText::BYTES],
) -> Own
    ensures { OwnSettings
        (scope_in user.now host.now bytes.now sizes.now names)
        (drop from (fields_in text.now ends.now count))
        (strings_in args.now) failures.at result }
{
    let most = count.min(ControlLine::FIELDS);
    let mut own = Own::new(failures);
    let mut position = Position::First;
    for i in from..most {
        let written = field(text, ends, count, i);
        let Ok(n) = field_text(bytes, sizes, names, user, host, written, scratch) else {
            return own;
        };
        let kind = position.kind(&scratch[..n]);
        own = with_text(own, kind, &scratch[..n], args);
        position = kind.next();
    }
    own
}
