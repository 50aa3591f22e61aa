// The options of a `:global`.
ghost use Rattle.std.specs.Prelude.{ℕ, ◌≡◌, List, [], drop};
ghost use Rattle.line.specs.Contract.{fields_in};
ghost use Rattle.question.specs.Contract.{strings_in};
ghost use Rattle.variables.specs.Contract.{scope_in};
ghost use Rattle.options.specs.Arguments.{ArgumentPattern};
ghost use Rattle.options.specs.Contract.{failures as failuresOf};
ghost use Rattle.reader.specs.Contract.{Sums, AddsText, ReadsSettings};

use fault::Cause;
use line::fields::field;
use line::scan::ControlLine;
use options::arguments::Failures;
use options::line::LineOptions;
use options::read::{read_option, value_of};
use options::set::OptionSet;
use variables::Variables;
use variables::field::{FieldText, field_text};

// The options of the line, which arguments fail the patterns in force or those of the line, and which options stand on it.
#[derive(Drop)]
pub struct GlobalRead {
    pub options: OptionSet,
    pub failures: Failures,
    pub line: LineOptions,
}

impl GlobalRead {
    fn new(failures: Failures) -> Self
        ensures { (ps : List ArgumentPattern) (xs : List (List ℕ)) → failures.at ≡ failuresOf ps xs → Sums ps xs result [] }
    {
        GlobalRead {
            options: OptionSet::new(),
            failures,
            line: LineOptions::new(),
        }
    }

    // With one more field, by its text.
    fn add(self, text: &[u8], args: &[u8]) -> Result<GlobalRead, Cause>
        ensures { AddsText text.now (strings_in args.now) self result }
    {
        let setting = read_option(text, true)?.ok_or(Cause::OptionName)?;
        let value = value_of(text);
        Ok(GlobalRead {
            options: self.options.add(value, setting),
            failures: self.failures.add(value, setting, args),
            line: self.line.add(setting),
        })
    }
}

// All fields from one on, each an option; at least one, and none twice.
pub fn read_global<'a, 'b>(
    failures: Failures,
    text: &'a [u8],
    ends: &'a [usize; 64],
    count: usize,
    from: usize,
    user: &[u8],
    host: &[u8],
    args: &[u8],
    bytes: &'b [u8; Variables::BYTES],
    sizes: &'b [usize; Variables::SIZES],
    names: usize,
) -> Result<GlobalRead, Cause>
    ensures { ReadsSettings
        (scope_in user.now host.now bytes.now sizes.now names)
        (drop from (fields_in text.now ends.now count))
        (strings_in args.now) failures result }
{
    let most = count.min(ControlLine::FIELDS);
    if from >= most {
        return Err(Cause::MissingPart);
    }
    let mut read = GlobalRead::new(failures);
    let mut scratch = [0u8; FieldText::BYTES];
    for i in from..most {
        let written = field(text, ends, count, i);
        let n = field_text(bytes, sizes, names, user, host, written, &mut scratch)?;
        read = read.add(&scratch[..n], args)?;
    }
    if read.line.twice() {
        return Err(Cause::OptionTwice);
    }
    Ok(read)
}
