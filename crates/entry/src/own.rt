// The deciding entry's own options and argument patterns, field by field.
ghost use Rattle.std.specs.Prelude.{ℕ, ◌≡◌, false, List, []};
ghost use Rattle.question.specs.Contract.{strings_in};
ghost use Rattle.options.specs.Arguments.{ArgumentPattern};
ghost use Rattle.options.specs.Read.{option_of};
ghost use Rattle.options.specs.Contract.{failures as failuresOf};
ghost use Rattle.entry.specs.Contract.{settings_in, Sums, AddsSettings};

use options::arguments::Failures;
use options::read::{read_option, value_of};
use options::set::OptionSet;

// What the settings so far come to.
#[derive(Drop)]
pub struct Own {
    pub options: OptionSet,
    pub failures: Failures,
}

impl Own {
    // Before the first field: no option, and the failures of the argument patterns in force.
    pub fn new(failures: Failures) -> Self
        ensures { (ps : List ArgumentPattern) (xs : List (List ℕ)) → failures.at ≡ failuresOf ps xs → Sums ps xs result [] }
    {
        Own {
            options: OptionSet::new(),
            failures,
        }
    }

    // With one more field of the rest of the entry: what is no option leaves it as it was.
    pub fn add(self, text: &[u8], args: &[u8]) -> Self
        ensures { AddsSettings (strings_in args.now) text.now (settings_in (option_of false text.now)) self result }
    {
        let Ok(Some(setting)) = read_option(text, false) else {
            return self;
        };
        let value = value_of(text);
        Own {
            options: self.options.add(value, setting),
            failures: self.failures.add(value, setting, args),
        }
    }
}
