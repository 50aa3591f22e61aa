// Which arguments fail an argument pattern: nothing of the patterns is kept but this.
ghost use Rattle.std.specs.List.{list_any};
ghost use Rattle.std.specs.Prelude.{ℕ, ◌≡◌, not, ◌||◌, List, []};
ghost use Rattle.question.specs.Contract.{strings_in};
ghost use Rattle.options.specs.Arguments.{passes};
ghost use Rattle.options.specs.Contract.{span_in, pattern_at, failures, failures_with, failures_after};

use super::setting::OptionSetting;
use super::span::Span;
use matching::matcher::matches_pattern;
use pattern::Syntax;
use question::strings::Strings;

// Which positions fail; the entry's own patterns are added to those in force globally.
#[derive(Clone, Copy)]
pub struct Failures {
    at: [bool; Failures::POSITIONS],
}

// Whether an argument failed before, or fails a pattern that covers its position.
#[tactic(auto, unfolding(crate::specs::Arguments::passes, matching::specs::Whole::matches_pattern))]
fn fails(failed: bool, position: usize, span: Span, pattern: &[u8], argument: &[u8]) -> bool
    ensures { result ≡ failed || not (passes position argument.now (pattern_at (span_in span) pattern.now)) }
{
    failed || span.covers(position) && !matches_pattern(Syntax::Plain, pattern, argument)
}

impl Failures {
    // How many positions there are; the first is 1.
    pub const POSITIONS: usize = 64;

    // No pattern, no failure.
    #[tactic(auto, using(crate::proofs::ArgumentLaws::failures_none))]
    pub fn new() -> Self
        ensures { (xs : List (List ℕ)) → result.at ≡ failures [] xs }
    {
        Failures {
            at: [false; Failures::POSITIONS],
        }
    }

    // With the failures of one more pattern, for the positions of a span. The arguments are zero-ended strings.
    fn mark(self, span: Span, pattern: &[u8], args: &[u8]) -> Self
        ensures { result.at ≡ failures_with 1 (pattern_at (span_in span) pattern.now) (strings_in args.now) self.at }
    {
        let mut at = self.at;
        let mut arguments = Strings(args);
        for i in 0..Failures::POSITIONS {
            let Some(argument) = arguments.next() else {
                break;
            };
            at[i] = fails(at[i], i + 1, span, pattern, argument);
        }
        Failures { at }
    }

    // With the failures of one more setting, by the value in its text: none where it is no argument pattern.
    pub fn add(self, value: &[u8], setting: OptionSetting, args: &[u8]) -> Self
        ensures { result.at ≡ failures_after value.now setting (strings_in args.now) self.at }
    {
        match setting {
            OptionSetting::SetArgument(span) => self.mark(span, value, args),
            _ => self,
        }
    }

    // Whether some argument fails.
    pub fn some(self) -> bool
        ensures { result ≡ list_any (λ f. f) self.at }
    {
        self.at.iter().any(|failed| *failed)
    }
}
