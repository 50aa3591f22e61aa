// What the deciding entry answers: nargs, argument patterns, path length, password, in that order.
ghost use Rattle.options.specs.Contract.{options_in};
ghost use Rattle.entry.specs.Contract.{GivesVerdict};

use options::arguments::Failures;
use options::set::OptionSet;
use options::span::nargs_allow;
use question::Age;

#[derive(Clone, Copy, PartialEq, Eq)]
pub enum Verdict {
    Nargs,
    Argument,
    Path,
    Password,
    Permit,
}

// The verdict, by the options and argument patterns in force, the number of arguments and whether the path fits.
pub fn verdict_of(
    options: OptionSet,
    failures: Failures,
    arguments: usize,
    path: Option<usize>,
    last: Option<Age>,
) -> Verdict
    ensures { GivesVerdict (options_in options) failures.at arguments path last result }
{
    if !nargs_allow(options.nargs(), arguments) {
        return Verdict::Nargs;
    }
    if failures.some() {
        return Verdict::Argument;
    }
    if path.is_none() {
        return Verdict::Path;
    }
    if options.needs_password(last) {
        return Verdict::Password;
    }
    Verdict::Permit
}
