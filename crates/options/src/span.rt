// Ranges of numbers: `n` or `m-n`.
ghost use Rattle.std.specs.Option.{option_map};
ghost use Rattle.std.specs.Prelude.{◌≡◌};
ghost use Rattle.text.specs.Class.{in_range};
ghost use Rattle.text.specs.Number.{decimal_of};
ghost use Rattle.options.specs.Options.{nargs_allow};
ghost use Rattle.options.specs.Read.{range_between, number_range};
ghost use Rattle.options.specs.Contract.{span_in};

use super::parts::parted;
use text::number::decimal;

// From one number to another, both counted.
#[derive(Clone, Copy, PartialEq, Eq)]
pub struct Span {
    pub low: usize,
    pub high: usize,
}

impl Span {
    // The most arguments that nargs can name.
    pub const ARGUMENTS: usize = 64;

    // Whether the number is one of the span's.
    pub fn covers(self, n: usize) -> bool
        ensures { result ≡ in_range (span_in self) n }
    {
        self.low <= n && n <= self.high
    }
}

// Whether so many arguments are allowed; where nargs is unset, any number is.
#[tactic(auto, unfolding(crate::specs::Options::nargs_allow))]
pub fn nargs_allow(nargs: Option<Span>, count: usize) -> bool
    ensures { result ≡ nargs_allow (option_map span_in nargs) count }
{
    match nargs {
        None => true,
        Some(span) => span.covers(count),
    }
}

// The numbers of a range as written, if they lie from least to most and the first is not above the second.
fn between(a: &[u8], b: &[u8], least: usize, most: usize) -> Option<Span>
    ensures { option_map span_in result ≡ range_between least most (decimal_of a.now) (decimal_of b.now) }
{
    let low = decimal(a)? as usize;
    let high = decimal(b)? as usize;
    if least <= low && low <= high && high <= most {
        return Some(Span { low, high });
    }
    None
}

// A number, or two with `-` between them.
#[tactic(auto, unfolding(crate::specs::Read::number_range))]
pub fn number_range(s: &[u8], least: usize, most: usize) -> Option<Span>
    ensures { option_map span_in result ≡ number_range least most s.now }
{
    match parted(s, b'-') {
        None => between(s, s, least, most),
        Some((low, high)) => between(low, high, least, most),
    }
}
