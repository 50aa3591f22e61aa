// The alternatives of a pattern's top level, one after the other as they stand.
ghost use Rattle.std.specs.Prelude.{◌≡◌, false, [], ◌≤◌, ◌<◌, length, drop, get_or};
ghost use Rattle.text.specs.Contract.{Wrote};
ghost use Rattle.pattern.specs.Tree.{pattern_of};
ghost use Rattle.pattern.specs.Contract.{HasNumber, expansions_in, end_told, alternative_from};

use super::braces::pattern;
use super::run::{Run, run_at};
use super::writer::put_pattern;
use super::{Pattern, Syntax};

// A well-formed alternative.
#[derive(Clone, Copy)]
pub enum Alternative {
    // No brace up to this place, where it ends: it is its own only expansion.
    Flat(usize),
    // With braces: where it ends, and how many expansions it has, up to one past the limit.
    Braced(usize, usize),
}

impl Alternative {
    // Where it ends.
    pub fn end(self) -> usize
        ensures { result ≡ end_told self }
    {
        match self {
            Alternative::Flat(end) | Alternative::Braced(end, _) => end,
        }
    }
}

// The alternative that begins at `at`, a place of the pattern or its end; past the end there is none, nor where it is
// malformed.
pub fn alternative_at(syntax: Syntax, p: &[u8], at: usize) -> Option<Alternative>
    ensures { result ≡ alternative_from syntax p.now at }
{
    if p.len() < at {
        return None;
    }
    match run_at(syntax, p, at, false)? {
        Run::Ends(end) => Some(Alternative::Flat(end)),
        Run::Opens(_) => {
            let read = pattern(syntax, p, at, false, Pattern::DEPTH)?;
            Some(Alternative::Braced(read.next, read.number))
        }
    }
}

// The k-th expansion of the alternative at `at`, which has `number` of them, from the buffer's beginning on.
pub fn put_alternative(
    syntax: Syntax,
    p: &[u8],
    at: usize,
    number: usize,
    k: usize,
    out: &mut [u8],
) -> Option<usize>
    requires { (at ≤ length p.now) × HasNumber (pattern_of syntax false (drop at p.now)) number × (number ≤ 64) × (k < number) }
    ensures { Wrote out.old out.new 0 (get_or (expansions_in (pattern_of syntax false (drop at p.now))) k []) result }
{
    put_pattern(syntax, p, at, false, number, k, out, 0)
}
