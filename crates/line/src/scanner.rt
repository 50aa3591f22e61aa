// A control line that is being scanned.
ghost use Rattle.std.specs.Prelude.{ℕ, ◌<◌, ◌≤◌, ◌≡◌, true, false, List, ◌∷◌, length, drop, get_or};
ghost use Rattle.text.specs.declared.quote.Quoting.TheVariants.{Outside};
ghost use Rattle.line.specs.Joined.{in_fields, in_comment};
ghost use Rattle.line.specs.Contract.{joins_at, mode_of, in_run, start_of, Bounded, Goes};

use super::counts::Counts;
use super::mode::{ScanMode, mode_after, mode_joined};
use super::run::{Run, run_end};
use text::buffer::put_all;
use text::class::is_blank;
use text::quote::Quoting;
use text::slice::byte_from;

#[derive(Clone, Copy)]
pub struct Scanner {
    // The place of the next byte.
    pub at: usize,
    pub mode: ScanMode,
    pub counts: Counts,
    // A continuation line did not begin with a blank.
    pub bare: bool,
    // The line's first byte is `#`.
    pub hash: bool,
}

// Whether a join stands at a place.
pub fn joins_at(line: &[u8], i: usize) -> bool
    requires { i < length line.now }
    ensures { result ≡ joins_at (drop i line.now) }
{
    line[i..].starts_with(b"\\\n")
}

// The byte before a place; before the first, a newline.
pub fn byte_before(line: &[u8], i: usize) -> u8
    requires { i ≤ length line.now }
    ensures { result ≡ get_or (10 ∷ line.now) i 0 }
{
    if i == 0 { b'\n' } else { line[i - 1] }
}

impl Scanner {
    // Before the first byte, which may be `#`.
    pub fn new(hash: bool) -> Scanner
        ensures { result ≡ start_of hash }
    {
        Scanner {
            at: 0,
            mode: ScanMode::Fields(Quoting::Outside),
            counts: Counts {
                joined: 0,
                kept: 0,
                fields: 0,
                start: 0,
            },
            bare: false,
            hash,
        }
    }

    // Past a join and the blanks behind it.
    fn past_join(self, line: &[u8], text: &mut [u8], ends: &mut [usize; 64]) -> Scanner
        requires { Bounded line.now self × (self.at < length line.now) × (joins_at (drop self.at line.now) ≡ true) }
        ensures { (self.at < result.at) × Goes line.now self text.old ends.old result text.new ends.new }
    {
        let before = byte_before(line, self.at);
        let counts = self.counts.add_join(self.mode, before, text, ends);
        let next = self.at + 2;
        let end = run_end(line, next, Run::Blanks);
        Scanner {
            at: end,
            mode: mode_joined(self.hash, self.mode),
            counts,
            bare: self.bare | (end == next),
            ..self
        }
    }

    // Past a byte that begins no join.
    fn past_byte(self, line: &[u8], text: &mut [u8], ends: &mut [usize; 64]) -> Scanner
        requires { Bounded line.now self × (self.at < length line.now) × (joins_at (drop self.at line.now) ≡ false) }
        ensures { (self.at < result.at) × Goes line.now self text.old ends.old result text.new ends.new }
    {
        let b = line[self.at];
        Scanner {
            at: self.at + 1,
            mode: mode_after(self.mode, b),
            counts: self.counts.add(self.mode, b, text, ends),
            ..self
        }
    }

    // Whether a blank stands here outside quotes: it parts fields.
    #[tactic(auto, unfolding(crate::specs::Contract::in_run))]
    fn is_between(self, line: &[u8]) -> bool
        requires { self.at < length line.now }
        ensures { result ≡ true → (mode_of self.mode ≡ in_fields Outside) × (in_run Run.Blanks (get_or line.now self.at 0) ≡ true) }
    {
        match self.mode {
            ScanMode::Fields(Quoting::Outside) => is_blank(line[self.at]),
            _ => false,
        }
    }

    // Past blanks, outside quotes.
    fn past_blanks(self, line: &[u8], ends: &mut [usize; 64]) -> Scanner
        requires { Bounded line.now self × (self.at < length line.now) × (mode_of self.mode ≡ in_fields Outside) × (in_run Run.Blanks (get_or line.now self.at 0) ≡ true) }
        ensures { (self.at < result.at) × ((text : List ℕ) → Goes line.now self text ends.old result text ends.new) }
    {
        let end = run_end(line, self.at, Run::Blanks);
        Scanner {
            at: end,
            counts: self.counts.part(end - self.at, ends),
            ..self
        }
    }

    // Past blanks between fields, or else past one byte that begins no join.
    fn past_first(self, line: &[u8], text: &mut [u8], ends: &mut [usize; 64]) -> Scanner
        requires { Bounded line.now self × (self.at < length line.now) × (joins_at (drop self.at line.now) ≡ false) }
        ensures { (self.at < result.at) × Goes line.now self text.old ends.old result text.new ends.new }
    {
        if self.is_between(line) {
            return self.past_blanks(line, ends);
        }
        self.past_byte(line, text, ends)
    }

    // Past plain bytes, outside quotes.
    fn past_plain(self, line: &[u8], text: &mut [u8]) -> Scanner
        requires { Bounded line.now self × (mode_of self.mode ≡ in_fields Outside) }
        ensures { (ends : List ℕ) → Goes line.now self text.old ends result text.new ends }
    {
        let end = run_end(line, self.at, Run::Plain);
        let had = self.counts;
        put_all(text, had.kept, &line[self.at..end]);
        let n = end - self.at;
        let counts = Counts {
            joined: had.joined + n,
            kept: had.kept + n,
            ..had
        };
        Scanner {
            at: end,
            counts,
            ..self
        }
    }

    // Past a comment's bytes up to a backslash.
    fn past_comment(self, line: &[u8], ends: &mut [usize; 64]) -> Scanner
        requires { Bounded line.now self × (mode_of self.mode ≡ in_comment) }
        ensures { (text : List ℕ) → Goes line.now self text ends.old result text ends.new }
    {
        let end = byte_from(line, self.at, b'\\');
        if end == self.at {
            return self;
        }
        Scanner {
            at: end,
            counts: self.counts.part(end - self.at, ends),
            ..self
        }
    }

    // Past the bytes that need no step of their own.
    fn past_run(self, line: &[u8], text: &mut [u8], ends: &mut [usize; 64]) -> Scanner
        requires { Bounded line.now self }
        ensures { Goes line.now self text.old ends.old result text.new ends.new }
    {
        match self.mode {
            ScanMode::Fields(Quoting::Outside) => self.past_plain(line, text),
            ScanMode::Fields(_) => self,
            ScanMode::Comment => self.past_comment(line, ends),
        }
    }

    // Past the next byte or join, and what needs no step of its own behind it.
    pub fn step(self, line: &[u8], text: &mut [u8], ends: &mut [usize; 64]) -> Scanner
        requires { Bounded line.now self × (self.at < length line.now) }
        ensures { (self.at < result.at) × Goes line.now self text.old ends.old result text.new ends.new }
    {
        if joins_at(line, self.at) {
            return self.past_join(line, text, ends);
        }
        self.past_first(line, text, ends).past_run(line, text, ends)
    }
}
