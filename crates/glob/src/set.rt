// The bytes between the brackets of a set.
ghost use Rattle.std.specs.List.{list_all};
ghost use Rattle.std.specs.Prelude.{◌≡◌, ◌+◌, ◌≤◌, ◌<◌, length, drop};
ghost use Rattle.std.specs.Iterator.{YieldsFirstBy, item_count};
ghost use Rattle.text.specs.Class.{range};
ghost use Rattle.glob.specs.Set.{ranges, rising, covered, good_set, in_set};
ghost use Rattle.text.specs.Contract.{lead};

use text::class::is_within;
use text::slice::{byte_from, head_is, past_head};

// The mark that negates a set, in front of its members.
pub const NEGATES: u8 = b'!';

// Where the first `]` at or after `at` stands, or the length.
pub fn close(p: &[u8], at: usize) -> usize
    ensures { (result ≡ at + lead 93 (drop at p.now)) × (at ≤ result) × (at ≤ length p.now → result ≤ length p.now) }
{
    byte_from(p, at, b']')
}

// The ranges of a set's members, read left to right; a plain byte is a range of one.
#[derive(Drop)]
pub struct Ranges<'a>(pub &'a [u8]);

impl<'a> Iterator for Ranges<'a> {
    // From the first to the second, both counted.
    type Item = (u8, u8);

    ghost next_gives = { YieldsFirstBy (λ r. range r.0 r.1) (λ s. ranges s.0.now) };

    ghost remaining = { item_count (λ s. ranges s.0.now) };

    fn next(&mut self) -> Option<(u8, u8)> {
        let s = self.0;
        let low = *s.first()?;
        if s.len() > 2 && s[1] == b'-' {
            self.0 = &s[3..];
            return Some((low, s[2]));
        }
        self.0 = &s[1..];
        Some((low, low))
    }
}

// Whether no range runs backwards.
fn in_order(body: &[u8]) -> bool
    ensures { result ≡ list_all rising (ranges body.now) }
{
    Ranges(body).all(|(low, high)| low <= high)
}

// Whether a range holds the byte.
fn in_ranges(body: &[u8], b: u8) -> bool
    ensures { result ≡ covered (ranges body.now) b }
{
    Ranges(body).any(|(low, high)| is_within(low, high, b))
}

// Whether the set has members, behind a mark that negates it, and its ranges are in order.
pub fn good_set(mark: u8, body: &[u8]) -> bool
    ensures { result ≡ good_set mark body.now }
{
    let from = past_head(body, mark);
    from < body.len() && in_order(&body[from..])
}

// Whether the set, which a mark in front negates, holds the byte.
pub fn in_set(mark: u8, body: &[u8], b: u8) -> bool
    ensures { result ≡ in_set mark body.now b }
{
    head_is(body, mark) != in_ranges(&body[past_head(body, mark)..], b)
}
