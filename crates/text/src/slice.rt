// Searching slices.
ghost use Rattle.std.specs.List.{list_all};
ghost use Rattle.std.specs.Prelude.{◌+◌, ◌≤◌, ◌≡◌, cond, length, drop};
ghost use Rattle.text.specs.Class.{name_byte};
ghost use Rattle.text.specs.Contract.{find_byte, lead};
ghost use Rattle.text.specs.Lists.{has};
ghost use Rattle.text.specs.Slice.{head_is, find_pair};

use super::alphabet::{Alphabet, all_in};

// Whether the first byte is c.
#[tactic(auto, unfolding(crate::specs::Slice::head_is))]
pub fn head_is(s: &[u8], c: u8) -> bool
    ensures { result ≡ head_is c s.now }
{
    s.first() == Some(&c)
}

// The place behind a first byte c: 0 where another byte is first.
#[tactic(auto, unfolding(crate::specs::Slice::head_is))]
pub fn past_head(s: &[u8], c: u8) -> usize
    ensures { (result ≡ cond (head_is c s.now) 1 0) × (result ≤ length s.now) }
{
    usize::from(head_is(s, c))
}

// How many bytes are looked at together.
const BLOCK: usize = 16;

// Whether c is among the bytes. Each is looked at, with no way out of the loop, so that many are at once.
fn is_among(s: &[u8], c: u8) -> bool
    ensures { result ≡ has c s.now }
{
    s.iter().fold(false, |found, b| found | (*b == c))
}

// How many bytes stand in front of the first c, or of the end; those of a block are looked at together.
fn lead(s: &[u8], c: u8) -> usize
    ensures { result ≡ lead c s.now }
{
    let mut from = 0;
    for block in s.chunks_exact(BLOCK) {
        if is_among(block, c) {
            break;
        }
        from += BLOCK;
    }
    for i in from..s.len() {
        if s[i] == c {
            return i;
        }
    }
    s.len()
}

// The place of the first byte c from a place on, or the end.
#[tactic(auto, using(crate::proofs::Leads::lead_most), unfolding(crate::specs::Contract::lead))]
pub fn byte_from(s: &[u8], from: usize, c: u8) -> usize
    ensures { (result ≡ from + lead c (drop from s.now)) × (from ≤ result) × (from ≤ length s.now → result ≤ length s.now) }
{
    match s.get(from..) {
        Some(rest) => from + lead(rest, c),
        None => from,
    }
}

// The first place where c and then d stand.
pub fn find_pair(s: &[u8], c: u8, d: u8) -> Option<usize>
    ensures { result ≡ find_pair c d 0 s.now }
{
    let mut i = 0;
    // Stays a while: by windows(2) and position it takes three to eight times as long.
    while i < s.len() {
        let at = byte_from(s, i, c);
        if s.len() - at < 2 {
            return None;
        }
        if s[at + 1] == d {
            return Some(at);
        }
        i = at + 1;
    }
    None
}

// The first place where c stands.
#[tactic(auto, unfolding(crate::specs::Contract::find_byte, crate::specs::Contract::lead))]
pub fn find_byte(s: &[u8], c: u8) -> Option<usize>
    ensures { result ≡ find_byte c 0 s.now }
{
    let i = lead(s, c);
    (i < s.len()).then_some(i)
}

// Whether all bytes are of the user alphabet.
pub fn all_name_bytes(s: &[u8]) -> bool
    ensures { result ≡ list_all name_byte s.now }
{
    all_in(s, Alphabet::Name)
}
