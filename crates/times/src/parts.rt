// A text parted at a byte.
ghost use Rattle.std.specs.Prelude.{◌≡◌, None, Some, MatchOption};
ghost use Rattle.text.specs.Parts.{part_at};
ghost use Rattle.times.specs.Contract.{parts};

use text::slice::find_byte;

// The bytes in front of the first c, and those behind it; none where there is no c.
pub fn split_once(s: &[u8], c: u8) -> Option<(&[u8], &[u8])>
    ensures { MatchOption result (part_at c s.now ≡ None) (λ p. part_at c s.now ≡ Some (parts p.0.now p.1.now)) }
{
    let i = find_byte(s, c)?;
    Some((&s[..i], &s[i + 1..]))
}
