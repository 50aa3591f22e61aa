// The two parts of a text around a byte.
ghost use Rattle.std.specs.Prelude.{◌≡◌};
ghost use Rattle.text.specs.Parts.{part_at};
ghost use Rattle.options.specs.Contract.{parts_in};

use text::slice::find_byte;

// What stands before and behind the first byte c.
pub fn parted(s: &[u8], c: u8) -> Option<(&[u8], &[u8])>
    ensures { parts_in result ≡ part_at c s.now }
{
    let i = find_byte(s, c)?;
    Some((&s[..i], &s[i + 1..]))
}
