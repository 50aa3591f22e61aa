// Zero-ended strings, one after the other in one slice. Nothing is copied.
ghost use Rattle.std.specs.Prelude.{◌≡◌, length};
ghost use Rattle.std.specs.Iterator.{YieldsFirstRef, item_count};
ghost use Rattle.question.specs.Contract.{strings_in};

use text::slice::find_byte;

// The strings of a list, each without its zero; bytes behind the last zero are in none.
#[derive(Clone, Copy)]
pub struct Strings<'a>(pub &'a [u8]);

impl<'a> Iterator for Strings<'a> {
    type Item = &'a [u8];

    ghost next_gives = { YieldsFirstRef (λ s. strings_in s.0.now) };

    ghost remaining = { item_count (λ s. strings_in s.0.now) };

    fn next(&mut self) -> Option<&'a [u8]> {
        let list = self.0;
        let end = find_byte(list, 0)?;
        self.0 = &list[end + 1..];
        Some(&list[..end])
    }
}

// How many strings the list has.
#[tactic(auto, using(crate::proofs::ZeroEnded::strings_most))]
pub fn string_count(list: &[u8]) -> usize
    ensures { result ≡ length (strings_in list.now) }
{
    Strings(list).count()
}
