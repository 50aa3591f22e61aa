// The parts of a slice between the bytes of one kind, each end found by blocks. Nothing is copied.
ghost use Rattle.std.specs.Iterator.{YieldsFirstRef, item_count};
ghost use Rattle.std.specs.List.{slice_split};
ghost use Rattle.std.specs.Prelude.{◌≡◌, eqb};
ghost use Rattle.text.specs.Split.{parts_left};

use super::slice::find_byte;

// The parts that are still to come.
#[derive(Drop)]
pub struct Split<'a> {
    rest: Option<&'a [u8]>,
    byte: u8,
}

impl<'a> Split<'a> {
    // The parts between the bytes c: one more than there are such bytes.
    pub fn new(s: &'a [u8], c: u8) -> Split<'a>
        ensures { parts_left result ≡ slice_split (λ b. eqb b c) s.now }
    {
        Split {
            rest: Some(s),
            byte: c,
        }
    }
}

impl<'a> Iterator for Split<'a> {
    type Item = &'a [u8];

    ghost next_gives = { YieldsFirstRef parts_left };

    ghost remaining = { item_count parts_left };

    fn next(&mut self) -> Option<&'a [u8]> {
        let s = self.rest?;
        let Some(end) = find_byte(s, self.byte) else {
            self.rest = None;
            return Some(s);
        };
        self.rest = Some(&s[end + 1..]);
        Some(&s[..end])
    }
}
