// Day names, shortened to three letters or more, with letter case ignored.
ghost use Rattle.std.specs.Prelude.{◌≡◌, map};
ghost use Rattle.text.specs.Case.{lower_of};
ghost use Rattle.times.specs.Day.{shortens, day_of};

// The days of an item.
#[derive(Clone, Copy)]
pub enum Day {
    Every,
    // The day's number; Monday is 0. Stays a number: a minute of the week divided by a day's minutes gives it.
    Only(u32),
}

impl Day {
    // The fewest letters of a day's name.
    pub const LETTERS: usize = 3;
}

// The names of the days, Monday first.
const NAMES: [&[u8]; 7] = [
    b"monday",
    b"tuesday",
    b"wednesday",
    b"thursday",
    b"friday",
    b"saturday",
    b"sunday",
];

// Whether s is the beginning of the name.
fn is_short_for(s: &[u8], name: &[u8]) -> bool
    ensures { result ≡ shortens s.now (map lower_of name.now) }
{
    s.len() <= name.len() && name[..s.len()].eq_ignore_ascii_case(s)
}

// The day that s names.
#[tactic(auto, unfolding(crate::specs::Day::day_of))]
pub fn read_day(s: &[u8]) -> Option<Day>
    ensures { result ≡ day_of s.now }
{
    if s == b"*".as_slice() {
        return Some(Day::Every);
    }
    if s.len() < Day::LETTERS {
        return None;
    }
    let d = NAMES.iter().position(|name| is_short_for(s, name))?;
    Some(Day::Only(d as u32))
}
