// The parts of a question that a caller in C gives as plain numbers.
ghost use Rattle.std.specs.Prelude.{◌≡◌};
ghost use Rattle.supertab_c.specs.Call.{minute_of, last_of};

use question::{Age, WeekMinute};

// A minute past the week's end is handed on as the first such one, so that the question is bad.
#[tactic(auto, unfolding(crate::specs::Call::minute_of))]
pub fn minute_of(minute: u32) -> WeekMinute
    ensures { result ≡ minute_of minute }
{
    WeekMinute(minute.min(u32::from(WeekMinute::LIMIT)) as u16)
}

// The age counts only where the user gave the password at all.
#[tactic(auto, unfolding(crate::specs::Call::last_of))]
pub fn last_of(authenticated: bool, age: i32) -> Option<Age>
    ensures { result ≡ last_of authenticated age }
{
    if authenticated { Some(Age(age)) } else { None }
}
