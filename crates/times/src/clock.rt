// Clock times, `hh[:mm]`, as minutes of the day.
ghost use Rattle.std.specs.Prelude.{◌≡◌, ◌+◌, ◌*◌};
ghost use Rattle.times.specs.Clock.{day_minutes, not_past, hour_of, minute_of, clock_of};

use super::parts::split_once;
use super::period::Period;
use text::number::decimal;

#[derive(Drop)]
pub struct Clock;

impl Clock {
    // The last minute of an hour.
    pub const MINUTE: u32 = 59;
}

// One or two digits.
#[tactic(auto, unfolding(crate::specs::Clock::hour_of))]
fn read_hour(s: &[u8]) -> Option<u32>
    ensures { result ≡ hour_of s.now }
{
    if s.len() > 2 {
        return None;
    }
    decimal(s)
}

// Two digits, to 59.
#[tactic(auto, unfolding(crate::specs::Clock::minute_of))]
fn read_minute(s: &[u8]) -> Option<u32>
    ensures { result ≡ minute_of s.now }
{
    if s.len() != 2 {
        return None;
    }
    decimal(s).filter(|m| *m <= Clock::MINUTE)
}

// The minute of the day, which is not after 24:00.
fn clock_at(hour: u32, minute: u32) -> Option<u16>
    ensures { result ≡ not_past day_minutes (hour * 60 + minute) }
{
    let at = u64::from(hour) * 60 + u64::from(minute);
    if at > u64::from(Period::DAY) {
        return None;
    }
    Some(at as u16)
}

// The clock time that s writes.
#[tactic(auto, unfolding(crate::specs::Clock::clock_of))]
pub fn read_clock(s: &[u8]) -> Option<u16>
    ensures { result ≡ clock_of s.now }
{
    let Some((hour, minute)) = split_once(s, b':') else {
        return clock_at(read_hour(s)?, 0);
    };
    clock_at(read_hour(hour)?, read_minute(minute)?)
}
