// The minutes of the day of an item.
ghost use Rattle.std.specs.Prelude.{◌≡◌, ◌+◌, Some};
ghost use Rattle.times.specs.Item.{compared, from_to, clock_range, period_of, in_period};
ghost use Rattle.times.specs.Contract.{side};

use super::clock::read_clock;
use super::parts::split_once;
use text::slice::head_is;

// The minutes from the first on, up to the end, which is not one of them.
#[derive(Clone, Copy)]
pub struct Period {
    pub first: u32,
    pub end: u32,
}

impl Period {
    // The minutes of a day; 24:00 is past its last one.
    pub const DAY: u32 = 1440;
}

// The minutes before a clock time, or after it, and whether its own minute counts.
fn beside(clock: u16, less: bool, counts: bool) -> Period
    ensures { result ≡ side less counts clock }
{
    let minute = u32::from(clock);
    if less {
        return Period {
            first: 0,
            end: minute + u32::from(counts),
        };
    }
    Period {
        first: minute + u32::from(!counts),
        end: Period::DAY,
    }
}

// What follows `<` or `>`: with `=` the minute itself counts.
#[tactic(auto, unfolding(crate::specs::Item::compared))]
fn read_compared(s: &[u8], less: bool) -> Option<Period>
    ensures { result ≡ compared (side less) s.now }
{
    if head_is(s, b'=') {
        return Some(beside(read_clock(&s[1..])?, less, true));
    }
    Some(beside(read_clock(s)?, less, false))
}

// Both ends count, and the start is not after the end.
fn from_to(start: u16, last: u16) -> Option<Period>
    ensures { result ≡ from_to (Some start) (Some last) }
{
    if start > last {
        return None;
    }
    Some(Period {
        first: u32::from(start),
        end: u32::from(last) + 1,
    })
}

// `hh[:mm]-hh[:mm]`.
#[tactic(auto, unfolding(crate::specs::Item::clock_range))]
fn read_clock_range(s: &[u8]) -> Option<Period>
    ensures { result ≡ clock_range s.now }
{
    let (start, last) = split_once(s, b'-')?;
    from_to(read_clock(start)?, read_clock(last)?)
}

// `<`, `>`, `<=`, `>=` with a clock time, or a range.
#[tactic(auto, unfolding(crate::specs::Item::period_of))]
pub fn read_period(s: &[u8]) -> Option<Period>
    ensures { result ≡ period_of s.now }
{
    match s {
        [b'<', clock @ ..] => read_compared(clock, true),
        [b'>', clock @ ..] => read_compared(clock, false),
        _ => read_clock_range(s),
    }
}

// Whether the minute of the day is one of the period's.
#[tactic(auto, unfolding(crate::specs::Item::in_period))]
pub fn is_in_period(period: Period, m: u32) -> bool
    ensures { result ≡ in_period period m }
{
    (period.first..period.end).contains(&m)
}
