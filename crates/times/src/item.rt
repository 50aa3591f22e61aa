// Time items: one brace-free expansion of what follows `time~`.
ghost use Rattle.std.specs.Prelude.{◌≡◌, None};
ghost use Rattle.times.specs.Item.{item_parts, item_of, on_day, item_matches};
ghost use Rattle.times.specs.Contract.{item_answer};

use super::day::{Day, read_day};
use super::parts::split_once;
use super::period::{Period, is_in_period, read_period};
use question::WeekMinute;

// The minutes of the week: a period on its days.
#[derive(Clone, Copy)]
pub struct TimeItem {
    pub period: Period,
    pub day: Day,
}

// An item without a slash: a day alone, or a period on every day.
fn read_alone(s: &[u8]) -> Option<TimeItem>
    ensures { result ≡ item_parts s.now None }
{
    if let Some(day) = read_day(s) {
        let period = Period {
            first: 0,
            end: Period::DAY,
        };
        return Some(TimeItem { period, day });
    }
    let period = read_period(s)?;
    Some(TimeItem {
        period,
        day: Day::Every,
    })
}

// The item that s writes.
#[tactic(auto, unfolding(crate::specs::Item::item_of))]
pub fn read_item(s: &[u8]) -> Option<TimeItem>
    ensures { result ≡ item_of s.now }
{
    let Some((period, day)) = split_once(s, b'/') else {
        return read_alone(s);
    };
    Some(TimeItem {
        period: read_period(period)?,
        day: read_day(day)?,
    })
}

// Whether day d is one of the days.
#[tactic(auto, unfolding(crate::specs::Item::on_day))]
fn is_on_day(day: Day, d: u32) -> bool
    ensures { result ≡ on_day day d }
{
    match day {
        Day::Every => true,
        Day::Only(k) => d == k,
    }
}

impl TimeItem {
    // Whether the minute of the week is one of the item's.
    #[tactic(auto, unfolding(crate::specs::Item::item_matches))]
    pub fn matches(self, minute: WeekMinute) -> bool
        ensures { result ≡ item_matches self minute.0 }
    {
        let m = u32::from(minute.0);
        is_on_day(self.day, m / Period::DAY) && is_in_period(self.period, m % Period::DAY)
    }
}

// Whether an expansion matches a minute of the week; none where it is no good item.
#[tactic(auto, unfolding(crate::specs::Contract::item_answer))]
pub fn item_answer(s: &[u8], minute: WeekMinute) -> Option<bool>
    ensures { result ≡ item_answer (item_of s.now) minute.0 }
{
    Some(read_item(s)?.matches(minute))
}
