// Monthly figures of log records, fed in batches.
#![tactic(auto)]

ghost use Rattle.std.specs.Prelude.{◌≡◌, Err};
ghost use Rattle.figures.specs.Feed.{feed_told};

mod amount; // what the age of one record adds to the sums
mod counts; // counts that stop at the limit
pub mod feed; // batches of records
pub mod report; // the figures one by one

// The figures of the records so far.
#[derive(Clone, Copy)]
pub struct Figures {
    // How many records have each answer number.
    pub answers: [u32; Figures::ANSWERS],
    // How many are of each weekday, from Monday on, and of each hour of the day.
    pub weekdays: [u32; Figures::WEEKDAYS],
    pub hours: [u32; Figures::HOURS],
    // How far the ages below zero of the answers 0 and 1 lie below it, all together.
    pub below: u64,
    // The sum of their other ages, and how many these are.
    pub sum: u64,
    pub ages: u32,
    // How many records are refused, and how many were given.
    pub refused: u32,
    pub given: u32,
}

impl Figures {
    // The most records that are given.
    pub const LIMIT: u32 = 1000000;

    // What no sum of the ages of so many records passes.
    pub const SUM: u64 = 16777215000000;

    pub const ANSWERS: usize = 24;

    pub const WEEKDAYS: usize = 7;

    pub const HOURS: usize = 24;
}

// Why a batch, or a part of it, is refused.
#[derive(Clone, Copy, PartialEq, Eq)]
pub enum FeedFault {
    // The bytes are no whole records; the figures are as they were.
    NotWhole,
    // So many records lie past the limit; those before them count.
    PastLimit(u64),
}

impl FeedFault {
    // The refusal's number.
    #[tactic(auto, unfolding(crate::specs::Feed::feed_told))]
    pub fn number(self) -> u8
        ensures { result ≡ (feed_told (Err self)).number }
    {
        match self {
            FeedFault::NotWhole => 1,
            FeedFault::PastLimit(_) => 2,
        }
    }
}
