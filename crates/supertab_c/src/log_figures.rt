// The calls for C on figures of log records. Their prototypes and their meaning for a user stand in include/supertab.h.
ghost use Rattle.std.specs.Prelude.{◌≤◌, ◌≡◌, length};
ghost use Rattle.figures.specs.Feed.{feed_told};
ghost use Rattle.supertab_c.specs.Figures.{new_numbers, new_call, past_after, CallFeeds};

use super::report::{Report, counted_as};
use figure_numbers::lent::{FeedNumbersFault, clear, feed};
use figures::FeedFault;

// How many records lie past the limit, at the front of the lent numbers; nothing where the batch was not looked at.
#[tactic(auto, unfolding(figures::specs::Feed::feed_told, crate::specs::Report::counted))]
fn put_past(fed: Result<(), FeedFault>, refused: &mut [i64])
    requires { 1 ≤ length refused.old }
    ensures { refused.new ≡ past_after (feed_told fed).past refused.old }
{
    match fed {
        Ok(()) => refused[0] = 0,
        Err(FeedFault::NotWhole) => {}
        Err(FeedFault::PastLimit(n)) => refused[0] = counted_as(n as usize),
    }
}

// The figures of no records: the result is 0, or 255 for fewer than 64 numbers.
#[unsafe(no_mangle)]
pub extern "C" fn supertab_figures_new(figures: &mut [i64]) -> u8
    ensures { new_numbers result figures.new ≡ new_call figures.old }
{
    match clear(figures) {
        Ok(()) => 0,
        Err(_) => Report::SHORT,
    }
}

// Feeds a batch of records to figures: the result is 0, the number of the refusal, or 255.
#[unsafe(no_mangle)]
pub extern "C" fn supertab_figures_feed(
    figures: &mut [i64],
    batch: &[u8],
    refused: &mut [i64],
) -> u8
    ensures { CallFeeds figures.old batch.now refused.old result figures.new refused.new }
{
    if refused.len() == 0 {
        return Report::SHORT;
    }
    match feed(figures, batch) {
        Ok(()) => {
            put_past(Ok(()), refused);
            0
        }
        Err(FeedNumbersFault::Feed(fault)) => {
            put_past(Err(fault), refused);
            fault.number()
        }
        Err(FeedNumbersFault::Unusable) => Report::SHORT,
    }
}
