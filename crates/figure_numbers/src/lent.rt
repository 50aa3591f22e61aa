// The two calls on lent numbers.
ghost use Rattle.figure_numbers.specs.Contract.{Clears, FeedsNumbers};

use super::Numbers;
use super::from_numbers::figures_in;
use super::to_numbers::put_figures;
use super::usable::is_usable;
use figures::{FeedFault, Figures};

// The lent numbers are fewer than 64, or no figures; they are as they were.
#[derive(Clone, Copy, PartialEq, Eq)]
pub struct Unusable;

// Why a batch for lent numbers, or a part of it, is refused.
#[derive(Clone, Copy, PartialEq, Eq)]
pub enum FeedNumbersFault {
    // The numbers are fewer than 64, or no figures; they are as they were.
    Unusable,
    Feed(FeedFault),
}

// The figures of no records at the front of the lent numbers.
pub fn clear(numbers: &mut [i64]) -> Result<(), Unusable>
    ensures { Clears numbers.old numbers.new result }
{
    if numbers.len() < Numbers::LENGTH {
        return Err(Unusable);
    }
    put_figures(&Figures::new(), numbers);
    Ok(())
}

// Feeds a batch to the figures at the front of the lent numbers.
pub fn feed(numbers: &mut [i64], batch: &[u8]) -> Result<(), FeedNumbersFault>
    ensures { FeedsNumbers numbers.old batch.now numbers.new result }
{
    if numbers.len() < Numbers::LENGTH {
        return Err(FeedNumbersFault::Unusable);
    }
    if !is_usable(numbers) {
        return Err(FeedNumbersFault::Unusable);
    }
    let mut figures = figures_in(numbers);
    match figures.feed(batch) {
        Ok(()) => {
            put_figures(&figures, numbers);
            Ok(())
        }
        Err(FeedFault::NotWhole) => Err(FeedNumbersFault::Feed(FeedFault::NotWhole)),
        Err(FeedFault::PastLimit(n)) => {
            put_figures(&figures, numbers);
            Err(FeedNumbersFault::Feed(FeedFault::PastLimit(n)))
        }
    }
}
