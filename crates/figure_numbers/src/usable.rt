// Whether numbers can be figures: counts up to the limit, and sums that so many ages can have.
ghost use Rattle.std.specs.List.{list_all};
ghost use Rattle.std.specs.Prelude.{◌≡◌, ◌≤◌, length};
ghost use Rattle.figure_numbers.specs.Numbers.{numbers_length, is_between, is_count, usable};

use super::Numbers;
use figures::Figures;

// The largest count, and the bounds of the two sums.
const LIMIT: i64 = Figures::LIMIT as i64;

const SUM: i64 = Figures::SUM as i64;

fn is_between(low: i64, n: i64, high: i64) -> bool
    ensures { result ≡ is_between low high n }
{
    low <= n && n <= high
}

// Whether all are counts.
fn are_counts(numbers: &[i64]) -> bool
    ensures { result ≡ list_all is_count numbers.now }
{
    numbers.iter().all(|n| is_between(0, *n, LIMIT))
}

// Whether the first 64 can be figures.
#[tactic(auto, unfolding(crate::specs::Numbers::usable))]
pub fn is_usable(numbers: &[i64]) -> bool
    requires { numbers_length ≤ length numbers.now }
    ensures { result ≡ usable numbers.now }
{
    are_counts(&numbers[Numbers::ANSWERS..Numbers::UNUSED])
        && are_counts(&numbers[Numbers::HOURS..Numbers::BELOW_ZERO_SUM])
        && is_between(-SUM, numbers[Numbers::BELOW_ZERO_SUM], 0)
        && is_between(0, numbers[Numbers::AGE_SUM], SUM)
        && are_counts(&numbers[Numbers::AGE_COUNT..Numbers::END])
}
