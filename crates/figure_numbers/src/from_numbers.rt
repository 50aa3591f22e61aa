// The figures that 64 numbers say.
ghost use Rattle.std.specs.Prelude.{◌≡◌, map, ◌+◌, ◌≤◌, length, take, drop};
ghost use Rattle.figure_numbers.specs.Numbers.{numbers_length, count_in, sum_in, below_in, figures_in};

use super::Numbers;
use figures::Figures;

// A number as a count, as far as the limit; 0 below zero.
#[tactic(auto, unfolding(crate::specs::Numbers::nearest))]
fn count_in(n: i64) -> u32
    ensures { result ≡ count_in n }
{
    n.clamp(0, Figures::LIMIT as i64) as u32
}

// A number as a sum of ages, as far as their limit; 0 below zero.
#[tactic(auto, unfolding(crate::specs::Numbers::nearest))]
fn sum_in(n: i64) -> u64
    ensures { result ≡ sum_in n }
{
    n.clamp(0, Figures::SUM as i64) as u64
}

// How far a number lies below zero, as far as the limit of sums.
#[tactic(auto, unfolding(crate::specs::Numbers::nearest))]
fn below_in(n: i64) -> u64
    ensures { result ≡ below_in n }
{
    (0 - n.clamp(-(Figures::SUM as i64), 0)) as u64
}

// The numbers from a place on as counts, as many as there is room for.
fn counts_from(numbers: &[i64], at: usize, counts: &mut [u32])
    requires { at + length counts.old ≤ length numbers.now }
    ensures { counts.new ≡ map count_in (take (length counts.old) (drop at numbers.now)) }
{
    for i in 0..counts.len() {
        counts[i] = count_in(numbers[at + i]);
    }
}

// The figures of the first 64.
pub fn figures_in(numbers: &[i64]) -> Figures
    requires { numbers_length ≤ length numbers.now }
    ensures { result ≡ figures_in numbers.now }
{
    let mut answers = [0u32; Figures::ANSWERS];
    let mut weekdays = [0u32; Figures::WEEKDAYS];
    let mut hours = [0u32; Figures::HOURS];
    counts_from(numbers, Numbers::ANSWERS, &mut answers);
    counts_from(numbers, Numbers::WEEKDAYS, &mut weekdays);
    counts_from(numbers, Numbers::HOURS, &mut hours);
    Figures {
        answers,
        weekdays,
        hours,
        below: below_in(numbers[Numbers::BELOW_ZERO_SUM]),
        sum: sum_in(numbers[Numbers::AGE_SUM]),
        ages: count_in(numbers[Numbers::AGE_COUNT]),
        refused: count_in(numbers[Numbers::REFUSED]),
        given: count_in(numbers[Numbers::GIVEN]),
    }
}
