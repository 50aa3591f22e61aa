// The 64 numbers of figures.
ghost use Rattle.std.specs.Prelude.{◌≡◌, ◌++◌, map, ◌+◌, ◌≤◌, pos, length, drop};
ghost use Rattle.std.proofs.Math.Seq.{paste};
ghost use Rattle.figure_numbers.specs.Numbers.{numbers_length, sum_number, totals_of, numbers_of};

use super::Numbers;
use figures::Figures;

// A sum of ages as a number, as far as its limit.
#[tactic(auto, unfolding(crate::specs::Numbers::sum_number))]
fn sum_number(sum: u64) -> i64
    ensures { result ≡ sum_number sum }
{
    sum.min(Figures::SUM) as i64
}

// Counts from a place on.
fn put_counts(counts: &[u32], at: usize, out: &mut [i64])
    requires { at + length counts.now ≤ length out.old }
    ensures { out.new ≡ paste out.old at (map pos counts.now) (length counts.now) }
{
    for i in 0..counts.len() {
        out[at + i] = i64::from(counts[i]);
    }
}

// Numbers from a place on.
fn put_numbers(numbers: &[i64], at: usize, out: &mut [i64])
    requires { at + length numbers.now ≤ length out.old }
    ensures { out.new ≡ paste out.old at numbers.now (length numbers.now) }
{
    out[at..at + numbers.len()].copy_from_slice(numbers);
}

// The figures that are no counts by number, weekday or hour, and three numbers that are kept for later.
#[tactic(auto, unfolding(crate::specs::Numbers::totals_of))]
fn totals_of(figures: &Figures) -> [i64; Numbers::TOTALS]
    ensures { result ≡ totals_of figures.now }
{
    let below = figures.below_zero_sum();
    let sum = sum_number(figures.sum);
    let ages = i64::from(figures.ages);
    let refused = i64::from(figures.refused);
    let given = i64::from(figures.given);
    [below, sum, ages, refused, given, 0, 0, 0]
}

// All 64 at the front of the lent numbers; later ones stay.
pub fn put_figures(figures: &Figures, out: &mut [i64])
    requires { numbers_length ≤ length out.old }
    ensures { out.new ≡ numbers_of figures.now ++ drop numbers_length out.old }
{
    let totals = totals_of(figures);
    put_counts(&figures.answers, Numbers::ANSWERS, out);
    put_counts(&figures.weekdays, Numbers::WEEKDAYS, out);
    put_numbers(&[0i64; 1], Numbers::UNUSED, out);
    put_counts(&figures.hours, Numbers::HOURS, out);
    put_numbers(&totals, Numbers::BELOW_ZERO_SUM, out);
}
