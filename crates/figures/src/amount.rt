// What the age of one record adds to the sums.
ghost use Rattle.std.specs.Prelude.{◌≡◌};
ghost use Rattle.record.specs.Stored.{stored_age};
ghost use Rattle.figures.specs.Figures.{below_zero, from_zero, is_from_zero};
ghost use Rattle.figures.specs.Contract.{summed};

use super::Figures;
use question::Age;
use record::age::{is_below, size_of};

// How far an age of an answer 0 or 1 lies below zero; 0 for every other.
pub fn below_zero(number: u8, age: Option<Age>) -> u64
    ensures { result ≡ below_zero number (stored_age age) }
{
    if number > 1 {
        return 0;
    }
    if !is_below(age) {
        return 0;
    }
    size_of(age)
}

// Whether it is an age of an answer 0 or 1 that does not lie below zero; "never" is none.
pub fn is_from_zero(number: u8, age: Option<Age>) -> bool
    ensures { result ≡ is_from_zero number (stored_age age) }
{
    if number > 1 {
        return false;
    }
    !is_below(age)
}

// Such an age; 0 for every other.
pub fn from_zero(number: u8, age: Option<Age>) -> u64
    ensures { result ≡ from_zero number (stored_age age) }
{
    if !is_from_zero(number, age) {
        return 0;
    }
    size_of(age)
}

// The sum and one amount more, as far as the sum's limit.
pub fn add_to(sum: u64, amount: u64) -> u64
    ensures { result ≡ summed sum amount }
{
    if sum >= Figures::SUM {
        return Figures::SUM;
    }
    if amount > Figures::SUM - sum {
        return Figures::SUM;
    }
    sum + amount
}
