// Figures as 64 numbers in a lent slice, for callers that cannot hold a struct of arrays (include/supertab.h).
#![tactic(auto)]

mod from_numbers; // the figures that 64 numbers say
pub mod lent; // the two calls on lent numbers
mod to_numbers; // the 64 numbers of figures
mod usable; // whether numbers can be figures

// The numbers of figures.
#[derive(Drop)]
pub struct Numbers;

impl Numbers {
    // How many there are.
    pub const LENGTH: usize = 64;

    // Where each group begins; the numbers that no figure has are 0.
    pub const ANSWERS: usize = 0;

    pub const WEEKDAYS: usize = 24;

    pub const UNUSED: usize = 31;

    pub const HOURS: usize = 32;

    pub const BELOW_ZERO_SUM: usize = 56;

    pub const AGE_SUM: usize = 57;

    pub const AGE_COUNT: usize = 58;

    pub const REFUSED: usize = 59;

    pub const GIVEN: usize = 60;

    // The end of the last count.
    pub const END: usize = 61;

    // How many stand from the first sum on.
    pub const TOTALS: usize = 8;
}
