// The sign and the size of an age.
ghost use Rattle.std.specs.Prelude.{◌≡◌, nat_abs};
ghost use Rattle.record.specs.Layout.{is_below, size_of};
ghost use Rattle.record.specs.Stored.{stored_age};

use super::Record;
use question::Age;

// How many minutes lie between an age and zero.
pub fn magnitude(minutes: i32) -> u64
    ensures { result ≡ nat_abs minutes }
{
    u64::from(minutes.unsigned_abs())
}

// The size that is stored, as far as 24 bits hold it; 0 for "never".
pub fn size_of(age: Option<Age>) -> u64
    ensures { result ≡ size_of (stored_age age) }
{
    match age {
        None => 0,
        Some(age) => magnitude(age.0).min(Record::AGE_SIZE),
    }
}

// The sign that is stored; set for "never".
pub fn is_below(age: Option<Age>) -> bool
    ensures { result ≡ is_below (stored_age age) }
{
    match age {
        None => true,
        Some(age) => age.0 < 0,
    }
}
