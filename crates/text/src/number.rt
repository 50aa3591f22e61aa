// Decimal numbers.
ghost use Rattle.std.specs.Prelude.{◌≡◌};
ghost use Rattle.text.specs.Number.{decimal_of};

use super::class::is_digit;

// A number in decimal digits.
#[derive(Drop)]
pub struct Number;

impl Number {
    // The most digits of one; it has at least one.
    pub const DIGITS: usize = 5;
}

// The number that digits write.
#[tactic(auto, using(crate::proofs::Numbers::turn), unfolding(crate::specs::Number::decimal_of, crate::specs::Number::digits, crate::specs::Class::digit))]
pub fn decimal(s: &[u8]) -> Option<u32>
    ensures { result ≡ decimal_of s.now }
{
    if s.is_empty() || s.len() > Number::DIGITS {
        return None;
    }
    let mut v = 0;
    for &b in s {
        if !is_digit(b) {
            return None;
        }
        v = v * 10 + u32::from(b - b'0');
    }
    Some(v)
}
