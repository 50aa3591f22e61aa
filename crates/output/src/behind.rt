// Bytes put behind what was put before, if that fitted.
ghost use Rattle.std.specs.Prelude.{[], ◌∷◌};
ghost use Rattle.output.specs.Contract.{WroteAfter};
ghost use Rattle.output.specs.Decimal.{decimal};

use super::decimal::put_decimal;
use text::buffer::{put, put_all};

// One byte.
#[tactic(auto, using(crate::proofs::BehindLaws::after_done, crate::proofs::BehindLaws::after_full))]
pub fn then_byte(filled: Option<usize>, b: u8, out: &mut [u8]) -> Option<usize>
    ensures { WroteAfter filled out.old out.new (b ∷ []) result }
{
    put(out, filled?, b)
}

// A slice.
#[tactic(auto, using(crate::proofs::BehindLaws::after_done, crate::proofs::BehindLaws::after_full))]
pub fn then_all(filled: Option<usize>, s: &[u8], out: &mut [u8]) -> Option<usize>
    ensures { WroteAfter filled out.old out.new s.now result }
{
    put_all(out, filled?, s)
}

// A number.
#[tactic(auto, using(crate::proofs::BehindLaws::after_done, crate::proofs::BehindLaws::after_full))]
pub fn then_decimal(filled: Option<usize>, v: usize, out: &mut [u8]) -> Option<usize>
    ensures { WroteAfter filled out.old out.new (decimal v) result }
{
    put_decimal(out, filled?, v)
}
