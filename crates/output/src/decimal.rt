// A number put into a lent buffer in decimal digits.
ghost use Rattle.text.specs.Contract.{Wrote};
ghost use Rattle.output.specs.Decimal.{decimal};

use text::buffer::put;

// The digits of the tens, then that of the ones.
pub fn put_decimal(out: &mut [u8], n: usize, v: usize) -> Option<usize>
    ensures { Wrote out.old out.new n (decimal v) result }
{
    if v < 10 {
        return put(out, n, b'0' + v as u8);
    }
    let m = put_decimal(out, n, v / 10)?;
    put(out, m, b'0' + (v % 10) as u8)
}
