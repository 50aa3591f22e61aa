// The bar beside a count: as long as the count is large beside the largest of its group.
ghost use Rattle.std.specs.Prelude.{◌≡◌, replicate};
ghost use Rattle.output.specs.Contract.{WroteAfter};
ghost use Rattle.summary.specs.Bar.{largest_of, bar_length, gap_text, bar_text};

use output::behind::{then_all, then_byte};

#[derive(Drop)]
pub struct Bar;

impl Bar {
    // The length for the largest count.
    pub const LENGTH: u64 = 48;
}

// The largest of some counts, 0 for none.
pub fn largest(counts: &[u32]) -> u32
    ensures { result ≡ largest_of counts.now }
{
    let mut most = 0;
    for &n in counts {
        most = n.max(most);
    }
    most
}

// The length of a bar, rounded up, so that every count but 0 shows.
fn bar_length(n: u32, most: u32) -> usize
    ensures { result ≡ bar_length n most }
{
    if most == 0 {
        return 0;
    }
    (u64::from(n) * Bar::LENGTH).div_ceil(u64::from(most)) as usize
}

// So many marks.
fn then_marks(filled: Option<usize>, marks: usize, out: &mut [u8]) -> Option<usize>
    ensures { WroteAfter filled out.old out.new (replicate marks 35) result }
{
    let mut last = filled;
    for _ in 0..marks {
        last = then_byte(last, b'#', out);
    }
    last
}

// Blanks that fill up a count to eight columns.
fn then_gap(filled: Option<usize>, n: u32, out: &mut [u8]) -> Option<usize>
    ensures { WroteAfter filled out.old out.new (gap_text n) result }
{
    if n < 10 {
        return then_all(filled, b"       ", out);
    }
    if n < 100 {
        return then_all(filled, b"      ", out);
    }
    if n < 1000 {
        return then_all(filled, b"     ", out);
    }
    if n < 10000 {
        return then_all(filled, b"    ", out);
    }
    if n < 100000 {
        return then_all(filled, b"   ", out);
    }
    if n < 1000000 {
        return then_all(filled, b"  ", out);
    }
    then_all(filled, b" ", out)
}

// The bar of a count beside the largest; none where either is 0.
pub fn then_bar(filled: Option<usize>, n: u32, most: u32, out: &mut [u8]) -> Option<usize>
    ensures { WroteAfter filled out.old out.new (bar_text n most) result }
{
    let length = bar_length(n, most);
    if length == 0 {
        return filled;
    }
    let gap = then_gap(filled, n, out);
    then_marks(gap, length, out)
}
