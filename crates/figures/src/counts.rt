// Counts that stop at the limit.
ghost use Rattle.std.specs.Prelude.{◌≡◌, cond, ◌<◌, length};
ghost use Rattle.figures.specs.Contract.{more, raised};

use super::Figures;

pub fn one_more(n: u32) -> u32
    ensures { result ≡ more n }
{
    if n < Figures::LIMIT {
        return n + 1;
    }
    Figures::LIMIT
}

// One more if it counts.
pub fn one_more_if(counts: bool, n: u32) -> u32
    ensures { result ≡ cond counts (more n) n }
{
    if counts { one_more(n) } else { n }
}

// One more at a place.
pub fn one_more_at(counts: &mut [u32], at: usize)
    requires { at < length counts.old }
    ensures { counts.new ≡ raised counts.old at }
{
    counts[at] = one_more(counts[at]);
}
