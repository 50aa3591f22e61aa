// The value of a timeout: minutes, which may be below zero.
ghost use Rattle.text.specs.Number.{decimal_of};
ghost use Rattle.std.specs.Prelude.{ℕ, ◌≤◌, ◌≡◌, cond, List, pos, neg_ℤ};
ghost use Rattle.options.specs.Read.{most_below, minutes_of, timeout_of};
ghost use Rattle.options.specs.Contract.{set_in};

use super::setting::OptionSetting;
use fault::Cause;
use text::number::decimal;

#[derive(Clone, Copy)]
pub struct Timeout;

impl Timeout {
    // The most minutes.
    pub const MOST: u32 = 32767;

    // The most minutes below zero.
    pub const MOST_BELOW: u32 = 32768;
}

fn signed(n: u32, below: bool) -> i32
    requires { n ≤ most_below }
    ensures { result ≡ cond below (neg_ℤ (pos n)) (pos n) }
{
    if below { -(n as i32) } else { n as i32 }
}

// The digits of a timeout, from 0 to most.
fn read_minutes(s: &[u8], most: u32, below: bool) -> Result<OptionSetting, Cause>
    requires { most ≤ most_below }
    ensures { (v : List ℕ) → set_in v result ≡ minutes_of (λ n. cond below (neg_ℤ (pos n)) (pos n)) most (decimal_of s.now) }
{
    let n = decimal(s).ok_or(Cause::OptionValue)?;
    if n > most {
        return Err(Cause::OptionValue);
    }
    Ok(OptionSetting::SetTimeout(signed(n, below)))
}

// Digits, after an optional `-`.
#[tactic(auto, unfolding(crate::specs::Read::timeout_of))]
pub fn read_timeout(v: &[u8]) -> Result<OptionSetting, Cause>
    ensures { set_in v.now result ≡ timeout_of v.now }
{
    if v.starts_with(b"-") {
        return read_minutes(&v[1..], Timeout::MOST_BELOW, true);
    }
    read_minutes(v, Timeout::MOST, false)
}
