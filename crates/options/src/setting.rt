// What an option sets.
ghost use Rattle.std.specs.Prelude.{ℕ, ◌≡◌, ◌<◌, List, IfSome};
ghost use Rattle.options.specs.Contract.{setting_in, once};

use super::Id;
use super::span::Span;

// The bytes of an id or of a pattern are the value in the option's text.
#[derive(Clone, Copy)]
pub enum OptionSetting {
    SetId(Id),
    SetAuth(bool),
    SetTimeout(i32),
    SetNargs(Span),
    // The positions that the pattern covers.
    SetArgument(Span),
    SetShell,
}

impl OptionSetting {
    // The number of its option among those that may not stand twice; argument patterns may.
    pub fn number(self) -> Option<usize>
        ensures which { (v : List ℕ) → result ≡ once (setting_in v self).which }
        ensures below { IfSome result (λ k. k < 8) }
    {
        match self {
            OptionSetting::SetId(id) => Some(id.number()),
            OptionSetting::SetAuth(_) => Some(4),
            OptionSetting::SetTimeout(_) => Some(5),
            OptionSetting::SetNargs(_) => Some(6),
            OptionSetting::SetShell => Some(7),
            OptionSetting::SetArgument(_) => None,
        }
    }
}
