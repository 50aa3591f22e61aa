// The rightmost rule, alternative by alternative: the same for users, groups and times.
ghost use Rattle.std.specs.Option.{unwrap_or};
ghost use Rattle.std.specs.Prelude.{◌≡◌};
ghost use Rattle.condition.specs.Rightmost.{judged};
ghost use Rattle.condition.specs.Contract.{none_kept, added};

// What is kept of the alternatives so far.
#[derive(Clone, Copy, PartialEq, Eq)]
pub struct Rightmost {
    // What the last that applied says; none applied otherwise.
    pub said: Option<bool>,
    // Whether all are negated.
    pub negated: bool,
    // Whether there is any.
    pub some: bool,
}

impl Rightmost {
    // Before the first alternative.
    pub fn new() -> Self
        ensures { result ≡ none_kept }
    {
        Rightmost {
            said: None,
            negated: true,
            some: false,
        }
    }

    // The next alternative, in the order written.
    #[tactic(auto, unfolding(crate::specs::Contract::added))]
    pub fn add(self, negated: bool, applies: bool) -> Self
        ensures { result ≡ added self (judged negated applies) }
    {
        Rightmost {
            said: if applies { Some(!negated) } else { self.said },
            negated: self.negated && negated,
            some: true,
        }
    }

    // What the rightmost that applied says, or the default where none did.
    pub fn says(self, default: bool) -> bool
        ensures { result ≡ unwrap_or self.said default }
    {
        self.said.unwrap_or(default)
    }

    // Where none applied, the times are accepted if all are negated.
    pub fn times_accept(self) -> bool
        ensures { result ≡ unwrap_or self.said self.negated }
    {
        self.says(self.negated)
    }
}
