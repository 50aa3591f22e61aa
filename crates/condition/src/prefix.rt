// What a condition asks for, by its prefix.
ghost use Rattle.std.specs.Prelude.{◌≡◌, ◌≤◌, length};
ghost use Rattle.condition.specs.Condition.{prefixed};
ghost use Rattle.condition.specs.Contract.{prefixed_in};

#[derive(Clone, Copy, PartialEq, Eq)]
pub enum Asks {
    User,
    Group,
    Time,
}

// What a condition asks for, whether a prefix says so, and where its pattern begins.
#[derive(Drop)]
pub struct Prefix {
    pub asks: Asks,
    pub written: bool,
    pub at: usize,
}

// The prefix of a condition behind its `!`.
#[tactic(auto, unfolding(crate::specs::Condition::prefixed))]
pub fn prefix_of(text: &[u8]) -> Prefix
    ensures { (prefixed_in text.now result ≡ prefixed text.now) × (result.at ≤ length text.now) }
{
    if text.starts_with(b"user~") {
        return Prefix {
            asks: Asks::User,
            written: true,
            at: 5,
        };
    }
    if text.starts_with(b"group~") {
        return Prefix {
            asks: Asks::Group,
            written: true,
            at: 6,
        };
    }
    if text.starts_with(b"time~") {
        return Prefix {
            asks: Asks::Time,
            written: true,
            at: 5,
        };
    }
    Prefix {
        asks: Asks::User,
        written: false,
        at: 0,
    }
}
