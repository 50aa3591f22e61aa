// Options: one from a field's text, a set of them laid over another, and what they allow.
#![tactic(auto)]

ghost use Rattle.std.specs.Prelude.{◌≡◌, []};
ghost use Rattle.options.specs.Read.{set_id};

pub mod arguments; // which arguments fail an argument pattern
pub mod ids; // user and group names in options
pub mod line; // which options stand on a line
pub mod parts; // the two parts of a text around a byte
pub mod read; // one option from a field's text
pub mod set; // the options that hold one setting, and one set of them laid over another
pub mod setting; // what an option sets
pub mod span; // ranges of numbers
pub mod timeout; // the value of a timeout

// The options that name a user or a group.
#[derive(Clone, Copy, PartialEq, Eq)]
pub enum Id {
    Uid,
    Euid,
    Gid,
    Egid,
}

impl Id {
    // Its number among the options, whatever its value.
    fn number(self) -> usize
        ensures { result ≡ (set_id self []).which }
    {
        self as usize
    }
}
