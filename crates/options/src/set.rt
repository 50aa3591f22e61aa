// The options that hold one setting, each set or not, by value.
ghost use Rattle.std.specs.Option.{option_map};
ghost use Rattle.std.specs.Prelude.{◌≡◌};
ghost use Rattle.question.specs.Password.{password_needed};
ghost use Rattle.options.specs.Options.{no_options, over, auth_or, timeout_or};
ghost use Rattle.options.specs.Contract.{id_in, span_in, options_in, id_at, setting_in};

use super::Id;
use super::ids::IdName;
use super::setting::OptionSetting;
use super::span::Span;
use question::Age;
use question::password::password_needed;

// The timeout in minutes as it counts: 0 where it is unset.
pub fn or_zero(timeout: Option<i32>) -> i32
    ensures { result ≡ timeout_or timeout }
{
    timeout.unwrap_or(0)
}

// The auth as it counts: n where it is unset.
pub fn or_no(auth: Option<bool>) -> bool
    ensures { result ≡ auth_or auth }
{
    auth.unwrap_or(false)
}

#[derive(Clone, Copy)]
pub struct OptionSet {
    uid: Option<IdName>,
    euid: Option<IdName>,
    gid: Option<IdName>,
    egid: Option<IdName>,
    auth: Option<bool>,
    timeout: Option<i32>,
    nargs: Option<Span>,
}

impl OptionSet {
    #[tactic(auto, unfolding(crate::specs::Contract::options_in, crate::specs::Options::no_options))]
    pub fn new() -> Self
        ensures { options_in result ≡ no_options }
    {
        OptionSet {
            uid: None,
            euid: None,
            gid: None,
            egid: None,
            auth: None,
            timeout: None,
            nargs: None,
        }
    }

    // The set with one setting, by the value in its text.
    #[tactic(auto, unfolding(crate::specs::Contract::options_in, crate::specs::Options::no_options))]
    fn only(value: &[u8], setting: OptionSetting) -> Self
        ensures { options_in result ≡ (setting_in value.now setting).options }
    {
        let none = OptionSet::new();
        match setting {
            OptionSetting::SetId(id) => {
                let name = Some(IdName::of(value));
                match id {
                    Id::Uid => OptionSet { uid: name, ..none },
                    Id::Euid => OptionSet { euid: name, ..none },
                    Id::Gid => OptionSet { gid: name, ..none },
                    Id::Egid => OptionSet { egid: name, ..none },
                }
            }
            OptionSetting::SetAuth(yes) => OptionSet {
                auth: Some(yes),
                ..none
            },
            OptionSetting::SetTimeout(minutes) => OptionSet {
                timeout: Some(minutes),
                ..none
            },
            OptionSetting::SetNargs(span) => OptionSet {
                nargs: Some(span),
                ..none
            },
            OptionSetting::SetArgument(_) | OptionSetting::SetShell => none,
        }
    }

    // With one more setting of the line, by the value in its text; what is set stays.
    pub fn add(self, value: &[u8], setting: OptionSetting) -> Self
        ensures { options_in result ≡ over (options_in self) (setting_in value.now setting).options }
    {
        self.over(OptionSet::only(value, setting))
    }

    // This set laid over the other: what this one has, else what the other has.
    #[tactic(auto, using(crate::proofs::SetLaws::map_or), unfolding(crate::specs::Contract::options_in, crate::specs::Options::over))]
    pub fn over(self, other: OptionSet) -> Self
        ensures { options_in result ≡ over (options_in self) (options_in other) }
    {
        OptionSet {
            uid: self.uid.or(other.uid),
            euid: self.euid.or(other.euid),
            gid: self.gid.or(other.gid),
            egid: self.egid.or(other.egid),
            auth: self.auth.or(other.auth),
            timeout: self.timeout.or(other.timeout),
            nargs: self.nargs.or(other.nargs),
        }
    }

    #[tactic(auto, unfolding(crate::specs::Contract::options_in))]
    pub fn id(self, id: Id) -> Option<IdName>
        ensures { option_map id_in result ≡ id_at (options_in self) id }
    {
        match id {
            Id::Uid => self.uid,
            Id::Euid => self.euid,
            Id::Gid => self.gid,
            Id::Egid => self.egid,
        }
    }

    #[tactic(auto, unfolding(crate::specs::Contract::options_in))]
    pub fn auth(self) -> Option<bool>
        ensures { result ≡ (options_in self).auth }
    {
        self.auth
    }

    #[tactic(auto, unfolding(crate::specs::Contract::options_in))]
    pub fn timeout(self) -> Option<i32>
        ensures { result ≡ (options_in self).timeout }
    {
        self.timeout
    }

    #[tactic(auto, unfolding(crate::specs::Contract::options_in))]
    pub fn nargs(self) -> Option<Span>
        ensures { option_map span_in result ≡ (options_in self).nargs }
    {
        self.nargs
    }

    // Whether a password is needed: auth and timeout as set, or as they count where they are not.
    #[tactic(auto, unfolding(crate::specs::Contract::options_in))]
    pub fn needs_password(self, last: Option<Age>) -> bool
        ensures { result ≡ password_needed (auth_or (options_in self).auth) (timeout_or (options_in self).timeout) last }
    {
        password_needed(or_no(self.auth), or_zero(self.timeout), last)
    }
}
