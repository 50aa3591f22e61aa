// A comma list of names: whether it is good, and whether it has the one who is asked about.
ghost use Rattle.std.specs.Str.{bytes_eq};
ghost use Rattle.std.specs.List.{list_all, list_any, slice_split};
ghost use Rattle.std.specs.Prelude.{◌≡◌, cond, [], ◌∷◌};
ghost use Rattle.text.specs.Bytes.{is};
ghost use Rattle.question.specs.Contract.{strings_in};
ghost use Rattle.suauth.specs.Rule.{reserved, list_name, list_in};
ghost use Rattle.suauth.specs.Meaning.{any_of};
ghost use Rattle.suauth.specs.Contract.{names_told};

use question::User;
use question::form::name_is_good;
use question::strings::Strings;
use text::split::Split;

// Whether a word is one that is no name in a file.
#[tactic(auto, unfolding(crate::specs::Rule::reserved))]
fn is_reserved(p: &[u8]) -> bool
    ensures { result ≡ reserved p.now }
{
    p == b"ALL".as_slice() || p == b"EXCEPT".as_slice() || p == b"GROUP".as_slice()
}

// Whether a part of a list is a name.
#[tactic(auto, unfolding(crate::specs::Rule::list_name))]
fn is_list_name(p: &[u8]) -> bool
    ensures { result ≡ list_name p.now }
{
    name_is_good(p, User::BYTES) && !is_reserved(p)
}

// Whether each part between commas is a name.
fn list_is_good(s: &[u8]) -> bool
    ensures { result ≡ list_all list_name (slice_split (is ",") s.now) }
{
    Split::new(s, b',').all(|p| is_list_name(p))
}

// Whether a name is one of the groups.
fn is_group(name: &[u8], groups: &[u8]) -> bool
    ensures { result ≡ list_any (bytes_eq name.now) (strings_in groups.now) }
{
    Strings(groups).any(|group| name == group)
}

// Whether a name is the user's, or that of one of the groups.
fn is_asked(name: &[u8], user: &[u8], groups: &[u8], grouped: bool) -> bool
    ensures { result ≡ list_any (bytes_eq name.now) (cond grouped (strings_in groups.now) (user.now ∷ [])) }
{
    if grouped {
        is_group(name, groups)
    } else {
        name == user
    }
}

// Whether some part between commas is the user, or one of the groups.
fn list_has(s: &[u8], user: &[u8], groups: &[u8], grouped: bool) -> bool
    ensures { result ≡ any_of (cond grouped (strings_in groups.now) (user.now ∷ [])) (slice_split (is ",") s.now) }
{
    Split::new(s, b',').any(|p| is_asked(p, user, groups, grouped))
}

// A list of users, or of groups.
#[tactic(auto, unfolding(crate::specs::Rule::list_in, crate::specs::Meaning::holds))]
pub fn list_tells(s: &[u8], user: &[u8], groups: &[u8], grouped: bool) -> Option<bool>
    ensures { result ≡ names_told user.now (strings_in groups.now) (list_in grouped s.now) }
{
    if !list_is_good(s) {
        return None;
    }
    Some(list_has(s, user, groups, grouped))
}
