// One side of a rule.
ghost use Rattle.std.specs.Prelude.{◌≡◌};
ghost use Rattle.question.specs.Contract.{strings_in};
ghost use Rattle.suauth.specs.Rule.{behind_word, names_in, ids_in};
ghost use Rattle.suauth.specs.Contract.{text_in, names_told, ids_told};

use super::names::list_tells;
use text::class::is_blank;

// What stands behind a word and one blank.
#[tactic(auto, unfolding(crate::specs::Rule::behind_word))]
fn behind_word<'a>(s: &'a [u8], word: &[u8]) -> Option<&'a [u8]>
    ensures { text_in result ≡ behind_word word.now s.now }
{
    let behind = s.strip_prefix(word)?;
    match behind.split_first() {
        Some((b, rest)) if is_blank(*b) => Some(rest),
        _ => None,
    }
}

// A list of users, or on the from side one of groups.
#[tactic(auto, unfolding(crate::specs::Rule::names_in))]
fn names_tell(s: &[u8], from: bool, user: &[u8], groups: &[u8]) -> Option<bool>
    ensures { result ≡ names_told user.now (strings_in groups.now) (names_in from s.now) }
{
    if from {
        if let Some(list) = behind_word(s, b"GROUP") {
            return list_tells(list, user, groups, true);
        }
    }
    list_tells(s, user, groups, false)
}

// An id; `from` says that it is on the from side.
#[tactic(auto, unfolding(crate::specs::Rule::ids_in, crate::specs::Meaning::means))]
pub fn ids_tell(s: &[u8], from: bool, user: &[u8], groups: &[u8]) -> Option<bool>
    ensures { result ≡ ids_told user.now (strings_in groups.now) (ids_in from s.now) }
{
    if s == b"ALL".as_slice() {
        return Some(true);
    }
    if let Some(rest) = behind_word(s, b"ALL") {
        if let Some(list) = behind_word(rest, b"EXCEPT") {
            return names_tell(list, from, user, groups).map(|x| !x);
        }
    }
    names_tell(s, from, user, groups)
}
