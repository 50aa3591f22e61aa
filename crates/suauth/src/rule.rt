// One line.
ghost use Rattle.std.specs.Prelude.{◌≡◌};
ghost use Rattle.suauth.specs.Rule.{action_in, rule_of, text_rule, rule_in};
ghost use Rattle.suauth.specs.Contract.{question_in, line_tells};

use super::Action;
use super::ids::ids_tell;
use super::trim::trimmed;
use text::slice::head_is;
use text::split::Split;

// A line that is no rule and may not be skipped.
#[derive(Clone, Copy)]
pub struct Malformed;

// An action by its name.
#[tactic(auto, unfolding(crate::specs::Rule::action_in))]
fn read_action(s: &[u8]) -> Option<Action>
    ensures { result ≡ action_in s.now }
{
    if s == b"DENY".as_slice() {
        Some(Action::Deny)
    } else if s == b"NOPASS".as_slice() {
        Some(Action::NoPassword)
    } else if s == b"OWNPASS".as_slice() {
        Some(Action::OwnPassword)
    } else {
        None
    }
}

// The action of a rule of three parts, where both its sides apply; no group is asked about on the to side.
#[tactic(auto, using(crate::proofs::RuleLaws::rule_told), unfolding(question::specs::Contract::strings_in))]
fn rule_tells(
    to: &[u8],
    from: &[u8],
    action: &[u8],
    target: &[u8],
    user: &[u8],
    groups: &[u8],
) -> Result<Option<Action>, Malformed>
    ensures { result ≡ line_tells (question_in target.now user.now groups.now) (rule_of to.now from.now action.now) }
{
    let to = ids_tell(to, false, target, b"").ok_or(Malformed)?;
    let from = ids_tell(from, true, user, groups).ok_or(Malformed)?;
    let action = read_action(action).ok_or(Malformed)?;
    Ok((to && from).then_some(action))
}

// The same of a line without the blanks at its two ends: none of a line that is skipped.
fn text_tells(
    text: &[u8],
    target: &[u8],
    user: &[u8],
    groups: &[u8],
) -> Result<Option<Action>, Malformed>
    ensures { result ≡ line_tells (question_in target.now user.now groups.now) (text_rule text.now) }
{
    if text.is_empty() || head_is(text, b'#') {
        return Ok(None);
    }
    let mut parts = Split::new(text, b':');
    let (Some(to), Some(from), Some(action), None) = (
        parts.next(),
        parts.next(),
        parts.next(),
        parts.next(),
    ) else {
        return Err(Malformed);
    };
    rule_tells(to, from, action, target, user, groups)
}

// The same of a line without its newline.
#[tactic(auto, unfolding(crate::specs::Rule::rule_in))]
pub fn line_tells(
    line: &[u8],
    target: &[u8],
    user: &[u8],
    groups: &[u8],
) -> Result<Option<Action>, Malformed>
    ensures { result ≡ line_tells (question_in target.now user.now groups.now) (rule_in line.now) }
{
    text_tells(trimmed(line), target, user, groups)
}
