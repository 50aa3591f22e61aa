// One alternative of a condition: whether it has a good form, and whether it applies.
ghost use Rattle.std.specs.Option.{option_map};
ghost use Rattle.std.specs.List.{list_any};
ghost use Rattle.std.specs.Prelude.{◌≡◌, ◌&&◌};
ghost use Rattle.question.specs.Contract.{strings_in};
ghost use Rattle.glob.specs.Match.{matches};
ghost use Rattle.matching.specs.Alternative.{alternative_of};
ghost use Rattle.times.specs.Item.{item_of, item_matches};
ghost use Rattle.condition.specs.Contract.{sort_in, judge_by, name_applies, applies_by};

use super::prefix::Asks;
use matching::alternative::{Parted, part};
use matching::matcher::matches_one;
use question::WeekMinute;
use question::strings::Strings;
use times::item::item_answer;

// Whether some group, of zero-ended strings, matches a brace-free pattern.
fn some_group_matches(pattern: &[u8], groups: &[u8]) -> bool
    ensures { result ≡ list_any (matches pattern.now) (strings_in groups.now) }
{
    Strings(groups).any(|group| matches_one(pattern, group))
}

// Whether the user, or some group, matches.
#[tactic(auto, unfolding(crate::specs::Contract::name_applies))]
fn name_matches(asks: Asks, pattern: &[u8], user: &[u8], groups: &[u8]) -> bool
    ensures { result ≡ name_applies (sort_in asks) user.now (strings_in groups.now) pattern.now }
{
    match asks {
        Asks::User => matches_one(pattern, user),
        Asks::Group => some_group_matches(pattern, groups),
        Asks::Time => false,
    }
}

// A user or group alternative: the name, and the host where there is one.
#[tactic(auto, using(text::proofs::Laws::part_rest, text::proofs::Laws::both_yes), unfolding(crate::specs::Contract::applies_by))]
fn judge_name(
    asks: Asks,
    judging: bool,
    e: &[u8],
    user: &[u8],
    groups: &[u8],
    host: &[u8],
) -> Option<bool>
    ensures { result ≡ option_map (λ a. judging && applies_by (sort_in asks) user.now (strings_in groups.now) host.now a) (alternative_of e.now) }
{
    match part(e)? {
        Parted::Name => Some(judging && name_matches(asks, e, user, groups)),
        Parted::NameAtHost(at) => Some(
            judging
                && name_matches(asks, &e[..at], user, groups)
                && matches_one(&e[at + 1..], host),
        ),
    }
}

// A time item.
#[tactic(auto, unfolding(times::specs::Contract::item_answer))]
fn judge_time(judging: bool, e: &[u8], minute: WeekMinute) -> Option<bool>
    ensures { result ≡ option_map (λ b. judging && b) (option_map (λ i. item_matches i minute.0) (item_of e.now)) }
{
    let matches = item_answer(e, minute)?;
    Some(judging && matches)
}

// One brace-free expansion; where nothing is judged only its form is looked at, and it does not apply.
#[tactic(auto, unfolding(crate::specs::Contract::judge_by, crate::specs::Condition::judge_of))]
pub fn judge(
    asks: Asks,
    judging: bool,
    minute: WeekMinute,
    e: &[u8],
    user: &[u8],
    groups: &[u8],
    host: &[u8],
) -> Option<bool>
    ensures { result ≡ judge_by judging user.now groups.now host.now minute.0 (sort_in asks) e.now }
{
    match asks {
        Asks::User | Asks::Group => judge_name(asks, judging, e, user, groups, host),
        Asks::Time => judge_time(judging, e, minute),
    }
}
