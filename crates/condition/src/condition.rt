// One condition from a field's text: its alternatives are taken one by one into what is kept of the rightmost rule.
ghost use Rattle.std.specs.Prelude.{◌≤◌, ◌≡◌, [], ◌∷◌, length};
ghost use Rattle.pattern.specs.Whole.{expansions_of};
ghost use Rattle.condition.specs.Condition.{kind_for, cause_for, alternatives_of, condition_behind};
ghost use Rattle.condition.specs.Contract.{sort_in, judge_by, added_by, added_with, expansions_from, GoodPattern, FoundAt, HasBraces, kept_for, read_for, condition_read, condition_told};

use super::judge::judge;
use super::prefix::{Asks, Prefix, prefix_of};
use super::rightmost::Rightmost;
use fault::Cause;
use matching::field::{Expanded, read_pattern_field};
use pattern::alternatives::{Alternative, alternative_at, put_alternative};
use pattern::{Pattern, Syntax};
use question::WeekMinute;
use text::slice::past_head;

// What is kept of a condition's sort with its alternatives.
#[derive(Clone, Copy, PartialEq, Eq)]
pub enum ConditionRead {
    Users(Rightmost),
    Times(Rightmost),
}

fn kind_for(asks: Asks) -> Syntax
    ensures { result ≡ kind_for (sort_in asks) }
{
    match asks {
        Asks::User | Asks::Group => Syntax::Condition,
        Asks::Time => Syntax::Time,
    }
}

fn cause_for(asks: Asks) -> Cause
    ensures { result ≡ cause_for (sort_in asks) }
{
    match asks {
        Asks::User | Asks::Group => Cause::Alternative,
        Asks::Time => Cause::TimeItem,
    }
}

// One alternative more.
#[tactic(auto, using(crate::proofs::AddedLaws::one_missing, crate::proofs::AddedLaws::one_found))]
fn add_one(
    minute: WeekMinute,
    asks: Asks,
    negated: bool,
    judging: bool,
    e: &[u8],
    user: &[u8],
    groups: &[u8],
    host: &[u8],
    kept: Rightmost,
) -> Result<Rightmost, Cause>
    ensures { result ≡ added_with judging user.now groups.now host.now minute negated asks kept (e.now ∷ []) }
{
    let applies = judge(asks, judging, minute, e, user, groups, host).ok_or(cause_for(asks))?;
    Ok(kept.add(negated, applies))
}

// All expansions of the alternative at `at`, which has so many.
fn add_braced(
    syntax: Syntax,
    minute: WeekMinute,
    asks: Asks,
    negated: bool,
    judging: bool,
    p: &[u8],
    at: usize,
    number: usize,
    user: &[u8],
    groups: &[u8],
    host: &[u8],
    kept: Rightmost,
) -> Result<Rightmost, Cause>
    requires { HasBraces syntax p.now at number }
    ensures { result ≡ added_with judging user.now groups.now host.now minute negated asks kept (expansions_from syntax p.now at) }
{
    let mut out = [0u8; Pattern::BYTES];
    let mut r = kept;
    for k in 0..number {
        let n = put_alternative(syntax, p, at, number, k, &mut out).ok_or(Cause::FieldLength)?;
        r = add_one(
            minute,
            asks,
            negated,
            judging,
            &out[..n],
            user,
            groups,
            host,
            r,
        )?;
    }
    Ok(r)
}

// All expansions of the alternative found at `at`; where it is flat, no buffer is needed.
fn add_found(
    syntax: Syntax,
    minute: WeekMinute,
    asks: Asks,
    negated: bool,
    judging: bool,
    p: &[u8],
    at: usize,
    found: Alternative,
    user: &[u8],
    groups: &[u8],
    host: &[u8],
    kept: Rightmost,
) -> Result<Rightmost, Cause>
    requires { FoundAt syntax p.now at found }
    ensures { result ≡ added_with judging user.now groups.now host.now minute negated asks kept (expansions_from syntax p.now at) }
{
    match found {
        Alternative::Flat(end) => add_one(
            minute,
            asks,
            negated,
            judging,
            &p[at..end],
            user,
            groups,
            host,
            kept,
        ),
        Alternative::Braced(_, number) => add_braced(
            syntax, minute, asks, negated, judging, p, at, number, user, groups, host, kept,
        ),
    }
}

// All alternatives of a pattern without a fault, as they stand; so none is malformed.
fn add_all(
    syntax: Syntax,
    minute: WeekMinute,
    asks: Asks,
    negated: bool,
    judging: bool,
    p: &[u8],
    user: &[u8],
    groups: &[u8],
    host: &[u8],
    kept: Rightmost,
) -> Result<Rightmost, Cause>
    requires { GoodPattern syntax p.now }
    ensures { result ≡ added_with judging user.now groups.now host.now minute negated asks kept (expansions_of syntax p.now) }
{
    let mut r = kept;
    let mut i = 0;
    // Stays a loop: the step differs from turn to turn.
    loop {
        let found = alternative_at(syntax, p, i).ok_or(Cause::Pattern)?;
        r = add_found(
            syntax, minute, asks, negated, judging, p, i, found, user, groups, host, r,
        )?;
        let end = found.end();
        if p.len() <= end {
            return Ok(r);
        }
        i = end + 1;
    }
}

// The alternatives of a pattern: well formed, then depth and number, then each in order.
fn add_alternatives(
    minute: WeekMinute,
    asks: Asks,
    negated: bool,
    judging: bool,
    p: &[u8],
    user: &[u8],
    groups: &[u8],
    host: &[u8],
    kept: Rightmost,
) -> Result<Rightmost, Cause>
    requires { length p.now ≤ 1024 }
    ensures { result ≡ added_by kept (alternatives_of (judge_by judging user.now groups.now host.now minute.0) negated (sort_in asks) p.now) }
{
    let syntax = kind_for(asks);
    match read_pattern_field(syntax, p)? {
        Expanded::Flat => add_one(minute, asks, negated, judging, p, user, groups, host, kept),
        Expanded::Number(_) => add_all(
            syntax, minute, asks, negated, judging, p, user, groups, host, kept,
        ),
    }
}

fn kept_for(asks: Asks, users: Rightmost, times: Rightmost) -> Rightmost
    ensures { result ≡ kept_for (sort_in asks) users times }
{
    match asks {
        Asks::User | Asks::Group => users,
        Asks::Time => times,
    }
}

fn read_for(asks: Asks, kept: Rightmost) -> ConditionRead
    ensures { result ≡ read_for (sort_in asks) kept }
{
    match asks {
        Asks::User | Asks::Group => ConditionRead::Users(kept),
        Asks::Time => ConditionRead::Times(kept),
    }
}

// A condition behind its `!`.
fn read_behind(
    users: Rightmost,
    times: Rightmost,
    negated: bool,
    judging: bool,
    minute: WeekMinute,
    text: &[u8],
    user: &[u8],
    groups: &[u8],
    host: &[u8],
) -> Result<ConditionRead, Cause>
    requires { length text.now ≤ 1024 }
    ensures { result ≡ condition_read users times (condition_behind (judge_by judging user.now groups.now host.now minute.0) negated text.now) }
{
    let Prefix { asks, written, at } = prefix_of(text);
    if !written && text.contains(&b'=') {
        return Err(Cause::OptionName);
    }
    let kept = add_alternatives(
        minute,
        asks,
        negated,
        judging,
        &text[at..],
        user,
        groups,
        host,
        kept_for(asks, users, times),
    )?;
    Ok(read_for(asks, kept))
}

// One condition, judged or only looked at.
pub fn read_condition(
    text: &[u8],
    judging: bool,
    user: &[u8],
    groups: &[u8],
    host: &[u8],
    minute: WeekMinute,
    users: Rightmost,
    times: Rightmost,
) -> Result<ConditionRead, Cause>
    ensures { result ≡ condition_told judging user.now groups.now host.now minute users times text.now }
{
    if text.len() > Pattern::BYTES {
        return Err(Cause::FieldLength);
    }
    let from = past_head(text, b'!');
    read_behind(
        users,
        times,
        from == 1,
        judging,
        minute,
        &text[from..],
        user,
        groups,
        host,
    )
}
