// One option from a field's text.
ghost use Rattle.std.specs.Option.{option_map};
ghost use Rattle.std.specs.Prelude.{◌≡◌};
ghost use Rattle.options.specs.Read.{last_position, id_of, auth_of, nargs_of, patterns_of, number_range, argument_of, option_named, option_of};
ghost use Rattle.options.specs.Contract.{value_in, set_in, read_in};

use super::Id;
use super::arguments::Failures;
use super::ids::{IdName, is_id};
use super::parts::parted;
use super::setting::OptionSetting;
use super::span::{Span, number_range};
use super::timeout::read_timeout;
use fault::Cause;
use matching::field::read_pattern_field;
use pattern::Syntax;

// The size before the form.
#[tactic(auto, using(crate::proofs::ReadLaws::id_good), unfolding(crate::specs::Read::id_of))]
fn read_id(v: &[u8], id: Id) -> Result<OptionSetting, Cause>
    ensures { set_in v.now result ≡ id_of id v.now }
{
    if v.len() > IdName::BYTES {
        return Err(Cause::IdLength);
    }
    if is_id(v) {
        return Ok(OptionSetting::SetId(id));
    }
    Err(Cause::OptionValue)
}

#[tactic(auto, unfolding(crate::specs::Read::auth_of))]
fn read_auth(v: &[u8]) -> Result<OptionSetting, Cause>
    ensures { set_in v.now result ≡ auth_of v.now }
{
    if v == b"y".as_slice() {
        return Ok(OptionSetting::SetAuth(true));
    }
    if v == b"n".as_slice() {
        return Ok(OptionSetting::SetAuth(false));
    }
    Err(Cause::OptionValue)
}

fn read_nargs(v: &[u8]) -> Result<OptionSetting, Cause>
    ensures { set_in v.now result ≡ nargs_of v.now }
{
    let span = number_range(v, 0, Span::ARGUMENTS).ok_or(Cause::OptionValue)?;
    Ok(OptionSetting::SetNargs(span))
}

fn read_patterns(v: &[u8]) -> Result<OptionSetting, Cause>
    ensures { set_in v.now result ≡ patterns_of v.now }
{
    if v == b"shell".as_slice() {
        return Ok(OptionSetting::SetShell);
    }
    Err(Cause::PatternKind)
}

// A pattern for the positions that follow `arg`: well formed, then not too large.
#[tactic(auto, using(crate::proofs::ReadLaws::argument_fault, crate::proofs::ReadLaws::argument_good))]
fn read_argument(positions: &[u8], v: &[u8]) -> Result<Option<OptionSetting>, Cause>
    ensures { read_in v.now result ≡ option_map (λ p. argument_of p v.now) (number_range 1 last_position positions.now) }
{
    let Some(span) = number_range(positions, 1, Failures::POSITIONS) else {
        return Ok(None);
    };
    read_pattern_field(Syntax::Plain, v)?;
    Ok(Some(OptionSetting::SetArgument(span)))
}

// The option with that name and value; `patterns` on `:global` only.
#[tactic(auto, using(text::proofs::Laws::part_rest), unfolding(crate::specs::Read::option_named))]
fn read_named(name: &[u8], v: &[u8], global: bool) -> Result<Option<OptionSetting>, Cause>
    ensures { read_in v.now result ≡ option_named global name.now v.now }
{
    // Stays a chain: a match on byte strings makes a goal for every byte of each name.
    if name == b"uid".as_slice() {
        read_id(v, Id::Uid).map(Some)
    } else if name == b"euid".as_slice() {
        read_id(v, Id::Euid).map(Some)
    } else if name == b"gid".as_slice() {
        read_id(v, Id::Gid).map(Some)
    } else if name == b"egid".as_slice() {
        read_id(v, Id::Egid).map(Some)
    } else if name == b"auth".as_slice() {
        read_auth(v).map(Some)
    } else if name == b"timeout".as_slice() {
        read_timeout(v).map(Some)
    } else if name == b"nargs".as_slice() {
        read_nargs(v).map(Some)
    } else if global && name == b"patterns".as_slice() {
        read_patterns(v).map(Some)
    } else if name.starts_with(b"arg") {
        read_argument(&name[3..], v)
    } else {
        Ok(None)
    }
}

// The option that a field's text is, or the fault of its value; none where the text is no option.
#[tactic(auto, unfolding(crate::specs::Read::option_of, crate::specs::Contract::value_in))]
pub fn read_option(text: &[u8], global: bool) -> Result<Option<OptionSetting>, Cause>
    ensures { read_in (value_in text.now) result ≡ option_of global text.now }
{
    match parted(text, b'=') {
        None => Ok(None),
        Some((name, value)) => read_named(name, value, global),
    }
}

// The value in an option's text: what stands behind its first `=`.
#[tactic(auto, unfolding(crate::specs::Contract::value_in))]
pub fn value_of(text: &[u8]) -> &[u8]
    ensures { result.now ≡ value_in text.now }
{
    match parted(text, b'=') {
        None => &text[..0],
        Some((_, value)) => value,
    }
}
