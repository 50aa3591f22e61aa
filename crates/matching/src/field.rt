// The pattern of a field: well formed, then not too large.
ghost use Rattle.std.specs.Prelude.{◌≡◌};
ghost use Rattle.matching.specs.Contract.{pattern_field};

use fault::Cause;
use pattern::Syntax;
use pattern::reader::read_pattern;
use pattern::whole::is_flat;

// A pattern without a fault.
#[derive(Clone, Copy, PartialEq, Eq)]
pub enum Expanded {
    // It has no brace and no comma that parts: it is its own only expansion.
    Flat,
    // How many expansions it has.
    Number(usize),
}

// The pattern of a field; most are flat, and this is told without counting expansions.
#[tactic(auto, using(crate::proofs::FieldLaws::field_flat, crate::proofs::FieldLaws::field_malformed, crate::proofs::FieldLaws::field_large, crate::proofs::FieldLaws::field_good))]
pub fn read_pattern_field(syntax: Syntax, p: &[u8]) -> Result<Expanded, Cause>
    ensures { result ≡ pattern_field syntax p.now }
{
    if is_flat(syntax, p) {
        return Ok(Expanded::Flat);
    }
    let size = read_pattern(syntax, p).ok_or(Cause::Pattern)?;
    if !size.fits() {
        return Err(Cause::PatternSize);
    }
    Ok(Expanded::Number(size.number))
}
