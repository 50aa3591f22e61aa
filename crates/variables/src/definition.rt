// What a definition's name and text must be.
ghost use Rattle.std.specs.Prelude.{◌≡◌};
ghost use Rattle.variables.specs.Define.{define_name, define_text};
ghost use Rattle.variables.specs.Contract.{checked_reading};

use super::Variables;
use super::name::{is_built_in, is_name};
use fault::Cause;

// A name's size, then its form; a built-in name is a fault too.
#[tactic(auto, unfolding(crate::specs::Define::define_name))]
pub fn check_name(name: &[u8]) -> Result<(), Cause>
    ensures { checked_reading result name.now ≡ define_name name.now }
{
    if name.len() > Variables::NAME {
        return Err(Cause::NameLength);
    }
    if !is_name(name) || is_built_in(name) {
        return Err(Cause::DefineName);
    }
    Ok(())
}

// A text's size.
#[tactic(auto, unfolding(crate::specs::Define::define_text))]
pub fn check_text(text: &[u8]) -> Result<(), Cause>
    ensures { checked_reading result text.now ≡ define_text text.now }
{
    if text.len() > Variables::TEXT {
        return Err(Cause::TextLength);
    }
    Ok(())
}
