// A command pattern and its path.
ghost use Rattle.std.specs.List.{list_any};
ghost use Rattle.std.specs.Prelude.{◌≡◌, not, ◌&&◌, ◌≤◌, length};
ghost use Rattle.text.specs.Bytes.{byte};
ghost use Rattle.text.specs.Class.{blank};
ghost use Rattle.text.specs.Slice.{head_is};
ghost use Rattle.pattern.specs.Tree.{expanded};
ghost use Rattle.entry.specs.Contract.{command_read};

use fault::Cause;
use matching::field::{Expanded, read_pattern_field};
use matching::matcher::{matches_one, matches_pattern};
use pattern::Syntax;
use text::slice::{find_byte, head_is};

// Each blank is searched by blocks.
#[tactic(auto, using(crate::proofs::PairLaws::blank_found))]
fn has_blank(p: &[u8]) -> bool
    ensures { result ≡ list_any blank p.now }
{
    find_byte(p, b' ').is_some() || find_byte(p, b'\t').is_some()
}

// Whether a path begins with `/` and has no blank.
pub fn is_full_path(p: &[u8]) -> bool
    ensures { result ≡ head_is (byte "/") p.now && not (list_any blank p.now) }
{
    head_is(p, b'/') && !has_blank(p)
}

// A command pattern, matched only where something is judged.
pub fn read_command(p: &[u8], judging: bool, command: &[u8]) -> Result<bool, Cause>
    requires { length p.now ≤ 1024 }
    ensures { result ≡ command_read judging command.now (expanded Syntax.Plain p.now) }
{
    let expanded = read_pattern_field(Syntax::Plain, p)?;
    Ok(
        judging
            && match expanded {
                Expanded::Flat => matches_one(p, command),
                Expanded::Number(_) => matches_pattern(Syntax::Plain, p, command),
            },
    )
}
