// What a byte of a pattern means where a piece, a list or an end may stand.
ghost use Rattle.std.specs.Prelude.{◌≡◌};
ghost use Rattle.pattern.specs.Tree.{commas_part, role_of};

use super::Syntax;

#[derive(Clone, Copy)]
pub enum Role {
    // A brace list begins.
    Opens,
    // The alternative that is being read ends before this byte.
    Stops,
    // A closing brace outside a list.
    Stray,
    // A piece begins.
    Begins,
}

// Whether top-level commas part alternatives.
pub fn commas_part(syntax: Syntax) -> bool
    ensures { result ≡ commas_part syntax }
{
    matches!(syntax, Syntax::Condition | Syntax::Time)
}

#[tactic(auto, unfolding(crate::specs::Tree::role_of))]
pub fn role_of(syntax: Syntax, inside: bool, b: u8) -> Role
    ensures { result ≡ role_of syntax inside b }
{
    match b {
        b'{' => Role::Opens,
        b'}' if inside => Role::Stops,
        b'}' => Role::Stray,
        b',' if inside || commas_part(syntax) => Role::Stops,
        _ => Role::Begins,
    }
}
