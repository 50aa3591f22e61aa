// A letter in its other case.
ghost use Rattle.std.specs.Prelude.{◌≡◌};
ghost use Rattle.text.specs.Case.{lower_of, upper_of};

// A capital letter as a small one, any other byte as it is.
#[tactic(auto, unfolding(crate::specs::Case::lower_of))]
pub fn lower(b: u8) -> u8
    ensures { result ≡ lower_of b }
{
    b.to_ascii_lowercase()
}

// A small letter as a capital one, any other byte as it is.
#[tactic(auto, unfolding(crate::specs::Case::upper_of))]
pub fn upper(b: u8) -> u8
    ensures { result ≡ upper_of b }
{
    b.to_ascii_uppercase()
}
