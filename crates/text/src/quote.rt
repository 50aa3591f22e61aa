// Quotes: outside them, or inside a kind of them.
ghost use Rattle.std.specs.Prelude.{◌≡◌};
ghost use Rattle.text.specs.Quote.{quoting_after};

// Where a byte stands: outside quotes, or inside a kind of them.
#[derive(Clone, Copy, PartialEq, Eq)]
pub enum Quoting {
    Outside,
    Single,
    Double,
}

// The quoting behind a byte.
#[tactic(auto, unfolding(crate::specs::Quote::quoting_after))]
pub fn quoting_after(quoting: Quoting, b: u8) -> Quoting
    ensures { result ≡ quoting_after quoting b }
{
    match (quoting, b) {
        (Quoting::Outside, b'\'') => Quoting::Single,
        (Quoting::Outside, b'"') => Quoting::Double,
        (Quoting::Single, b'\'') | (Quoting::Double, b'"') => Quoting::Outside,
        _ => quoting,
    }
}
