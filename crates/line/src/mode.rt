// Where a byte of a control line stands, and what it does there.
ghost use Rattle.std.specs.Prelude.{◌≡◌, cond, [], ◌∷◌};
ghost use Rattle.line.specs.Joined.{unquoted, parts_fields, gives, join_blank, mode_after, mode_joined};
ghost use Rattle.line.specs.Contract.{mode_of};

use text::class::{is_blank, is_word_byte};
use text::quote::{Quoting, quoting_after};

#[derive(Clone, Copy)]
pub enum ScanMode {
    // Among the fields.
    Fields(Quoting),
    Comment,
}

// Whether a byte stands outside quotes.
pub fn is_unquoted(quoting: Quoting) -> bool
    ensures { result ≡ unquoted quoting }
{
    quoting == Quoting::Outside
}

// Whether a byte stands between fields.
#[tactic(auto, unfolding(crate::specs::Joined::parts_fields))]
pub fn parts_fields(mode: ScanMode, b: u8) -> bool
    ensures { result ≡ parts_fields (mode_of mode) b }
{
    match mode {
        ScanMode::Fields(quoting) => is_unquoted(quoting) & ((b == b'#') | is_blank(b)),
        ScanMode::Comment => true,
    }
}

// The mode behind a byte.
#[tactic(auto, unfolding(crate::specs::Joined::mode_after))]
pub fn mode_after(mode: ScanMode, b: u8) -> ScanMode
    ensures { mode_of result ≡ mode_after (mode_of mode) b }
{
    match mode {
        ScanMode::Fields(quoting) if !is_unquoted(quoting) | (b != b'#') => {
            ScanMode::Fields(quoting_after(quoting, b))
        }
        _ => ScanMode::Comment,
    }
}

// The mode behind a join, in a line whose first byte may be `#`.
#[tactic(auto, unfolding(crate::specs::Joined::mode_joined))]
pub fn mode_joined(hash: bool, mode: ScanMode) -> ScanMode
    ensures { mode_of result ≡ mode_joined hash (mode_of mode) }
{
    match mode {
        ScanMode::Comment if !hash => ScanMode::Fields(Quoting::Outside),
        _ => mode,
    }
}

// Whether a join behind a byte gives a blank.
#[tactic(auto, unfolding(crate::specs::Joined::join_blank, crate::specs::Joined::parts_fields))]
pub fn join_gives(mode: ScanMode, before: u8) -> bool
    ensures { join_blank (mode_of mode) before ≡ cond result (gives (mode_of mode) 32 ∷ []) [] }
{
    match mode {
        ScanMode::Fields(_) => is_word_byte(before),
        ScanMode::Comment => true,
    }
}
