// What refuses a text as a whole: its length, a byte that no text may have, a last line that does not end. Faults in its
// lines are not looked for.
ghost use Rattle.std.specs.Prelude.{◌≡◌};
ghost use Rattle.line.specs.Line.{lines_of, last_end};
ghost use Rattle.line.specs.Whole.{acceptance_of, not_whole, whole_text};
ghost use Rattle.line.specs.Contract.{continues_in};

use super::ends::{Continuation, line_end};
use super::refused::refused_byte;

// Why a text is not accepted, before its lines are looked at.
#[derive(Clone, Copy, PartialEq, Eq)]
pub enum Unaccepted {
    Long,
    // With the place of the first refused byte.
    RefusedAt(usize),
}

// Why a text is not whole.
#[derive(Clone, Copy, PartialEq, Eq)]
pub enum NotWhole {
    Long,
    // With the place of the first refused byte.
    RefusedAt(usize),
    // With the place where the line begins that does not end.
    CutAt(usize),
}

impl From<Unaccepted> for NotWhole {
    ghost from_gives = { λ reason result. result ≡ not_whole reason };

    fn from(reason: Unaccepted) -> NotWhole {
        match reason {
            Unaccepted::Long => NotWhole::Long,
            Unaccepted::RefusedAt(place) => NotWhole::RefusedAt(place),
        }
    }
}

#[derive(Drop)]
pub struct WholeText;

impl WholeText {
    // The most bytes of a text.
    pub const BYTES: usize = 32768;
}

// Whether a text is accepted: its length, then its bytes.
pub fn acceptance_of(text: &[u8]) -> Result<(), Unaccepted>
    ensures { result ≡ acceptance_of text.now }
{
    if text.len() > WholeText::BYTES {
        return Err(Unaccepted::Long);
    }
    match refused_byte(text) {
        Some(place) => Err(Unaccepted::RefusedAt(place)),
        None => Ok(()),
    }
}

// Where the last line that ends does so, or 0.
fn last_end(text: &[u8], continuation: Continuation) -> usize
    ensures { result ≡ last_end 0 (lines_of (continues_in continuation) text.now) }
{
    let mut at = 0;
    while let Some(line) = line_end(text, at, continuation) {
        at = line.end;
    }
    at
}

// Whether a text is whole: whether it is accepted, then whether its last line ends.
#[tactic(auto, using(crate::proofs::LineLaws::short_text), unfolding(crate::specs::Whole::whole_text))]
pub fn whole_text(text: &[u8], continuation: Continuation) -> Result<(), NotWhole>
    ensures { result ≡ whole_text (continues_in continuation) text.now }
{
    acceptance_of(text)?;
    let end = last_end(text, continuation);
    if end < text.len() {
        return Err(NotWhole::CutAt(end));
    }
    Ok(())
}
