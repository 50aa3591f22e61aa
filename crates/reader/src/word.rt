// The word that a line with a colon begins with.
ghost use Rattle.std.specs.Prelude.{◌≡◌};
ghost use Rattle.variables.specs.Substitute.{field_as};
ghost use Rattle.variables.specs.Contract.{scope_in};
ghost use Rattle.reader.specs.Colon.{word_of};

use fault::Cause;
use variables::Variables;
use variables::field::{FieldText, field_text};

#[derive(Clone, Copy, PartialEq, Eq)]
pub enum ColonWord {
    Define,
    Global,
    If,
}

// The word by its text.
fn word_in(text: &[u8]) -> Result<ColonWord, Cause>
    ensures { result ≡ word_of text.now }
{
    if text == b":define".as_slice() {
        return Ok(ColonWord::Define);
    }
    if text == b":global".as_slice() || text == b":global_options".as_slice() {
        return Ok(ColonWord::Global);
    }
    if text == b":if".as_slice() {
        return Ok(ColonWord::If);
    }
    Err(Cause::ColonWord)
}

// The word that a field is.
pub fn colon_word<'a>(
    word: &[u8],
    user: &[u8],
    host: &[u8],
    bytes: &'a [u8; Variables::BYTES],
    sizes: &'a [usize; Variables::SIZES],
    names: usize,
) -> Result<ColonWord, Cause>
    ensures { result ≡ field_as (scope_in user.now host.now bytes.now sizes.now names) word_of word.now }
{
    let mut scratch = [0u8; FieldText::BYTES];
    let n = field_text(bytes, sizes, names, user, host, word, &mut scratch)?;
    word_in(&scratch[..n])
}
