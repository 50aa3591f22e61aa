// What a control line does, by its fields.
ghost use Rattle.line.specs.Contract.{fields_in};
ghost use Rattle.variables.specs.Contract.{definitions_in};
ghost use Rattle.reader.specs.Contract.{LineActs};

use super::conditional::compare;
use super::word::{ColonWord, colon_word};
use fault::Cause;
use line::fields::field;
use line::kind::{LineKind, kind_of};
use variables::Variables;

// What is left to do with the fields from one of them on.
#[derive(Clone, Copy, PartialEq, Eq)]
pub enum Action {
    Nothing,
    Define(usize),
    Global(usize),
    Entry(usize),
}

// What the line does that the fields make from one of them on, with the depth left for `:if`; the rest of an `:if` that
// is taken is such a line again.
pub fn control_line<'a, 'b>(
    text: &'a [u8],
    ends: &'a [usize; 64],
    count: usize,
    from: usize,
    depth: usize,
    shell: bool,
    user: &[u8],
    host: &[u8],
    bytes: &'b [u8; Variables::BYTES],
    sizes: &'b [usize; Variables::SIZES],
    names: usize,
) -> Result<Action, Cause>
    ensures { LineActs
        (fields_in text.now ends.now count) from depth shell
        user.now host.now (definitions_in bytes.now sizes.now names) result }
{
    match kind_of(text, ends, count, from) {
        LineKind::NoField => Ok(Action::Nothing),
        LineKind::Entry => {
            if !shell {
                return Err(Cause::EntryTooEarly);
            }
            Ok(Action::Entry(from))
        }
        LineKind::Colon => {
            let word = field(text, ends, count, from);
            match colon_word(word, user, host, bytes, sizes, names)? {
                ColonWord::Define => Ok(Action::Define(from + 1)),
                ColonWord::Global => Ok(Action::Global(from + 1)),
                ColonWord::If => {
                    if depth == 0 {
                        return Err(Cause::IfDepth);
                    }
                    if !compare(text, ends, count, from + 1, user, host, bytes, sizes, names)? {
                        return Ok(Action::Nothing);
                    }
                    control_line(
                        text,
                        ends,
                        count,
                        from + 4,
                        depth - 1,
                        shell,
                        user,
                        host,
                        bytes,
                        sizes,
                        names,
                    )
                }
            }
        }
    }
}
