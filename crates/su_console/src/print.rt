// The printed line of an answer from a su file, with its newline.
ghost use Rattle.std.specs.Prelude.{◌≤◌, length};
ghost use Rattle.text.specs.Contract.{Wrote};
ghost use Rattle.suauth.specs.Answer.{told_of};
ghost use Rattle.console.specs.Contract.{least_room};
ghost use Rattle.su_console.specs.Printed.{action_text, su_printed};

use console::print::put_refusal;
use line::whole::WholeText;
use output::behind::{then_all, then_decimal};
use suauth::SuAnswer;
use text::buffer::put_all;

// The line of an action, by its word.
fn put_action(word: &[u8], line: usize, out: &mut [u8]) -> Option<usize>
    ensures { Wrote out.old out.new 0 (action_text word.now line) result }
{
    let numbered = then_decimal(put_all(out, 0, word), line, out);
    then_all(numbered, b"\n", out)
}

// The line of an answer at the buffer's beginning; every one fits into the least buffer of a response.
pub fn put_su_answer(answer: SuAnswer, out: &mut [u8]) -> Option<usize>
    ensures { Wrote out.old out.new 0 (su_printed (told_of answer)) result × (length (su_printed (told_of answer)) ≤ least_room) }
{
    match answer {
        SuAnswer::Deny(line) => put_action(b"deny ", line, out),
        SuAnswer::NoPassword(line) => put_action(b"nopass ", line, out),
        SuAnswer::OwnPassword(line) => put_action(b"ownpass ", line, out),
        SuAnswer::NoRule => put_all(out, 0, b"none\n"),
        SuAnswer::MalformedQuestion => put_refusal(10, 0, out),
        SuAnswer::LongFile => put_refusal(11, WholeText::BYTES, out),
        SuAnswer::RefusedByte(place) => put_refusal(12, place, out),
        SuAnswer::CutShort(place) => put_refusal(13, place, out),
        SuAnswer::MalformedLine(place) => put_refusal(14, place, out),
    }
}
