// The printed line of an answer, with its newline.
ghost use Rattle.std.specs.Prelude.{◌≡◌};
ghost use Rattle.text.specs.Contract.{Wrote};
ghost use Rattle.answer.specs.Answer.{string_in, grant_in, told_of};
ghost use Rattle.output.specs.Contract.{WroteAfter};
ghost use Rattle.console.specs.Printed.{id_text, grant_text, stop_word, stop_text, refusal_text, printed};
ghost use Rattle.console.specs.Contract.{grant_beside, number_beside};

use answer::number::number_of;
use answer::{Answer, Granted};
use line::whole::WholeText;
use output::behind::{then_all, then_decimal};
use text::buffer::put_all;

// An id behind what was put before, if it is set.
#[tactic(auto, using(output::proofs::BehindLaws::after_none, output::proofs::BehindLaws::after_then), unfolding(crate::specs::Printed::id_text))]
fn then_id(filled: Option<usize>, name: &[u8], id: &[u8], out: &mut [u8]) -> Option<usize>
    ensures { WroteAfter filled out.old out.new (id_text name.now id.now) result }
{
    if id.is_empty() {
        return filled;
    }
    let named = then_all(filled, name, out);
    then_all(named, id, out)
}

// The string of a buffer that begins at a place and ends, with its zero byte, at another; places past its end take none.
fn string_in(buffer: &[u8], at: usize, end: usize) -> &[u8]
    ensures { result.now ≡ string_in buffer.now at end }
{
    let rest = &buffer[at.min(buffer.len())..];
    let size = end.saturating_sub(at).saturating_sub(1);
    &rest[..size.min(rest.len())]
}

// The line of a permit.
fn put_grant(word: &[u8], grant: Granted, buffer: &[u8], out: &mut [u8]) -> Option<usize>
    ensures { Wrote out.old out.new 0 (grant_text word.now (grant_in buffer.now grant)) result }
{
    let line = then_decimal(put_all(out, 0, word), grant.line, out);
    let space = then_all(line, b" ", out);
    let path = then_all(space, string_in(buffer, 0, grant.path), out);
    let uid = then_id(
        path,
        b" uid=",
        string_in(buffer, grant.path, grant.uid),
        out,
    );
    let euid = then_id(
        uid,
        b" euid=",
        string_in(buffer, grant.uid, grant.euid),
        out,
    );
    let gid = then_id(
        euid,
        b" gid=",
        string_in(buffer, grant.euid, grant.gid),
        out,
    );
    let egid = then_id(
        gid,
        b" egid=",
        string_in(buffer, grant.gid, grant.egid),
        out,
    );
    then_all(egid, b"\n", out)
}

// Why the deciding entry stops, by the answer's number.
fn then_stop_word(filled: Option<usize>, number: u8, out: &mut [u8]) -> Option<usize>
    ensures { WroteAfter filled out.old out.new (stop_word number) result }
{
    match number {
        3 => then_all(filled, b" nargs\n", out),
        4 => then_all(filled, b" arg\n", out),
        _ => then_all(filled, b" path\n", out),
    }
}

// The line of a decision that stops.
#[tactic(auto, unfolding(crate::specs::Printed::stop_text))]
fn put_stop(number: u8, line: usize, out: &mut [u8]) -> Option<usize>
    ensures { Wrote out.old out.new 0 (stop_text number line) result }
{
    let stopped = then_decimal(put_all(out, 0, b"stopped "), line, out);
    then_stop_word(stopped, number, out)
}

// The line of a refusal.
#[tactic(auto, unfolding(crate::specs::Printed::refusal_text))]
pub fn put_refusal(number: u8, place: usize, out: &mut [u8]) -> Option<usize>
    ensures { Wrote out.old out.new 0 (refusal_text number place) result }
{
    let numbered = then_decimal(put_all(out, 0, b"refused "), number as usize, out);
    let space = then_all(numbered, b" ", out);
    let placed = then_decimal(space, place, out);
    then_all(placed, b"\n", out)
}

// What a permit grants; any other answer grants nothing.
fn grant_of(answer: Answer) -> Option<Granted>
    ensures { result ≡ grant_beside answer }
{
    match answer {
        Answer::Permit(grant) | Answer::Password(grant) => Some(grant),
        _ => None,
    }
}

// The line or the place beside any other answer.
fn place_of(answer: Answer) -> usize
    ensures { result ≡ number_beside answer }
{
    match answer {
        Answer::StoppedByNargs(line)
        | Answer::StoppedByArgument(line)
        | Answer::StoppedByPath(line) => line,
        Answer::LongTable => WholeText::BYTES,
        Answer::RefusedByte(place) | Answer::CutShort(place) => place,
        Answer::RefusedLine(_, place) => place,
        _ => 0,
    }
}

// The line of an answer at the buffer's beginning: its number chooses the word and what stands beside it. None: it does not fit.
#[tactic(auto, using(crate::proofs::PrintLaws::permit_text, crate::proofs::PrintLaws::password_text, crate::proofs::PrintLaws::none_text, crate::proofs::PrintLaws::stopped_text, crate::proofs::PrintLaws::refused_text, crate::proofs::PrintLaws::without_grant, record::proofs::DecisionLaws::numbers))]
pub fn put_answer(answer: Answer, buffer: &[u8], out: &mut [u8]) -> Option<usize>
    ensures { Wrote out.old out.new 0 (printed (told_of answer buffer.now)) result }
{
    let number = number_of(answer);
    match number {
        0 => put_grant(b"permit ", grant_of(answer)?, buffer, out),
        1 => put_grant(b"password ", grant_of(answer)?, buffer, out),
        2 => put_all(out, 0, b"none\n"),
        3..=5 => put_stop(number, place_of(answer), out),
        10..=18 => put_refusal(number, place_of(answer), out),
        _ => None,
    }
}
