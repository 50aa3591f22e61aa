// From the call's answer to a record.
ghost use Rattle.std.specs.Prelude.{ℕ, ◌≡◌, List};
ghost use Rattle.answer.specs.Answer.{result as result_with, deciding_line, told_of};
ghost use Rattle.record.specs.Decision.{auth_beside};
ghost use Rattle.record.specs.Contract.{Records};

use super::Unrecorded;
use super::write::write_record;
use answer::Answer;
use answer::number::number_of;
use question::{Age, WeekMinute};

// The deciding line, 0 where there is none.
#[tactic(auto, unfolding(answer::specs::Answer::deciding_line, answer::specs::Answer::told_of, answer::specs::Answer::grant_in))]
fn line_of(answer: Answer) -> usize
    ensures { (b : List ℕ) → result ≡ deciding_line (result_with answer b) }
{
    match answer {
        Answer::Permit(granted) | Answer::Password(granted) => granted.line,
        Answer::StoppedByNargs(line)
        | Answer::StoppedByArgument(line)
        | Answer::StoppedByPath(line) => line,
        _ => 0,
    }
}

// The effective auth, which only a permit has.
#[tactic(auto, unfolding(answer::specs::Answer::told_of, answer::specs::Answer::grant_in))]
fn auth_of(answer: Answer) -> bool
    ensures { (b : List ℕ) → result ≡ auth_beside (told_of answer b).beside }
{
    match answer {
        Answer::Permit(granted) | Answer::Password(granted) => granted.auth,
        _ => false,
    }
}

// Writes the record of an answer to a question with this minute and this age; whatever is refused leaves the bytes.
#[tactic(auto, using(std::proofs::lemmas::Bool::Decides::nat_tests), unfolding(crate::specs::Decision::recorded_of, crate::specs::Decision::bytes_recorded, crate::specs::Decision::fields_by, crate::specs::Write::bytes_after))]
pub fn record_answer(
    answer: Answer,
    minute: WeekMinute,
    age: Option<Age>,
    out: &mut [u8],
) -> Result<(), Unrecorded>
    ensures { (b : List ℕ) → Records (result_with answer b) minute age out.old out.new result }
{
    let Ok(line) = u16::try_from(line_of(answer)) else {
        return Err(Unrecorded::LongLine);
    };
    write_record(number_of(answer), line, minute, auth_of(answer), age, out)?;
    Ok(())
}
