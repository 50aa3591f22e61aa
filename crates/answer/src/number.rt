// The number of every answer.
ghost use Rattle.std.specs.Prelude.{ℕ, ◌≡◌, List};
ghost use Rattle.answer.specs.Answer.{told_of};

use super::Answer;

// The answer's number.
#[tactic(auto, unfolding(crate::specs::Answer::told_of))]
pub fn number_of(answer: Answer) -> u8
    ensures { (b : List ℕ) → result ≡ (told_of answer b).number }
{
    match answer {
        Answer::Permit(_) => 0,
        Answer::Password(_) => 1,
        Answer::NoEntry => 2,
        Answer::StoppedByNargs(_) => 3,
        Answer::StoppedByArgument(_) => 4,
        Answer::StoppedByPath(_) => 5,
        Answer::MalformedQuestion => 10,
        Answer::LongTable => 11,
        Answer::RefusedByte(_) => 12,
        Answer::CutShort(_) => 13,
        Answer::RefusedLine(cause, _) => cause.number(),
        Answer::SmallBuffer => 17,
    }
}
