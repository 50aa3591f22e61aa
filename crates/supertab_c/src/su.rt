// The call for C on su files. Its prototype and its meaning for a user stand in include/supertab.h.
ghost use Rattle.std.specs.Prelude.{◌≡◌};
ghost use Rattle.suauth.specs.Answer.{told_of};
ghost use Rattle.suauth.specs.Contract.{asking};
ghost use Rattle.supertab_c.specs.Su.{su_told, su_called, su_call};

use super::report::{Report, counted_as};
use line::whole::WholeText;
use suauth::{SuAnswer, su_answer};

// What the call tells of an answer: its number, and the deciding line or the place of a refusal.
#[derive(Drop)]
pub struct SuTold {
    number: u8,
    value: usize,
}

// Only refusals have their numbers from the papers.
#[tactic(auto, unfolding(crate::specs::Su::su_told, suauth::specs::Answer::told_of))]
fn told_by(answer: SuAnswer) -> SuTold
    ensures { result ≡ su_told (told_of answer) }
{
    match answer {
        SuAnswer::NoPassword(line) => SuTold {
            number: 0,
            value: line,
        },
        SuAnswer::OwnPassword(line) => SuTold {
            number: 1,
            value: line,
        },
        SuAnswer::NoRule => SuTold {
            number: 2,
            value: 0,
        },
        SuAnswer::Deny(line) => SuTold {
            number: 3,
            value: line,
        },
        SuAnswer::MalformedQuestion => SuTold {
            number: 10,
            value: 0,
        },
        SuAnswer::LongFile => SuTold {
            number: 11,
            value: WholeText::BYTES,
        },
        SuAnswer::RefusedByte(place) => SuTold {
            number: 12,
            value: place,
        },
        SuAnswer::CutShort(place) => SuTold {
            number: 13,
            value: place,
        },
        SuAnswer::MalformedLine(place) => SuTold {
            number: 14,
            value: place,
        },
    }
}

// Answers a question from a su file: the result is the number of the answer, and the report holds the line or the place; 255 for a report of no number.
#[unsafe(no_mangle)]
pub extern "C" fn supertab_su_answer(
    file: &[u8],
    target: &[u8],
    user: &[u8],
    groups: &[u8],
    report: &mut [i64],
) -> u8
    ensures { su_called result report.new ≡ su_call file.now (asking target.now user.now groups.now) report.old }
{
    if report.len() == 0 {
        return Report::SHORT;
    }
    let answer = su_answer(file, target, user, groups);
    let told = told_by(answer);
    report[0] = counted_as(told.value);
    told.number
}
