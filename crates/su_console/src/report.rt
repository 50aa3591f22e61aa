// What is printed for a su file that was asked a question.
ghost use Rattle.text.specs.Contract.{Wrote};
ghost use Rattle.su_console.specs.Explained.{su_explained};

use explain::report::{put_name, then_refusal, then_refusal_at};
use output::behind::then_all;
use suauth::SuAnswer;

// The name of the file, and that it is ok or what is wrong with it; a place past the file's end is its end.
pub fn explain_su(name: &[u8], file: &[u8], answer: SuAnswer, out: &mut [u8]) -> Option<usize>
    ensures { Wrote out.old out.new 0 (su_explained name.now file.now answer) result }
{
    let named = put_name(name, out);
    match answer {
        SuAnswer::MalformedQuestion => then_all(named, b": refused 10 0\n", out),
        SuAnswer::LongFile => then_refusal(
            named,
            11,
            b"the su file has more than 32,768 bytes; remove comments or rules",
            out,
        ),
        SuAnswer::RefusedByte(place) => then_refusal_at(
            named,
            12,
            b"a su file holds plain ASCII text only, and no carriage return, accented letter or curly quote; remove or replace this byte",
            file,
            place,
            out,
        ),
        SuAnswer::CutShort(place) => then_refusal_at(
            named,
            13,
            b"the su file ends before this line does; copy the whole file again, or end the line with a newline",
            file,
            place,
            out,
        ),
        SuAnswer::MalformedLine(place) => then_refusal_at(
            named,
            14,
            b"the line is not of the form TO:FROM:ACTION; write ALL, names parted by commas or ALL EXCEPT and such names on either side, GROUP before the names only in FROM, and DENY, NOPASS or OWNPASS at the end, with no blanks but single ones beside EXCEPT and behind GROUP",
            file,
            place,
            out,
        ),
        _ => then_all(named, b": ok\n", out),
    }
}
