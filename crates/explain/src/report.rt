// What is printed for a table that was asked a question.
ghost use Rattle.std.specs.Prelude.{◌≤◌, length};
ghost use Rattle.text.specs.Contract.{Wrote};
ghost use Rattle.output.specs.Contract.{WroteAfter};
ghost use Rattle.explain.specs.Explained.{refused, position, refusal, refusal_at, place_in, shown_name, ok_for, explained};

use super::place::{line_number, line_start};
use super::row::{Row, then_row, then_rows};
use super::words::words_of;
use answer::Answer;
use output::behind::{then_all, then_decimal};

// The number of the line and the column, each behind a colon.
fn then_position(filled: Option<usize>, table: &[u8], place: usize, out: &mut [u8]) -> Option<usize>
    requires { place ≤ length table.now }
    ensures { WroteAfter filled out.old out.new (position table.now place) result }
{
    let start = line_start(table, place);
    let number = line_number(table, place);
    let line = then_decimal(then_all(filled, b":", out), number, out);
    then_decimal(then_all(line, b":", out), place - start + 1, out)
}

// The number of the refusal, with what stands round it.
fn then_refused(filled: Option<usize>, number: u8, out: &mut [u8]) -> Option<usize>
    ensures { WroteAfter filled out.old out.new (refused number) result }
{
    let numbered = then_decimal(
        then_all(filled, b": refused ", out),
        usize::from(number),
        out,
    );
    then_all(numbered, b": ", out)
}

// A refusal that has no place in a line.
pub fn then_refusal(
    filled: Option<usize>,
    number: u8,
    words: &[u8],
    out: &mut [u8],
) -> Option<usize>
    ensures { WroteAfter filled out.old out.new (refusal number words.now) result }
{
    let head = then_refused(filled, number, out);
    then_all(then_all(head, words, out), b"\n", out)
}

// A refusal with its place; one past the table's end is its end.
pub fn then_refusal_at(
    filled: Option<usize>,
    number: u8,
    words: &[u8],
    table: &[u8],
    place: usize,
    out: &mut [u8],
) -> Option<usize>
    ensures { WroteAfter filled out.old out.new (refusal_at table.now (place_in table.now place) number words.now) result }
{
    let at = place.min(table.len());
    let placed = then_position(filled, table, at, out);
    let told = then_refusal(placed, number, words, out);
    then_rows(told, table, at, out)
}

// The name of a file in front of a report, without a byte that would move a terminal's cursor.
pub fn put_name(name: &[u8], out: &mut [u8]) -> Option<usize>
    ensures { Wrote out.old out.new 0 (shown_name name.now) result }
{
    then_row(Some(0), Row::Name, name, out)
}

// That a table is ok for a question.
fn then_ok(filled: Option<usize>, question: &[u8], out: &mut [u8]) -> Option<usize>
    ensures { WroteAfter filled out.old out.new (ok_for question.now) result }
{
    let head = then_all(filled, b": ok for \"", out);
    then_all(then_row(head, Row::Name, question, out), b"\"\n", out)
}

// The name of the table, and that it is ok for this question or what is wrong with it; a place past the table's end is its end.
pub fn explain(
    name: &[u8],
    question: &[u8],
    table: &[u8],
    answer: Answer,
    out: &mut [u8],
) -> Option<usize>
    ensures { Wrote out.old out.new 0 (explained name.now question.now table.now answer) result }
{
    let named = put_name(name, out);
    match answer {
        Answer::MalformedQuestion => then_all(named, b": refused 10 0\n", out),
        Answer::LongTable => then_refusal(
            named,
            11,
            b"the table has more than 32,768 bytes; remove comments or entries",
            out,
        ),
        Answer::RefusedByte(place) => then_refusal_at(
            named,
            12,
            b"a table holds plain ASCII text only, and no carriage return, accented letter or curly quote; remove or replace this byte",
            table,
            place,
            out,
        ),
        Answer::CutShort(place) => then_refusal_at(
            named,
            13,
            b"the table ends before this line does; copy the whole table again, or end the line with a newline that is not behind a backslash",
            table,
            place,
            out,
        ),
        Answer::RefusedLine(cause, place) => {
            then_refusal_at(named, cause.number(), words_of(cause), table, place, out)
        }
        Answer::SmallBuffer => then_all(named, b": refused 17 0\n", out),
        _ => then_ok(named, question, out),
    }
}
