// Bytes as they are shown: a name, and the two rows of a place, its physical line and below it the caret.
ghost use Rattle.std.specs.Prelude.{◌≤◌, ◌≡◌, map, length};
ghost use Rattle.output.specs.Contract.{WroteAfter};
ghost use Rattle.explain.specs.Explained.{shown_in, rows};

use super::place::line_start;
use output::behind::{then_all, then_byte};
use text::class::{Class, class_of};
use text::slice::byte_from;

// The first byte that moves no cursor, a space.
const SPACE: u8 = 32;

// Where a byte is printed.
#[derive(Clone, Copy)]
pub enum Row {
    // In the physical line.
    Line,
    // In front of the caret.
    Caret,
    // In the name of a file or in a question.
    Name,
}

// The byte that is shown there for this one.
#[tactic(auto, unfolding(crate::specs::Explained::shown_in, crate::specs::Explained::control, line::specs::Refused::accepted))]
fn shown_in(row: Row, b: u8) -> u8
    ensures { result ≡ shown_in row b }
{
    match row {
        Row::Line => if class_of(b) == Class::Refused {
            b'?'
        } else {
            b
        },
        Row::Caret => if b == b'\t' { b } else { b' ' },
        Row::Name => if b < SPACE || b == 127 { b'?' } else { b },
    }
}

// Bytes as they are shown there.
pub fn then_row(filled: Option<usize>, row: Row, s: &[u8], out: &mut [u8]) -> Option<usize>
    ensures { WroteAfter filled out.old out.new (map (shown_in row) s.now) result }
{
    let mut last = filled;
    for b in s {
        last = then_byte(last, shown_in(row, *b), out);
    }
    last
}

// Both rows.
pub fn then_rows(filled: Option<usize>, table: &[u8], place: usize, out: &mut [u8]) -> Option<usize>
    requires { place ≤ length table.now }
    ensures { WroteAfter filled out.old out.new (rows table.now place) result }
{
    let start = line_start(table, place);
    let end = byte_from(table, place, b'\n');
    let line = then_row(filled, Row::Line, &table[start..end], out);
    let below = then_all(line, b"\n", out);
    let front = then_row(below, Row::Caret, &table[start..place], out);
    then_all(front, b"^\n", out)
}
