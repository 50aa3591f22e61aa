// What --check prints of a table.
ghost use Rattle.std.specs.Prelude.{◌+◌, ◌≡◌, length};
ghost use Rattle.console.specs.QuestionLine.{line_limit};
ghost use Rattle.explain.specs.Explained.{explained};
ghost use Rattle.checker.specs.Contract.{Reports};

use super::file::{NAME, file_buffer, load_named};
use super::report::{print_filled, report_buffer};
use answer::Answer;
use console::question_line::QuestionLine;
use console::respond::answer_line;
use explain::report::explain;
use std::fs::File;
use std::io::Stderr;
use std::rt::{Env, Files};
use streams::argument::argument;
use streams::buffers::zeros;
use streams::input::load_name;
use streams::message;
use streams::standard::Streams;
use streams::standard_output::Output;

// One byte more than a question line may have.
const QUESTION: usize = QuestionLine::BYTES + 1;

// Room for a question line.
fn question_buffer() -> [u8; QUESTION]
    ensures { line_limit + 1 ≡ length result }
{
    zeros::<QUESTION>()
}

// Hands on what was found in a table that was asked this question.
fn print_report(
    errors: Stderr,
    output: Output,
    name: &[u8],
    question: &[u8],
    table: &[u8],
    answer: Answer,
) -> Output
    ensures { Reports (explained name.now question.now table.now answer) output result }
{
    let mut out = report_buffer();
    let filled = explain(name, question, table, answer, &mut out);
    print_filled(errors, output, filled, &out)
}

// Asks the table the question; one that is none is told.
fn ask(streams: Streams, name: &[u8], table: &[u8], line: &[u8]) {
    let mut buffer = [0u8; Answer::BUFFER];
    let answered = answer_line(table, line, &mut buffer);
    let answer = answered.answer;
    match answer {
        Answer::MalformedQuestion => {
            message::tell(
                streams.errors,
                b"this is no question; write COMMAND USER GROUPS HOST MINUTE AGE ARGS",
            )
        }
        _ => {
            print_report(
                streams.errors,
                Output::new(streams),
                name,
                line,
                table,
                answer,
            );
        }
    }
}

// Asks the table of this name the question.
fn ask_named<R: Files<File = File>>(rt: &R, streams: Streams, name: &[u8], line: &[u8]) {
    let mut table = file_buffer();
    let Some(n) = load_named(rt, streams, name, &mut table) else {
        return;
    };
    ask(streams, name, &table[..n], line);
}

// Asks the table that an argument names the question.
fn ask_at<R: Env + Files<File = File>>(rt: &R, streams: Streams, i: usize, line: &[u8]) {
    let mut name = zeros::<NAME>();
    let Some(n) = load_name(rt, streams.errors, i, b"the name of the table", &mut name) else {
        return;
    };
    ask_named(rt, streams, &name[..n], line);
}

// Checks the table that an argument names.
pub fn check<R: Env + Files<File = File>>(rt: &R, streams: Streams, i: usize) {
    ask_at(rt, streams, i, b"check root - localhost 0 -");
}

// The same, with the question in the argument behind it.
pub fn check_with<R: Env + Files<File = File>>(rt: &R, streams: Streams, i: usize) {
    let mut line = question_buffer();
    if i < usize::MAX {
        let n = argument(rt, i + 1, &mut line);
        ask_at(rt, streams, i, &line[..n]);
    }
}
