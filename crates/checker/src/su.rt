// What --check --su prints.
ghost use Rattle.std.specs.Prelude.{[]};
ghost use Rattle.text.specs.Bytes.{bytes};
ghost use Rattle.suauth.specs.Meaning.{answer_of};
ghost use Rattle.suauth.specs.Contract.{asking};
ghost use Rattle.su_console.specs.Explained.{su_explained};
ghost use Rattle.checker.specs.Contract.{Reports};

use super::file::{NAME, file_buffer, load_named};
use super::report::{print_filled, report_buffer};
use std::fs::File;
use std::io::Stderr;
use std::rt::{Env, Files};
use streams::buffers::zeros;
use streams::input::load_name;
use streams::standard::Streams;
use streams::standard_output::Output;
use su_console::report::explain_su;
use suauth::su_answer;

// Asks the file a question, and hands on what was found in it: it is good or not whatever is asked.
fn print_report(errors: Stderr, output: Output, name: &[u8], file: &[u8]) -> Output
    ensures { Reports (su_explained name.now file.now (answer_of file.now (asking (bytes "root") (bytes "root") []))) output result }
{
    let mut out = report_buffer();
    let answer = su_answer(file, b"root", b"root", b"");
    let filled = explain_su(name, file, answer, &mut out);
    print_filled(errors, output, filled, &out)
}

// Checks the file of this name.
fn check_named<R: Files<File = File>>(rt: &R, streams: Streams, name: &[u8]) {
    let mut file = file_buffer();
    let Some(n) = load_named(rt, streams, name, &mut file) else {
        return;
    };
    print_report(streams.errors, Output::new(streams), name, &file[..n]);
}

// Checks the su file that an argument names.
pub fn check<R: Env + Files<File = File>>(rt: &R, streams: Streams, i: usize) {
    let mut name = zeros::<NAME>();
    let Some(n) = load_name(rt, streams.errors, i, b"the name of the su file", &mut name) else {
        return;
    };
    check_named(rt, streams, &name[..n]);
}
