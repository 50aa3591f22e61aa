// The program: answers question lines from a table or a su file, checks one, keeps a log, prints one and its figures.
#![tactic(auto)]

mod logging; // answers with a log, and what is printed of one

use checker::file::{file_buffer, load};
use checker::{su, table};
use command_line::request::{Arguments, Misuse, Request};
use command_line::uses::requested;
use logging::LogView;
use record_log::file::Log;
use responder::lines::answer_lines;
use responder::source::Source;
use std::fs::File;
use std::rt::{Env, Files};
use streams::standard::Streams;
use streams::{message, standard_output};

// Answers the questions of standard input from the file that an argument names, which is of this kind; a name that cannot
// be had is told by what it is the name of.
fn answer<R: Env + Files<File = File>>(
    rt: &R,
    streams: Streams,
    source: Source,
    i: usize,
    what: &[u8],
) {
    let mut bytes = file_buffer();
    let Some(n) = load(rt, streams, i, what, &mut bytes) else {
        return;
    };
    answer_lines(streams, source, &bytes[..n], Log::none(), b"");
}

fn help(streams: Streams) {
    standard_output::print(
        streams,
        b"supertab TABLE < QUESTIONS             print an answer for each question line\n\
        supertab --log FILE TABLE < QUESTIONS  the same, and append a record of each answer to the file\n\
        supertab --su FILE < QUESTIONS         print an answer from a su file for each question line\n\
        supertab --read-log FILE               print the records of a log, NUMBER LINE MINUTE AUTH AGE\n\
        supertab --figures FILE                print how many of its records there are of each answer, weekday and hour\n\
        supertab --check TABLE [QUESTION]      tell whether the table is good for one question, or where it is not and why\n\
        supertab --check --su FILE             tell the same of a su file\n\
        supertab --help, supertab -h           print this\n\
        supertab --version                     print the version\n\
        A question line is COMMAND USER GROUPS HOST MINUTE AGE ARGS, and TARGET USER GROUPS where a su file answers. --check - and\n\
        --check --su - read the file, and --read-log - and --figures - the log, from standard input. Options stand first, in any order.\n\
        Behind -- the name of a table, of a su file or of a log that is read may begin with -.\n",
    );
}

// Answers from a table, with a log if one is named.
fn answer_table<R: Env + Files<File = File>>(rt: &R, streams: Streams, arguments: Arguments) {
    match arguments.log {
        Some(log) => logging::answer(rt, streams, log, arguments.file),
        None => answer(
            rt,
            streams,
            Source::Table,
            arguments.file,
            b"the name of the table",
        ),
    }
}

// Checks a table, with the question in the argument behind it if there is one.
fn check_table<R: Env + Files<File = File>>(rt: &R, streams: Streams, arguments: Arguments) {
    match arguments.question {
        Some(_) => table::check_with(rt, streams, arguments.file),
        None => table::check(rt, streams, arguments.file),
    }
}

// Tells what is wrong, and what to do.
fn tell<R: Env>(rt: &R, streams: Streams, misuse: Misuse) {
    let errors = streams.errors;
    match misuse {
        Misuse::NoTable => message::tell(
            errors,
            b"no table is named; supertab --help tells the uses",
        ),
        Misuse::NoSuFile => message::tell(
            errors,
            b"no su file is named; supertab --help tells the uses",
        ),
        Misuse::NoLog => message::tell(errors, b"no log is named; supertab --help tells the uses"),
        Misuse::LogToOutput => message::tell(errors, b"-: the log must be a file"),
        Misuse::TableFromInput => {
            message::tell(
                errors,
                b"-: the questions are read from standard input, so the table must be a file",
            )
        }
        Misuse::SuFileFromInput => {
            message::tell(
                errors,
                b"-: the questions are read from standard input, so the su file must be a file",
            )
        }
        Misuse::UnknownOption(i) => message::tell_of(
            rt,
            errors,
            i,
            b"no such option; supertab --help tells the uses",
        ),
        Misuse::GivenTwice(i) => message::tell_of(
            rt,
            errors,
            i,
            b"this option is given twice; give it once",
        ),
        Misuse::CannotStandWith(i, j) => message::tell_of_both(
            rt,
            errors,
            i,
            b"this option cannot stand with ",
            j,
            b"; leave out one of them",
        ),
        Misuse::OptionBehind(i) => message::tell_of(
            rt,
            errors,
            i,
            b"options stand before the name of the file; put it there",
        ),
        Misuse::Surplus(i) => message::tell_of(
            rt,
            errors,
            i,
            b"one argument too many; supertab --help tells the uses",
        ),
    }
}

// What was asked for.
fn run<R: Env + Files<File = File>>(rt: &R, streams: Streams) {
    let request = match requested(rt) {
        Ok(request) => request,
        Err(misuse) => {
            tell(rt, streams, misuse);
            return;
        }
    };
    match request {
        Request::Answer(arguments) => answer_table(rt, streams, arguments),
        Request::AnswerSu(arguments) => answer(
            rt,
            streams,
            Source::SuFile,
            arguments.file,
            b"the name of the su file",
        ),
        Request::ReadLog(arguments) => {
            logging::read(rt, streams, LogView::Records, arguments.file)
        }
        Request::Figures(arguments) => {
            logging::read(rt, streams, LogView::Figures, arguments.file)
        }
        Request::Check(arguments) => check_table(rt, streams, arguments),
        Request::CheckSu(arguments) => su::check(rt, streams, arguments.file),
        Request::Help => help(streams),
        Request::Version => {
            standard_output::print(streams, b"supertab 0.1.0\n");
        }
    }
}

fn main(rt: HostRuntime) {
    let streams = Streams {
        input: rt.stdin(),
        output: rt.stdout(),
        errors: rt.stderr(),
    };
    run(&rt, streams);
}
