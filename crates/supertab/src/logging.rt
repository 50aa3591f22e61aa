// Answers with a log, and what is printed of one.
use checker::file::{NAME, file_buffer, load_argument};
use log_text::show::show;
use record_log::file::Log;
use record_log::opening::open;
use responder::lines::answer_lines;
use responder::source::Source;
use std::fs::File;
use std::rt::{Env, Files};
use streams::buffers::zeros;
use streams::identity::Identity;
use streams::input::{Input, load_name};
use streams::message;
use streams::name::open_read;
use streams::standard::Streams;
use summary::gather::print_figures;

// What is printed of a log.
#[derive(Clone, Copy)]
pub enum LogView {
    Records,
    Figures,
}

// Answers the questions of standard input from the table of this identity, with the log that an argument names, if it can be had.
fn answer_logged<R: Env + Files<File = File>>(
    rt: &R,
    streams: Streams,
    table: &[u8],
    identity: Identity,
    i: usize,
) {
    let mut name = zeros::<NAME>();
    match load_name(rt, streams.errors, i, b"the name of the log", &mut name) {
        None => {
            answer_lines(streams, Source::Table, table, Log::none(), b"");
        }
        Some(n) => {
            let opened = open(rt, streams, &name[..n], identity);
            answer_lines(streams, Source::Table, table, opened, &name[..n]);
        }
    }
}

// Answers the questions of standard input, with the log and the table that these arguments name. The table is read
// before the log is opened, so that a wrong table leaves no log behind.
pub fn answer<R: Env + Files<File = File>>(rt: &R, streams: Streams, i: usize, j: usize) {
    let mut bytes = file_buffer();
    let read = load_argument(rt, streams, j, b"the name of the table", &mut bytes);
    let loaded = read.loaded;
    let identity = read.identity;
    let Some(n) = loaded else {
        return;
    };
    answer_logged(rt, streams, &bytes[..n], identity, i);
}

// Prints what is asked of an open log.
fn print_view(streams: Streams, view: LogView, input: Input<'_>) {
    match view {
        LogView::Records => {
            show(streams, input);
        }
        LogView::Figures => {
            print_figures(streams, input);
        }
    }
}

// Prints what is asked of the log of this name, `-` for standard input; one that cannot be opened is told.
fn read_named<R: Files<File = File>>(rt: &R, streams: Streams, view: LogView, name: &[u8]) {
    if name == b"-".as_slice() {
        print_view(streams, view, Input::standard(streams));
        return;
    }
    match open_read(rt, name) {
        Ok(file) => print_view(streams, view, Input::of_file(streams, &file, name, b"")),
        Err(why) => message::failed(streams.errors, name, why),
    }
}

// Prints what is asked of the log that an argument names.
pub fn read<R: Env + Files<File = File>>(rt: &R, streams: Streams, view: LogView, i: usize) {
    let mut name = zeros::<NAME>();
    let Some(n) = load_name(rt, streams.errors, i, b"the name of the log", &mut name) else {
        return;
    };
    read_named(rt, streams, view, &name[..n]);
}
