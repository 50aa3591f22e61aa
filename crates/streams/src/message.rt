// Lines on standard error, each of which begins with the program's name.
ghost use Rattle.streams.specs.Contract.{IsPrefixLen};

use super::argument::argument;
use super::buffers::zeros;
use std::fmt::InlineText;
use std::io::{Error, Stderr, Write};
use std::rt::Env;

// The length of the longest line: the rest of a longer one is left out.
const LINE: usize = 65536;

// As many bytes of an argument are shown.
const WORD: usize = 4096;

// What each line begins with.
const FRONT: &[u8] = b"supertab: ";

// A byte as it is shown; one that would move a terminal's cursor is not.
fn shown(b: u8) -> u8 {
    if b.is_ascii_control() { b'?' } else { b }
}

// Bytes as they are shown, as far as there is room; the place behind them.
fn put_shown(out: &mut [u8], from: usize, text: &[u8]) -> usize
    requires { IsPrefixLen from out.old }
    ensures { IsPrefixLen result out.new }
{
    let count = text.len().min(out.len() - from);
    for (to, b) in out[from..].iter_mut().zip(text) {
        *to = shown(*b);
    }
    from + count
}

// The program's name and the parts of a line, as far as there is room; the place behind them.
fn put_parts(out: &mut [u8], parts: &[&[u8]]) -> usize
    ensures { IsPrefixLen result out.new }
{
    let mut n = put_shown(out, 0, FRONT);
    for part in parts {
        n = put_shown(out, n, part);
    }
    n
}

// Bytes on standard error; that they cannot be written is told to nobody.
fn write(errors: Stderr, bytes: &[u8]) {
    let mut to = errors;
    let _ = to.write_all(bytes);
}

// The program's name and the parts of a line, up to the line's end.
fn write_parts(errors: Stderr, parts: &[&[u8]]) {
    let mut line = zeros::<LINE>();
    let n = put_parts(&mut line, parts);
    write(errors, &line[..n]);
}

// A line of these parts.
fn write_line(errors: Stderr, parts: &[&[u8]]) {
    write_parts(errors, parts);
    write(errors, b"\n");
}

// A line of these parts and of the reason of a failure. Of one of the system's the library shows the number too, behind the
// system's text: that is left out.
fn write_failure(errors: Stderr, parts: &[&[u8]], why: Error) {
    let text = InlineText::<256>::of(why);
    let shown = text.as_str();
    let reason = match shown.split_once(" (os error ") {
        Some((front, _)) => front,
        None => shown,
    };
    write_parts(errors, parts);
    write(errors, b": ");
    write(errors, reason.as_bytes());
    write(errors, b"\n");
}

// What a call that failed was about, and the system's reason.
pub fn failed(errors: Stderr, what: &[u8], why: Error) {
    write_failure(errors, &[what], why);
}

// The same, with words on what follows from it.
pub fn failed_with(errors: Stderr, what: &[u8], words: &[u8], why: Error) {
    write_failure(errors, &[what, b": ", words], why);
}

// A line of words.
pub fn tell(errors: Stderr, words: &[u8]) {
    write_line(errors, &[words]);
}

// What the line is about, and what is wrong with it.
pub fn tell_about(errors: Stderr, what: &[u8], words: &[u8]) {
    write_line(errors, &[what, b": ", words]);
}

// The same of an argument, or of the beginning of a long one.
pub fn tell_of<R: Env>(rt: &R, errors: Stderr, i: usize, words: &[u8]) {
    let mut word = zeros::<WORD>();
    let n = argument(rt, i, &mut word);
    tell_about(errors, &word[..n], words);
}

// What is wrong with an argument beside another one, which stands between the words and the rest of them.
pub fn tell_of_both<R: Env>(rt: &R, errors: Stderr, i: usize, words: &[u8], j: usize, rest: &[u8]) {
    let mut one = zeros::<WORD>();
    let mut other = zeros::<WORD>();
    let n = argument(rt, i, &mut one);
    let m = argument(rt, j, &mut other);
    write_line(errors, &[&one[..n], b": ", words, &other[..m], rest]);
}
