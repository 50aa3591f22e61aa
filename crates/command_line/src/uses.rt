// The request that the arguments make.
ghost use Rattle.std.specs.Prelude.{◌<◌, ◌≤◌, ◌+◌, ◌≡◌, length, drop, position, IfSome};
ghost use Rattle.command_line.specs.Word.{is_word};
ghost use Rattle.command_line.specs.Request.{file_number, file_task, log_task, task_of, use_of, last_word, request_of};

use super::operands::for_task;
use super::options::{count_options, missing_file, wrong_among};
use super::request::{Misuse, Request, Task};
use super::word::{Word, word_at};
use std::rt::Env;

// The place of the first of the words that is this one.
fn place_of(word: Word, words: &[Word]) -> Option<usize>
    ensures place { result ≡ position (is_word word) words.now }
    ensures within { IfSome result (λ i. i < length words.now) }
{
    words.iter().position(|w| *w == word)
}

// The number of the argument that is the file of this option.
#[tactic(auto, unfolding(crate::specs::Request::file_number))]
fn file_number(word: Word, options: &[Word]) -> Option<usize>
    ensures { result ≡ file_number word options.now }
{
    place_of(word, options).map(|i| i + 2)
}

// What the options ask for with a table or a su file.
#[tactic(auto, unfolding(crate::specs::Request::file_task))]
fn file_task(options: &[Word]) -> Task
    ensures { result ≡ file_task options.now }
{
    match (options.contains(&Word::Su), options.contains(&Word::Check)) {
        (true, true) => Task::CheckSuFile,
        (true, false) => Task::AnswerFromSuFile,
        (false, true) => Task::CheckTable,
        (false, false) => Task::AnswerFromTable,
    }
}

// The same, or what they ask for with a log.
#[tactic(auto, unfolding(crate::specs::Request::log_task))]
fn log_task(options: &[Word]) -> Task
    ensures { result ≡ log_task options.now }
{
    if options.contains(&Word::ReadLog) {
        return Task::PrintRecords;
    }
    if options.contains(&Word::Figures) {
        return Task::PrintFigures;
    }
    file_task(options)
}

// What the options ask for.
#[tactic(auto, unfolding(crate::specs::Request::task_of))]
fn task_of(options: &[Word]) -> Task
    ensures { result ≡ task_of options.now }
{
    if options.contains(&Word::Help) {
        return Task::PrintHelp;
    }
    if options.contains(&Word::Version) {
        return Task::PrintVersion;
    }
    log_task(options)
}

// What the options ask for, done with the words from the i-th on.
#[tactic(auto, using(crate::proofs::WordLists::next, crate::proofs::WordLists::none, crate::proofs::WordLists::further), unfolding(crate::specs::Request::use_of))]
fn use_of(options: &[Word], words: &[Word], i: usize) -> Result<Request, Misuse>
    requires { i ≤ length words.now }
    ensures { result ≡ use_of options.now (i + 1) (drop i words.now) }
{
    let task = task_of(options);
    let log = file_number(Word::Log, options);
    if i < words.len() && words[i] == Word::EndOfOptions {
        return for_task(task, log, true, words, i + 1);
    }
    for_task(task, log, false, words, i)
}

// The last word of the options; an operand where there is none.
fn last_of(options: &[Word]) -> Word
    ensures { result ≡ last_word options.now }
{
    options.last().copied().unwrap_or(Word::Operand)
}

// The request of the words behind the program's name.
#[tactic(auto, using(crate::proofs::WordLists::first_words), unfolding(crate::specs::Request::request_of, crate::specs::Request::request_with))]
pub fn request_of(words: &[Word]) -> Result<Request, Misuse>
    ensures { result ≡ request_of words.now }
{
    let n = count_options(words);
    wrong_among(&words[..n])?;
    missing_file(last_of(&words[..n]), words, n)?;
    use_of(&words[..n], words, n)
}

// The words of the program's arguments, as many as there is room for.
fn read_words<R: Env>(rt: &R, out: &mut [Word]) -> usize
    ensures { result ≤ length out.new }
{
    for n in 0..out.len() {
        let Some(word) = word_at(rt, n + 1) else {
            return n;
        };
        out[n] = word;
    }
    out.len()
}

// The request of the program's arguments. Of more than 64 one is wrong, since each option stands once, and the first that is
// wrong is among the first 64.
pub fn requested<R: Env>(rt: &R) -> Result<Request, Misuse> {
    let mut words = [Word::Operand; 64];
    let n = read_words(rt, &mut words);
    request_of(&words[..n])
}
