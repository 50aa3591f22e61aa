// What stands behind the options: names and a question, from the i-th word on.
ghost use Rattle.std.specs.Prelude.{◌≤◌, ◌+◌, ◌≡◌, length, drop};
ghost use Rattle.command_line.specs.Operands.{is_behind, extra, last, named, is_input, named_file, questioned, table_checked, for_task};

use super::request::{Arguments, Misuse, Request, Task};
use super::word::Word;

// Whether the word is a known option behind a name.
#[tactic(auto, unfolding(crate::specs::Operands::is_behind))]
fn is_behind(ended: bool, word: Word) -> bool
    ensures { result ≡ is_behind ended word }
{
    word.is_known() && !ended
}

// A word that nothing asks for.
#[tactic(auto, unfolding(crate::specs::Operands::extra))]
fn extra_word(ended: bool, number: usize, word: Word) -> Misuse
    ensures { result ≡ extra ended number word }
{
    if is_behind(ended, word) {
        return Misuse::OptionBehind(number);
    }
    Misuse::Surplus(number)
}

// The request, if no word is left.
#[tactic(auto, using(crate::proofs::WordLists::next, crate::proofs::WordLists::none), unfolding(crate::specs::Operands::last))]
fn if_last(request: Request, ended: bool, words: &[Word], i: usize) -> Result<Request, Misuse>
    ensures { result ≡ last request ended (i + 1) (drop i words.now) }
{
    if i < words.len() {
        return Err(extra_word(ended, i + 1, words[i]));
    }
    Ok(request)
}

// The request, if it has its one name.
#[tactic(auto, using(crate::proofs::WordLists::next, crate::proofs::WordLists::none), unfolding(crate::specs::Operands::named))]
fn if_named(
    request: Request,
    missing: Misuse,
    ended: bool,
    words: &[Word],
    i: usize,
) -> Result<Request, Misuse>
    ensures { result ≡ named request missing ended (i + 1) (drop i words.now) }
{
    if i < words.len() {
        return if_last(request, ended, words, i + 1);
    }
    Err(missing)
}

// Whether the word stands for standard input.
#[tactic(auto, unfolding(crate::specs::Operands::is_input))]
fn is_input(ended: bool, word: Word) -> bool
    ensures { result ≡ is_input ended word }
{
    word == Word::Dash && !ended
}

// The request, if it has its one name, which is not `-`.
#[tactic(auto, using(crate::proofs::WordLists::next, crate::proofs::WordLists::none), unfolding(crate::specs::Operands::named_file))]
fn if_file(
    request: Request,
    missing: Misuse,
    input: Misuse,
    ended: bool,
    words: &[Word],
    i: usize,
) -> Result<Request, Misuse>
    ensures { result ≡ named_file request missing input ended (i + 1) (drop i words.now) }
{
    if i >= words.len() {
        return Err(missing);
    }
    if is_input(ended, words[i]) {
        return Err(input);
    }
    if_last(request, ended, words, i + 1)
}

// A check of this file, perhaps with a question.
#[tactic(auto, using(crate::proofs::WordLists::next, crate::proofs::WordLists::none), unfolding(crate::specs::Operands::questioned))]
fn with_question(file: usize, ended: bool, words: &[Word], i: usize) -> Result<Request, Misuse>
    ensures { result ≡ questioned file ended (i + 1) (drop i words.now) }
{
    let alone = Arguments::of_file(file);
    if i >= words.len() {
        return Ok(Request::Check(alone));
    }
    let number = i + 1;
    if is_behind(ended, words[i]) {
        return Err(Misuse::OptionBehind(number));
    }
    let arguments = Arguments {
        question: Some(number),
        ..alone
    };
    if_last(Request::Check(arguments), ended, words, number)
}

// A check of a table.
#[tactic(auto, using(crate::proofs::WordLists::next, crate::proofs::WordLists::none), unfolding(crate::specs::Operands::table_checked))]
fn check_table(ended: bool, words: &[Word], i: usize) -> Result<Request, Misuse>
    ensures { result ≡ table_checked ended (i + 1) (drop i words.now) }
{
    if i < words.len() {
        return with_question(i + 1, ended, words, i + 1);
    }
    Err(Misuse::NoTable)
}

// The request of a task.
#[tactic(auto, unfolding(crate::specs::Operands::for_task))]
pub fn for_task(
    task: Task,
    log: Option<usize>,
    ended: bool,
    words: &[Word],
    i: usize,
) -> Result<Request, Misuse>
    requires { i ≤ length words.now }
    ensures { result ≡ for_task task log ended (i + 1) (drop i words.now) }
{
    let file = Arguments::of_file(i + 1);
    match task {
        Task::AnswerFromTable => if_file(
            Request::Answer(Arguments { log, ..file }),
            Misuse::NoTable,
            Misuse::TableFromInput,
            ended,
            words,
            i,
        ),
        Task::AnswerFromSuFile => if_file(
            Request::AnswerSu(file),
            Misuse::NoSuFile,
            Misuse::SuFileFromInput,
            ended,
            words,
            i,
        ),
        Task::PrintRecords => if_named(Request::ReadLog(file), Misuse::NoLog, ended, words, i),
        Task::PrintFigures => if_named(Request::Figures(file), Misuse::NoLog, ended, words, i),
        Task::CheckTable => check_table(ended, words, i),
        Task::CheckSuFile => if_named(Request::CheckSu(file), Misuse::NoSuFile, ended, words, i),
        Task::PrintHelp => if_last(Request::Help, ended, words, i),
        Task::PrintVersion => if_last(Request::Version, ended, words, i),
    }
}
