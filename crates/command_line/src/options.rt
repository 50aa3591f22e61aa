// The options, which stand first and in any order.
ghost use Rattle.std.specs.Prelude.{◌≤◌, ◌+◌, ◌≡◌, [], length, drop, position};
ghost use Rattle.command_line.specs.Options.{takes_file, belongs, stands_with, excludes, wrong_option, wrong_among, file_missing, no_file};
ghost use Rattle.command_line.specs.Contract.{CountsOptions};

use super::request::Misuse;
use super::word::Word;

// Whether a file stands behind the option.
#[tactic(auto, unfolding(crate::specs::Options::takes_file))]
fn takes_file(word: Word) -> bool
    ensures { result ≡ takes_file word }
{
    word == Word::Log
}

// Whether a word belongs to the options, behind another one.
#[tactic(auto, unfolding(crate::specs::Options::belongs))]
fn belongs_behind(before: Word, word: Word) -> bool
    ensures { result ≡ belongs before word }
{
    if takes_file(before) {
        word == Word::Operand
    } else {
        word.is_option()
    }
}

// How many of the words belong to the options.
#[tactic(auto, using(crate::proofs::WordLists::next, crate::proofs::WordLists::none), unfolding(crate::specs::Options::option_count))]
pub fn count_options(words: &[Word]) -> usize
    ensures { CountsOptions words.now result }
{
    let mut before = Word::Operand;
    for i in 0..words.len() {
        let word = words[i];
        if !belongs_behind(before, word) {
            return i;
        }
        before = word;
    }
    words.len()
}

// Two options that may stand together.
#[derive(Clone, Copy)]
struct Pair {
    one: Word,
    other: Word,
}

// All that may.
const PAIRS: [Pair; 1] = [Pair {
    one: Word::Check,
    other: Word::Su,
}];

// Whether two options may stand together, in either order.
#[tactic(auto, unfolding(crate::specs::Options::stands_with, crate::specs::Options::is_pair, crate::specs::Options::are_those, crate::specs::Options::pairs))]
fn stands_with(a: Word, b: Word) -> bool
    ensures { result ≡ stands_with a b }
{
    PAIRS.iter().any(|pair| (a == pair.one && b == pair.other)
        || (b == pair.one && a == pair.other))
}

// Whether a word is an option with which the first cannot stand.
#[tactic(auto, unfolding(crate::specs::Options::excludes))]
fn is_excluded(word: Word, other: Word) -> bool
    ensures { result ≡ excludes word other }
{
    other.is_option() && !stands_with(other, word)
}

// The place of the first of the words with which one cannot stand.
fn excluded(word: Word, words: &[Word]) -> Option<usize>
    ensures { result ≡ position (excludes word) words.now }
{
    words.iter().position(|other| is_excluded(word, *other))
}

// What is wrong with a word that belongs to the options, behind those before it.
#[tactic(auto, unfolding(crate::specs::Options::wrong_option))]
fn wrong_option(before: &[Word], word: Word) -> Result<(), Misuse>
    ensures { result ≡ wrong_option before.now word }
{
    let number = before.len() + 1;
    if word == Word::Operand {
        return Ok(());
    }
    if word == Word::OtherOption {
        return Err(Misuse::UnknownOption(number));
    }
    if before.contains(&word) {
        return Err(Misuse::GivenTwice(number));
    }
    match excluded(word, before) {
        Some(i) => Err(Misuse::CannotStandWith(number, i + 1)),
        None => Ok(()),
    }
}

// The first of the options that is wrong.
#[tactic(auto, using(crate::proofs::WordLists::next, crate::proofs::WordLists::none, crate::proofs::WordLists::grown), unfolding(crate::specs::Options::wrong_among))]
pub fn wrong_among(options: &[Word]) -> Result<(), Misuse>
    ensures { result ≡ wrong_among [] options.now }
{
    for i in 0..options.len() {
        wrong_option(&options[..i], options[i])?;
    }
    Ok(())
}

// What stands for the file of an option, in the i-th word.
#[tactic(auto, using(crate::proofs::WordLists::next, crate::proofs::WordLists::none), unfolding(crate::specs::Options::no_file))]
fn without_file(words: &[Word], i: usize) -> Misuse
    requires { i ≤ length words.now }
    ensures { result ≡ no_file (i + 1) (drop i words.now) }
{
    if i >= words.len() {
        return Misuse::NoLog;
    }
    if words[i] == Word::Dash {
        return Misuse::LogToOutput;
    }
    Misuse::UnknownOption(i + 1)
}

// Whether the option in front of the i-th word lacks its file.
#[tactic(auto, unfolding(crate::specs::Options::file_missing))]
pub fn missing_file(before: Word, words: &[Word], i: usize) -> Result<(), Misuse>
    requires { i ≤ length words.now }
    ensures { result ≡ file_missing before (i + 1) (drop i words.now) }
{
    if takes_file(before) {
        return Err(without_file(words, i));
    }
    Ok(())
}
