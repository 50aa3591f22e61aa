// What an argument is where an option may stand.
ghost use Rattle.std.specs.Prelude.{◌≡◌, map};
ghost use Rattle.command_line.specs.Word.{is_option, is_known, named, word_of};
ghost use Rattle.command_line.specs.Contract.{written};

use std::env::FillError;
use std::rt::Env;
use text::slice::head_is;

#[derive(Clone, Copy, PartialEq, Eq)]
pub enum Word {
    // It does not begin with `-`.
    Operand,
    // `-`
    Dash,
    // `--`
    EndOfOptions,
    // It begins with `-` and is none that is known.
    OtherOption,
    Check,
    Su,
    Log,
    ReadLog,
    Figures,
    Help,
    Version,
}

impl Word {
    // Whether it is an option, known or not.
    pub fn is_option(self) -> bool
        ensures { result ≡ is_option self }
    {
        !matches!(self, Word::Operand | Word::Dash | Word::EndOfOptions)
    }

    // Whether it is an option that is known.
    pub fn is_known(self) -> bool
        ensures { result ≡ is_known self }
    {
        self.is_option() && self != Word::OtherOption
    }
}

// An option as it is written, and its word.
#[derive(Clone, Copy)]
struct Known {
    text: &'static [u8],
    word: Word,
}

// What is known of what begins with `-`.
const KNOWN: [Known; 10] = [
    Known {
        text: b"-",
        word: Word::Dash,
    },
    Known {
        text: b"--",
        word: Word::EndOfOptions,
    },
    Known {
        text: b"--check",
        word: Word::Check,
    },
    Known {
        text: b"--su",
        word: Word::Su,
    },
    Known {
        text: b"--log",
        word: Word::Log,
    },
    Known {
        text: b"--read-log",
        word: Word::ReadLog,
    },
    Known {
        text: b"--figures",
        word: Word::Figures,
    },
    Known {
        text: b"--help",
        word: Word::Help,
    },
    Known {
        text: b"-h",
        word: Word::Help,
    },
    Known {
        text: b"--version",
        word: Word::Version,
    },
];

// The word of an option that is written so.
#[tactic(auto, using(crate::proofs::WordLists::next_option, crate::proofs::WordLists::none_left), unfolding(crate::specs::Word::named))]
fn named(text: &[u8], options: &[Known]) -> Word
    ensures { result ≡ named text.now (map written options.now) }
{
    for known in options {
        if text == known.text {
            return known.word;
        }
    }
    Word::OtherOption
}

// The word of an option, or of an operand, which does not begin with `-`.
#[tactic(auto, unfolding(crate::specs::Word::word_of, crate::specs::Word::named, crate::specs::Word::options))]
pub fn word_of(text: &[u8]) -> Word
    ensures { result ≡ word_of text.now }
{
    if !head_is(text, b'-') {
        return Word::Operand;
    }
    named(text, &KNOWN)
}

// The word of an argument that is longer than all options, by its first byte.
fn long_word(first: u8) -> Word {
    if first == b'-' {
        return Word::OtherOption;
    }
    Word::Operand
}

// The word of an argument, none of one that is not there. Of one that is longer than all options only the first byte is
// looked at.
pub fn word_at<R: Env>(rt: &R, i: usize) -> Option<Word> {
    let mut text = [0u8; 17];
    match rt.arg(i, &mut text) {
        Ok(n) => Some(word_of(&text[..n])),
        Err(FillError::TooLong) => Some(long_word(text[0])),
        Err(FillError::NotPresent) => None,
    }
}
