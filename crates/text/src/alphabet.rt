// Alphabets: which bytes a text may hold.
ghost use Rattle.std.specs.List.{list_all};
ghost use Rattle.std.specs.Prelude.{◌≡◌};
ghost use Rattle.text.specs.Contract.{in_alphabet};

use super::class::{is_command_byte, is_name_byte, is_printable, is_word_byte};

// The bytes that a kind of text is made of.
#[derive(Clone, Copy)]
pub enum Alphabet {
    // Letters, digits, `.`, `_`, `-`: users, groups and hosts.
    Name,
    // Letters, digits, `_`: variables.
    Word,
    // 0x20 to 0x7E: arguments.
    Printable,
    // 0x21 to 0x7E, no `:`: commands.
    Command,
}

// Whether the byte is of the alphabet.
pub fn in_alphabet(b: u8, alphabet: Alphabet) -> bool
    ensures { result ≡ in_alphabet alphabet b }
{
    match alphabet {
        Alphabet::Name => is_name_byte(b),
        Alphabet::Word => is_word_byte(b),
        Alphabet::Printable => is_printable(b),
        Alphabet::Command => is_command_byte(b),
    }
}

// Whether all bytes are of the alphabet.
pub fn all_in(s: &[u8], alphabet: Alphabet) -> bool
    ensures { result ≡ list_all (in_alphabet alphabet) s.now }
{
    s.iter().all(|b| in_alphabet(*b, alphabet))
}
