// Whether a question is as document 01 wants it. Any bytes are taken.
ghost use Rattle.question.specs.declared.Age.{Age};
ghost use Rattle.std.specs.List.{list_all, slice_split};
ghost use Rattle.std.specs.Prelude.{◌≡◌, Option};
ghost use Rattle.text.specs.Bytes.{is};
ghost use Rattle.question.specs.Question.{strings_of, good_component, good_command, good_name, good_argument, good_strings, question_of};
ghost use Rattle.question.specs.Contract.{when_strings, most_of, good_of, is_question};

use super::strings::Strings;
use super::{Argument, Arguments, Command, Groups, Host, User, WeekMinute};
use text::alphabet::{Alphabet, all_in};
use text::split::Split;

// Whether a component of a command is neither empty nor `.` nor `..`.
#[tactic(auto, unfolding(crate::specs::Question::good_component))]
fn component_is_good(p: &[u8]) -> bool
    ensures { result ≡ good_component p.now }
{
    !p.is_empty() && p != b".".as_slice() && p != b"..".as_slice()
}

// Whether each component between slashes is good.
fn components_are_good(s: &[u8]) -> bool
    ensures { result ≡ list_all good_component (slice_split (is "/") s.now) }
{
    Split::new(s, b'/').all(|p| component_is_good(p))
}

// Whether s is a good command.
#[tactic(auto, unfolding(crate::specs::Question::good_command))]
pub fn command_is_good(s: &[u8]) -> bool
    ensures { result ≡ good_command s.now }
{
    !s.is_empty()
        && s.len() <= Command::BYTES
        && all_in(s, Alphabet::Command)
        && components_are_good(s)
}

// Whether s is 1 to most bytes of the user alphabet.
#[tactic(auto, unfolding(crate::specs::Question::good_name))]
pub fn name_is_good(s: &[u8], most: usize) -> bool
    ensures { result ≡ good_name most s.now }
{
    !s.is_empty() && s.len() <= most && all_in(s, Alphabet::Name)
}

// Whether s is a good argument.
#[tactic(auto, unfolding(crate::specs::Question::good_argument))]
pub fn argument_is_good(s: &[u8]) -> bool
    ensures { result ≡ good_argument s.now }
{
    s.len() <= Argument::BYTES && all_in(s, Alphabet::Printable)
}

// What a list of zero-ended strings holds.
#[derive(Clone, Copy)]
pub enum Listed {
    Groups,
    Arguments,
}

// How many strings the list may hold.
fn most_of(listed: Listed) -> usize
    ensures { result ≡ most_of listed }
{
    match listed {
        Listed::Groups => Groups::MOST,
        Listed::Arguments => Arguments::MOST,
    }
}

// Whether a string of the list is good.
fn is_good(s: &[u8], listed: Listed) -> bool
    ensures { result ≡ good_of listed s.now }
{
    match listed {
        Listed::Groups => name_is_good(s, User::BYTES),
        Listed::Arguments => argument_is_good(s),
    }
}

// Whether the list is good groups, or good arguments, each ended by a zero; what stands behind one too many is not read.
#[tactic(auto, using(crate::proofs::ZeroEnded::strings_are, crate::proofs::ZeroEnded::strings_most))]
pub fn strings_are_good(list: &[u8], listed: Listed) -> bool
    ensures { result ≡ when_strings (good_strings (most_of listed) (good_of listed)) (strings_of list.now) }
{
    let most = most_of(listed);
    list.last().is_none_or(|b| *b == 0)
        && Strings(list)
            .enumerate()
            .all(|(i, s)| i < most && is_good(s, listed))
}

// Whether the bytes ask a question, whatever the age is.
#[tactic(auto, using(crate::proofs::Forms::question_is))]
pub fn question_is_good(
    command: &[u8],
    user: &[u8],
    groups: &[u8],
    host: &[u8],
    minute: WeekMinute,
    args: &[u8],
) -> bool
    ensures { (age : Option Age) → result ≡ is_question (question_of command.now user.now groups.now host.now minute age args.now) }
{
    command_is_good(command)
        && name_is_good(user, User::BYTES)
        && strings_are_good(groups, Listed::Groups)
        && name_is_good(host, Host::BYTES)
        && minute.0 < WeekMinute::LIMIT
        && strings_are_good(args, Listed::Arguments)
}
