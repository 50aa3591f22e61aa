// The words of each cause: what is wrong, a semicolon, and what to do.
ghost use Rattle.std.specs.Prelude.{◌≡◌};
ghost use Rattle.explain.specs.Words.{words_of};

use fault::Cause;

// The words of a cause.
#[tactic(auto, unfolding(crate::specs::Words::words_of))]
pub fn words_of(cause: Cause) -> &'static [u8]
    ensures { result.now ≡ words_of cause }
{
    match cause {
        Cause::LineLength =>
            b"the line has more than 4,096 bytes, its continuation lines and comments counted; make several lines of it",
        Cause::Indent =>
            b"the indent is wrong: a line that goes on from a backslash must begin with a blank, and any other line with a field must not; add or remove the blank",
        Cause::OpenQuote =>
            b"a quote is still open at the end of the line; close it with the same quote, or remove it",
        Cause::FieldCount => b"the line has more than 64 fields; make several lines of it",
        Cause::Variable =>
            b"a $ does not stand before a known name; correct the name, define it on an earlier line, or put the $ in single quotes",
        Cause::FieldLength =>
            b"a field has more than 1,024 bytes once its variables are replaced; shorten it, or make several fields of it",
        Cause::Pattern =>
            b"a pattern is broken: a [ or { is not closed, a set is empty or a range in it runs backwards, a } closes nothing, or a backslash is last; correct it, or put a backslash before a byte that stands for itself",
        Cause::PatternSize =>
            b"the braces of a field are more than 4 deep or stand for more than 64 alternatives; make several fields or lines of it",
        Cause::NameLength => b"the name of a variable has more than 64 bytes; choose a shorter one",
        Cause::TextLength =>
            b"the text of a variable has more than 256 bytes; shorten it, or share it out over several variables",
        Cause::IdLength => b"a user or group name in an option has more than 64 bytes; correct it",
        Cause::IfDepth => b"a fifth :if stands inside four others; leave one of them out",
        Cause::Alternative =>
            b"a user, group or host pattern is empty, or has a colon, a ~, a second @ or a ! of its own; write USER@HOST, with ! and then user~, group~ or time~ only in front of it, and CmdPat::FullPath only first on the line",
        Cause::TimeItem =>
            b"a time is in none of the forms 8:30-17/mon, >=8:30/mon (or >, <=, <) and mon; write it so, its start not after its end and nothing later than 24:00",
        Cause::OptionName =>
            b"a field is none of the options that this line takes; correct the name before its =, or remove the field",
        Cause::OptionValue =>
            b"an option does not take this value; write a user or group name for an id, y or n for auth, -32768 to 32767 for timeout, n or m-n up to 64 for nargs",
        Cause::PatternKind =>
            b"no other kind of patterns is known than shell; write patterns=shell",
        Cause::EntryTooEarly =>
            b"an entry stands before any line that says :global patterns=shell; put that line above it",
        Cause::ColonWord =>
            b"no line begins with this word; write :define, :global, :global_options or :if",
        Cause::DefineName =>
            b"the name behind :define is CALLER, HOST or IS_USERTAB, or not a letter or underscore followed by letters, digits and underscores; choose another",
        Cause::Operator =>
            b"the second word behind :if is neither == nor !=; write one of them, with a blank on either side",
        Cause::LatePair =>
            b"a :: stands in a path or an option; put all CmdPat::FullPath fields first on the line, and write no other ::",
        Cause::Path =>
            b"the path does not begin with a slash, or has a blank in it; write it from the slash on, without blanks",
        Cause::SurplusField =>
            b"a field stands behind the text of :define; put quotes round a text with blanks, or remove the field",
        Cause::MissingPart =>
            b"a part of the line is missing; write a command, a path and a user or group in an entry, a name and a text behind :define, an option behind :global, A == B and a rest behind :if",
        Cause::OptionTwice => b"the same option stands twice on the line; keep one of the two",
        Cause::TooManyNames =>
            b"more than 64 names are defined; remove one, or give a new text to one that is no longer needed",
    }
}
