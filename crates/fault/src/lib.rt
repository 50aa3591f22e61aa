// The causes for which a control line is refused, and the number told for each.
#![tactic(auto)]

ghost use Rattle.std.specs.Prelude.{◌≡◌};
ghost use Rattle.fault.specs.Fault.{number_of};
ghost use Rattle.fault.specs.Contract.{IndexOf};

#[derive(Clone, Copy, PartialEq, Eq)]
pub enum Cause {
    // The joined line is too long.
    LineLength,
    // A continuation line, or the line itself, is not indented as it must be.
    Indent,
    // A quote is open at the line's end.
    OpenQuote,
    // There are too many fields.
    FieldCount,
    // `$` before no name, or before an unknown one.
    Variable,
    // A field is too long after substitution.
    FieldLength,
    // A set is open, empty or has a range that runs backwards, a brace list is open, a `}` closes none, or a backslash is last.
    Pattern,
    // Braces are too deep, or have too many expansions.
    PatternSize,
    // The name of a variable is too long.
    NameLength,
    // The text of a variable is too long.
    TextLength,
    // A user or group name in an option is too long.
    IdLength,
    // A fifth `:if` stands inside the others.
    IfDepth,
    // A user or group alternative has an empty part, a second `@`, or a byte that cannot stand there.
    Alternative,
    // A time item is none of the forms.
    TimeItem,
    // No option has the name before `=` on this kind of line.
    OptionName,
    // The value is none that the option takes.
    OptionValue,
    // The pattern kind is not `shell`.
    PatternKind,
    // An entry stands before `patterns=shell`.
    EntryTooEarly,
    // No line begins with this colon word.
    ColonWord,
    // The name of a variable is malformed or built in.
    DefineName,
    // The operator is neither `==` nor `!=`.
    Operator,
    // `::` stands behind the pairs.
    LatePair,
    // The path does not begin with `/`, or has a blank.
    Path,
    // A field stands behind the last one that the line takes.
    SurplusField,
    // A part of the line is missing.
    MissingPart,
    // The same option stands twice.
    OptionTwice,
    // There are too many variables.
    TooManyNames,
}

impl Cause {
    // Where it stands in the order above; the first is 0.
    pub fn index(self) -> usize
        ensures { IndexOf self result }
    {
        self as usize
    }

    // The number of the refusal.
    #[tactic(auto, unfolding(crate::specs::Fault::number_of))]
    pub fn number(self) -> u8
        ensures { result ≡ number_of self }
    {
        match self {
            Cause::Indent
            | Cause::OpenQuote
            | Cause::Variable
            | Cause::Pattern
            | Cause::Alternative
            | Cause::TimeItem
            | Cause::OptionName
            | Cause::OptionValue
            | Cause::ColonWord
            | Cause::DefineName
            | Cause::Operator
            | Cause::LatePair
            | Cause::Path
            | Cause::SurplusField
            | Cause::MissingPart
            | Cause::OptionTwice => 14,
            Cause::LineLength
            | Cause::FieldCount
            | Cause::FieldLength
            | Cause::PatternSize
            | Cause::NameLength
            | Cause::TextLength
            | Cause::IdLength
            | Cause::IfDepth => 15,
            Cause::PatternKind | Cause::EntryTooEarly => 16,
            Cause::TooManyNames => 18,
        }
    }
}
