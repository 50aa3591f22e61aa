// Where a field stands, and what it is there.
ghost use Rattle.std.specs.Prelude.{◌≡◌};
ghost use Rattle.text.specs.Bytes.{byte};
ghost use Rattle.text.specs.Slice.{find_pair};
ghost use Rattle.entry.specs.Contract.{kind_by, behind, is_other};

use text::slice::find_pair;

// Where a field stands.
#[derive(Clone, Copy, PartialEq, Eq)]
pub enum Position {
    First,
    // Behind CmdPat.
    Second,
    // Behind pairs only.
    Pairs,
    // Behind the path, or a field that is no pair.
    Rest,
}

// What a field is.
#[derive(Clone, Copy, PartialEq, Eq)]
pub enum FieldKind {
    // A pair with its first `::` at this byte.
    Pair(usize),
    // CmdPat.
    Command,
    // The path behind CmdPat.
    Path,
    // An option or a condition.
    Other,
}

impl Position {
    // What a field with this text is.
    pub fn kind(self, text: &[u8]) -> FieldKind
        ensures { result ≡ kind_by self (find_pair (byte ":") (byte ":") 0 text.now) }
    {
        match self {
            Position::First => match find_pair(text, b':', b':') {
                Some(i) => FieldKind::Pair(i),
                None => FieldKind::Command,
            },
            Position::Second => FieldKind::Path,
            Position::Pairs => match find_pair(text, b':', b':') {
                Some(i) => FieldKind::Pair(i),
                None => FieldKind::Other,
            },
            Position::Rest => FieldKind::Other,
        }
    }
}

impl FieldKind {
    // Where the next field stands.
    pub fn next(self) -> Position
        ensures { result ≡ behind self }
    {
        match self {
            FieldKind::Pair(_) => Position::Pairs,
            FieldKind::Command => Position::Second,
            FieldKind::Path => Position::Rest,
            FieldKind::Other => Position::Rest,
        }
    }

    // Whether it is an option or a condition.
    pub fn is_other(self) -> bool
        ensures { result ≡ is_other self }
    {
        matches!(self, FieldKind::Other)
    }
}
