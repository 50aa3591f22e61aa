// An entry, field by field: what is kept of its fields is by value, and small.
ghost use Rattle.std.specs.Prelude.{◌≡◌, Bool, true, List, ℕ, ◌+◌, ◌≤◌, length, None, Some, Ok};
ghost use Rattle.options.specs.Contract.{setting_in};
ghost use Rattle.question.specs.Contract.{strings_in};
ghost use Rattle.condition.specs.Condition.{Judge, judge_of};
ghost use Rattle.entry.specs.Field.{Entry as Held, Position as Stand, first, no_field, command_of, option_or, other_of};
ghost use Rattle.entry.specs.Entry.{completed};
ghost use Rattle.entry.specs.Contract.{paired_with, waiting_with, rest_with, NoOther, Keeps, Holds, Adds, limited_field, AddsField, AddsPath, AddsPair, AddsPathAlone, AddsRest, outcome_of, Accepting};

use super::pair::{is_full_path, read_command};
use super::position::{FieldKind, Position};
use condition::condition::{ConditionRead, read_condition};
use condition::rightmost::Rightmost;
use fault::Cause;
use options::line::LineOptions;
use options::read::read_option;
use options::setting::OptionSetting;
use pattern::Pattern;
use question::WeekMinute;
use text::slice::find_pair;

// Where a path stands: in the text of the field with this number, from this byte on.
#[derive(Clone, Copy)]
pub struct PathPlace {
    pub field: usize,
    pub at: usize,
}

// What is kept of the fields so far.
#[derive(Clone, Copy)]
pub struct Entry {
    position: Position,
    // Whether the command pattern that waits for its path matches.
    waiting: bool,
    // Whether there is a pair.
    paired: bool,
    // The path of the leftmost pair that matches.
    path: Option<PathPlace>,
    users: Rightmost,
    times: Rightmost,
    options: LineOptions,
}

impl Entry {
    // Before the first field.
    pub fn new() -> Self
        ensures { (judging : Bool) (command : List ℕ) (text : ℕ → List ℕ) → Holds judging command text result first no_field }
    {
        Entry {
            position: Position::First,
            waiting: false,
            paired: false,
            path: None,
            users: Rightmost::new(),
            times: Rightmost::new(),
            options: LineOptions::new(),
        }
    }

    // With one more pair, and the place of its path if it matches.
    fn with_pair(self, path: Option<PathPlace>, next: Position) -> Self
        ensures { result ≡ paired_with self path next }
    {
        Entry {
            position: next,
            waiting: false,
            paired: true,
            path: self.path.or(path),
            ..self
        }
    }

    // Behind a command pattern that waits for its path.
    fn with_command(self, matches: bool) -> Self
        ensures { result ≡ waiting_with self matches }
    {
        Entry {
            position: Position::Second,
            waiting: matches,
            ..self
        }
    }

    // Behind a field of the rest.
    fn with_rest(self, users: Rightmost, times: Rightmost, options: LineOptions) -> Self
        ensures { result ≡ rest_with self users times options }
    {
        Entry {
            position: Position::Rest,
            users,
            times,
            options,
            ..self
        }
    }

    // A path that stands in a field's text from a byte on.
    fn add_full_path(
        self,
        matches: bool,
        index: usize,
        text: &[u8],
        at: usize,
        next: Position,
    ) -> Result<Entry, Cause>
        requires { at ≤ length text.now }
        ensures { AddsPath self matches index text.now at next result }
    {
        if !is_full_path(&text[at..]) {
            return Err(Cause::Path);
        }
        let path = matches.then_some(PathPlace { field: index, at });
        Ok(self.with_pair(path, next))
    }

    // A field with its first `::` at a byte.
    fn add_pair(
        self,
        index: usize,
        text: &[u8],
        at: usize,
        judging: bool,
        command: &[u8],
    ) -> Result<Entry, Cause>
        requires { (length text.now ≤ 1024) × (at + 2 ≤ length text.now) }
        ensures { AddsPair judging command.now index text.now at self result }
    {
        let matches = read_command(&text[..at], judging, command)?;
        self.add_full_path(matches, index, text, at + 2, Position::Pairs)
    }

    // A command pattern alone.
    fn add_command(self, text: &[u8], judging: bool, command: &[u8]) -> Result<Entry, Cause>
        requires { length text.now ≤ 1024 }
        ensures { (t : ℕ → List ℕ) (e : Held) → Keeps judging command.now t self e → NoOther e → Adds judging command.now t e (command_of text.now) result }
    {
        let matches = read_command(text, judging, command)?;
        Ok(self.with_command(matches))
    }

    // The path behind a command pattern alone.
    fn add_path(self, index: usize, text: &[u8]) -> Result<Entry, Cause>
        ensures { AddsPathAlone index text.now self result }
    {
        if find_pair(text, b':', b':').is_some() {
            return Err(Cause::LatePair);
        }
        self.add_full_path(self.waiting, index, text, 0, Position::Rest)
    }

    // A condition.
    fn add_condition(
        self,
        text: &[u8],
        user: &[u8],
        groups: &[u8],
        host: &[u8],
        minute: WeekMinute,
    ) -> Result<Entry, Cause>
        requires { length text.now ≤ 1024 }
        ensures { AddsRest (option_or (judge_of user.now (strings_in groups.now) host.now minute.0) text.now None) self result }
    {
        let judging = self.path.is_some();
        let read = read_condition(
            text, judging, user, groups, host, minute, self.users, self.times,
        )?;
        Ok(match read {
            ConditionRead::Users(kept) => self.with_rest(kept, self.times, self.options),
            ConditionRead::Times(kept) => self.with_rest(self.users, kept, self.options),
        })
    }

    // An option that was read.
    fn add_option(self, text: &[u8], setting: OptionSetting) -> Result<Entry, Cause>
        ensures { (judge : Judge) (v : List ℕ) → AddsRest (option_or judge text.now (Some (Ok (setting_in v setting)))) self result }
    {
        if find_pair(text, b':', b':').is_some() {
            return Err(Cause::LatePair);
        }
        Ok(self.with_rest(self.users, self.times, self.options.add(setting)))
    }

    // An option or a condition.
    fn add_other(
        self,
        minute: WeekMinute,
        text: &[u8],
        user: &[u8],
        groups: &[u8],
        host: &[u8],
    ) -> Result<Entry, Cause>
        requires { length text.now ≤ 1024 }
        ensures { AddsRest (other_of (judge_of user.now (strings_in groups.now) host.now minute.0) text.now) self result }
    {
        match read_option(text, false)? {
            Some(setting) => self.add_option(text, setting),
            None => self.add_condition(text, user, groups, host, minute),
        }
    }

    // The next field, by its number and its text; the command is matched only where something is judged.
    pub fn add(
        self,
        index: usize,
        text: &[u8],
        judging: bool,
        command: &[u8],
        user: &[u8],
        groups: &[u8],
        host: &[u8],
        minute: WeekMinute,
    ) -> Result<Entry, Cause>
        ensures { AddsField judging command.now index text.now
            (limited_field (judge_of user.now (strings_in groups.now) host.now minute.0) text.now)
            self result }
    {
        if text.len() > Pattern::BYTES {
            return Err(Cause::FieldLength);
        }
        match self.position.kind(text) {
            FieldKind::Pair(at) => self.add_pair(index, text, at, judging, command),
            FieldKind::Command => self.add_command(text, judging, command),
            FieldKind::Path => self.add_path(index, text),
            FieldKind::Other => self.add_other(minute, text, user, groups, host),
        }
    }

    // What concerns the whole entry: a part missing, then an option twice.
    pub fn finish(self) -> Result<(), Cause>
        ensures { (j : Bool) (c : List ℕ) (t : ℕ → List ℕ) (p : Stand) (e : Held) → Holds j c t self p e → result ≡ outcome_of (completed e) }
    {
        if !self.paired || !self.users.some {
            return Err(Cause::MissingPart);
        }
        if self.options.twice() {
            return Err(Cause::OptionTwice);
        }
        Ok(())
    }

    // The place of its path, if the command, the users and the times all accept.
    pub fn accepts(self, user: &[u8]) -> Option<PathPlace>
        ensures { (c : List ℕ) (t : ℕ → List ℕ) (p : Stand) (e : Held) → Holds true c t self p e → Accepting c user.now t e result }
    {
        let path = self.path?;
        if !self.users.says(user == b"root".as_slice()) || !self.times.times_accept() {
            return None;
        }
        Some(path)
    }
}
