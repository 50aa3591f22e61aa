// What a question line asks.
ghost use Rattle.std.specs.Prelude.{◌+◌, ◌-◌, ◌≤◌, ◌<◌, ◌≡◌, length, drop};
ghost use mathlib.Core.List.{flat_map};
ghost use Rattle.text.specs.Lists.{split_at};
ghost use Rattle.text.specs.Contract.{lead, Wrote};
ghost use Rattle.answer.specs.Meaning.{ended};
ghost use Rattle.console.specs.QuestionLine.{line_limit, number_in, minute_in, age_in, groups_in, arguments_in, asked_from, asked_in};
ghost use Rattle.console.specs.Contract.{age_held, capped_at, magnitude_limit, EndsOf, arguments_behind, Reads};

use question::{Age, WeekMinute};
use text::buffer::put;
use text::class::is_digit;
use text::slice::byte_from;

// A number in decimal digits.
#[derive(Drop)]
pub struct Magnitude;

impl Magnitude {
    // The most that is told, which is no age on either side of zero; a number that is greater is told as this one.
    const LIMIT: u64 = 2147483649;
}

// One or more digits.
fn read_magnitude(s: &[u8]) -> Option<u64>
    ensures { result ≡ capped_at magnitude_limit (number_in s.now) }
{
    if s.is_empty() {
        return None;
    }
    let mut v = 0;
    for &b in s {
        if !is_digit(b) {
            return None;
        }
        v = (v * 10 + u64::from(b - b'0')).min(Magnitude::LIMIT);
    }
    Some(v)
}

// MINUTE: one or more digits.
fn read_minute(s: &[u8]) -> Option<WeekMinute>
    ensures { result ≡ minute_in s.now }
{
    let v = read_magnitude(s)?;
    if v >= WeekMinute::LIMIT as u64 {
        return None;
    }
    Some(WeekMinute(v as u16))
}

// So many minutes as an age, if 32 bits hold them.
fn age_of(minutes: i64) -> Option<Option<Age>>
    ensures { result ≡ age_held minutes }
{
    Some(Some(Age(i32::try_from(minutes).ok()?)))
}

// AGE: `-` for never, or digits after an optional `-`.
fn read_age(s: &[u8]) -> Option<Option<Age>>
    ensures { result ≡ age_in s.now }
{
    if s == b"-".as_slice() {
        return Some(None);
    }
    match s.strip_prefix(b"-") {
        Some(digits) => age_of(-(read_magnitude(digits)? as i64)),
        None => age_of(read_magnitude(s)? as i64),
    }
}

// The parts between the bytes c, each ended by a zero byte, from a place of the buffer on.
fn put_parts(s: &[u8], c: u8, out: &mut [u8], n: usize) -> Option<usize>
    ensures { Wrote out.old out.new n (flat_map ended (split_at c s.now)) result }
{
    let mut m = n;
    for &b in s {
        let byte = if b == c { 0 } else { b };
        m = put(out, m, byte)?;
    }
    put(out, m, 0)
}

// GROUPS at the buffer's beginning: none for `-`, else the names between commas.
pub fn put_groups(s: &[u8], out: &mut [u8]) -> Option<usize>
    ensures { Wrote out.old out.new 0 (groups_in s.now) result }
{
    if s == b"-".as_slice() {
        return Some(0);
    }
    put_parts(s, b',', out, 0)
}

// The arguments, which begin behind the space at `end`; none where the line ends there.
fn put_arguments(line: &[u8], end: usize, out: &mut [u8], n: usize) -> Option<usize>
    requires { n ≤ length out.old }
    ensures { Wrote out.old out.new n (arguments_in (arguments_behind end line.now)) result }
{
    if end < line.len() {
        return put_parts(&line[end + 1..], b' ', out, n);
    }
    Some(n)
}

// Ends of the first six pieces of a line; where there are fewer, the ends behind the last lie past the line's end.
#[derive(Drop)]
struct Ends {
    command: usize,
    user: usize,
    groups: usize,
    host: usize,
    minute: usize,
    age: usize,
}

// Where the piece that begins at a place ends: at a space, or at the line's end.
pub fn piece_end(line: &[u8], from: usize) -> usize
    ensures { (result ≡ from + lead 32 (drop from line.now)) × (from ≤ result) × (result ≤ from + (length line.now - from)) }
{
    byte_from(line, from, b' ')
}

// Where the first six pieces of a line end.
fn piece_ends(line: &[u8]) -> Ends
    requires { length line.now ≤ line_limit }
    ensures { EndsOf line.now result }
{
    let command = piece_end(line, 0);
    let user = piece_end(line, command + 1);
    let groups = piece_end(line, user + 1);
    let host = piece_end(line, groups + 1);
    let minute = piece_end(line, host + 1);
    let age = piece_end(line, minute + 1);
    Ends {
        command,
        user,
        groups,
        host,
        minute,
        age,
    }
}

// What a line asks: where its pieces are.
#[derive(Drop)]
pub struct Pieces {
    // Where COMMAND, USER, GROUPS and HOST end in the line; each but the first begins behind the space before it.
    pub command: usize,
    pub user: usize,
    pub list: usize,
    pub host: usize,
    pub minute: WeekMinute,
    pub last: Option<Age>,
    // Where the groups and then the arguments end in the scratch, as zero-ended strings.
    pub groups: usize,
    pub args: usize,
}

#[derive(Drop)]
pub struct QuestionLine;

impl QuestionLine {
    // The most bytes of one.
    pub const BYTES: usize = 32768;
}

// The pieces of a line that has at least six.
fn read_pieces(line: &[u8], ends: Ends, scratch: &mut [u8]) -> Option<Pieces>
    requires { (length line.now ≤ line_limit) × (length scratch.old ≡ line_limit) × EndsOf line.now ends × (ends.minute < length line.now) }
    ensures { Reads line.now (asked_from (split_at 32 line.now)) scratch.new result }
{
    let command = ends.command;
    let user = ends.user;
    let list = ends.groups;
    let host = ends.host;
    let minute_end = ends.minute;
    let age_end = ends.age;
    let minute = read_minute(&line[host + 1..minute_end])?;
    let last = read_age(&line[minute_end + 1..age_end])?;
    let groups = put_groups(&line[user + 1..list], scratch)?;
    let args = put_arguments(line, age_end, scratch, groups)?;
    Some(Pieces {
        command,
        user,
        list,
        host,
        minute,
        last,
        groups,
        args,
    })
}

// What a line, without its newline, asks. The groups and the arguments are put into the scratch.
pub fn read_question_line(line: &[u8], scratch: &mut [u8; QuestionLine::BYTES]) -> Option<Pieces>
    ensures { Reads line.now (asked_in line.now) scratch.new result }
{
    if line.len() > QuestionLine::BYTES || line.contains(&0) {
        return None;
    }
    let ends = piece_ends(line);
    if ends.minute >= line.len() {
        return None;
    }
    read_pieces(line, ends, scratch)
}
