// The report: 24 numbers beside the number of the answer.
ghost use Rattle.std.specs.Prelude.{◌≤◌, ◌≡◌, ◌++◌, length, drop};
ghost use Rattle.supertab_c.specs.Report.{report_length, counted, zero_place, bit, timeout_set, timeout_minutes, nargs_set, nargs_low, nargs_high, cause_index, grant_numbers, place_numbers, report_of};

use answer::{Answer, Granted};
use fault::Cause;
use line::whole::WholeText;
use options::span::Span;

#[derive(Drop)]
pub struct Report;

impl Report {
    // The numbers that are written.
    pub const LENGTH: usize = 24;

    // The result where a report has fewer.
    pub const SHORT: u8 = 255;

    // The index of each number that means something.
    pub const LINE_OR_PLACE: usize = 0;

    pub const WRITTEN: usize = 1;

    pub const AUTH: usize = 2;

    pub const TIMEOUT_SET: usize = 3;

    pub const TIMEOUT: usize = 4;

    pub const NARGS_SET: usize = 5;

    pub const NARGS_LOW: usize = 6;

    pub const NARGS_HIGH: usize = 7;

    pub const PATH_END: usize = 8;

    pub const UID_END: usize = 9;

    pub const EUID_END: usize = 10;

    pub const GID_END: usize = 11;

    pub const EGID_END: usize = 12;

    pub const CAUSE: usize = 21;
}

// A count as a number of the report. None that the call tells is above the most that an i64 takes.
#[tactic(auto, unfolding(crate::specs::Report::counted))]
pub fn counted_as(n: usize) -> i64
    ensures { result ≡ counted n }
{
    i64::try_from(n).unwrap_or(i64::MAX)
}

// Where the zero byte of a string stands, by the string's end just after it.
#[tactic(auto, unfolding(crate::specs::Report::zero_place))]
fn zero_before(end: usize) -> i64
    ensures { result ≡ zero_place end }
{
    counted_as(end.saturating_sub(1))
}

#[tactic(auto, unfolding(crate::specs::Report::bit))]
pub fn as_bit(on: bool) -> i64
    ensures { result ≡ bit on }
{
    i64::from(on)
}

#[tactic(auto, unfolding(crate::specs::Report::timeout_minutes))]
fn minutes_of(timeout: Option<i32>) -> i64
    ensures { result ≡ timeout_minutes timeout }
{
    match timeout {
        Some(minutes) => i64::from(minutes),
        None => 0,
    }
}

#[tactic(auto, unfolding(crate::specs::Report::nargs_low))]
fn low_of(nargs: Option<Span>) -> i64
    ensures { result ≡ nargs_low nargs }
{
    match nargs {
        Some(span) => counted_as(span.low),
        None => 0,
    }
}

#[tactic(auto, unfolding(crate::specs::Report::nargs_high))]
fn high_of(nargs: Option<Span>) -> i64
    ensures { result ≡ nargs_high nargs }
{
    match nargs {
        Some(span) => counted_as(span.high),
        None => 0,
    }
}

// The causes are counted from 1 in their order.
fn index_of(cause: Cause) -> i64
    ensures { result ≡ cause_index cause }
{
    counted_as(cause.index() + 1)
}

// The numbers of a permit.
#[tactic(auto, unfolding(crate::specs::Report::grant_numbers, crate::specs::Report::timeout_set, crate::specs::Report::nargs_set, crate::specs::Report::bit))]
fn of_grant(g: Granted) -> [i64; Report::LENGTH]
    ensures { result ≡ grant_numbers g }
{
    let timeout = g.timeout;
    let nargs = g.nargs;
    let mut numbers = [0i64; Report::LENGTH];
    numbers[Report::LINE_OR_PLACE] = counted_as(g.line);
    numbers[Report::WRITTEN] = counted_as(g.egid);
    numbers[Report::AUTH] = as_bit(g.auth);
    numbers[Report::TIMEOUT_SET] = as_bit(timeout.is_some());
    numbers[Report::TIMEOUT] = minutes_of(timeout);
    numbers[Report::NARGS_SET] = as_bit(nargs.is_some());
    numbers[Report::NARGS_LOW] = low_of(nargs);
    numbers[Report::NARGS_HIGH] = high_of(nargs);
    numbers[Report::PATH_END] = zero_before(g.path);
    numbers[Report::UID_END] = zero_before(g.uid);
    numbers[Report::EUID_END] = zero_before(g.euid);
    numbers[Report::GID_END] = zero_before(g.gid);
    numbers[Report::EGID_END] = zero_before(g.egid);
    numbers
}

// The numbers of an answer that tells a line or a place, and a cause, which is 0 where there is none.
#[tactic(auto, unfolding(crate::specs::Report::place_numbers))]
fn of_place(place: usize, cause: i64) -> [i64; Report::LENGTH]
    ensures { result ≡ place_numbers place cause }
{
    let mut numbers = [0i64; Report::LENGTH];
    numbers[Report::LINE_OR_PLACE] = counted_as(place);
    numbers[Report::CAUSE] = cause;
    numbers
}

#[tactic(auto, unfolding(crate::specs::Report::report_of))]
pub fn numbers_of(answer: Answer) -> [i64; Report::LENGTH]
    ensures { result ≡ report_of answer }
{
    match answer {
        Answer::Permit(g) => of_grant(g),
        Answer::Password(g) => of_grant(g),
        Answer::NoEntry => of_place(0, 0),
        Answer::StoppedByNargs(line) => of_place(line, 0),
        Answer::StoppedByArgument(line) => of_place(line, 0),
        Answer::StoppedByPath(line) => of_place(line, 0),
        Answer::MalformedQuestion => of_place(0, 0),
        Answer::LongTable => of_place(WholeText::BYTES, 0),
        Answer::RefusedByte(place) => of_place(place, 0),
        Answer::CutShort(place) => of_place(place, 0),
        Answer::RefusedLine(cause, place) => of_place(place, index_of(cause)),
        Answer::SmallBuffer => of_place(0, 0),
    }
}

// The numbers at the front of the lent report; its later numbers stay.
pub fn put_numbers(numbers: [i64; Report::LENGTH], report: &mut [i64])
    requires { report_length ≤ length report.old }
    ensures { report.new ≡ numbers ++ drop report_length report.old }
{
    report[..Report::LENGTH].copy_from_slice(&numbers);
}
