// The printed line of a record, with its newline.
ghost use Rattle.text.specs.Contract.{Wrote};
ghost use Rattle.output.specs.Contract.{WroteAfter};
ghost use Rattle.record.specs.Read.{record_in};
ghost use Rattle.log_text.specs.Printed.{minutes_text, age_text, auth_text, fields_text, refused_text, record_text};

use output::behind::{then_all, then_decimal};
use output::decimal::put_decimal;
use question::Age;
use record::Fields;
use record::age::magnitude;
use record::read::read_record;
use text::buffer::put_all;

// Minutes behind what was put before, `-` before them where they are below zero.
#[tactic(auto, unfolding(crate::specs::Printed::minutes_text))]
fn then_minutes(filled: Option<usize>, minutes: i32, out: &mut [u8]) -> Option<usize>
    ensures { WroteAfter filled out.old out.new (minutes_text minutes) result }
{
    if minutes < 0 {
        let sign = then_all(filled, b"-", out);
        return then_decimal(sign, magnitude(minutes) as usize, out);
    }
    then_decimal(filled, magnitude(minutes) as usize, out)
}

// An age behind what was put before.
#[tactic(auto, unfolding(crate::specs::Printed::age_text))]
fn then_age(filled: Option<usize>, age: Option<Age>, out: &mut [u8]) -> Option<usize>
    ensures { WroteAfter filled out.old out.new (age_text age) result }
{
    match age {
        None => then_all(filled, b"never", out),
        Some(minutes) => then_minutes(filled, minutes.0, out),
    }
}

// The auth behind what was put before.
#[tactic(auto, unfolding(crate::specs::Printed::auth_text))]
fn then_auth(filled: Option<usize>, auth: bool, out: &mut [u8]) -> Option<usize>
    ensures { WroteAfter filled out.old out.new (auth_text auth) result }
{
    if auth {
        return then_all(filled, b"1", out);
    }
    then_all(filled, b"0", out)
}

// The line of stored fields, from a place of the buffer on.
fn put_fields(fields: Fields, out: &mut [u8], n: usize) -> Option<usize>
    ensures { Wrote out.old out.new n (fields_text fields) result }
{
    let minute = fields.minute;
    let age = fields.age;
    let number = then_all(put_decimal(out, n, fields.number as usize), b" ", out);
    let line = then_all(then_decimal(number, fields.line as usize, out), b" ", out);
    let minutes = then_all(then_decimal(line, minute.0 as usize, out), b" ", out);
    let auth = then_all(then_auth(minutes, fields.auth, out), b" ", out);
    then_all(then_age(auth, age, out), b"\n", out)
}

// The line of a record that is refused, from a place of the buffer on.
#[tactic(auto, unfolding(crate::specs::Printed::refused_text))]
fn put_refused(number: u8, out: &mut [u8], n: usize) -> Option<usize>
    ensures { Wrote out.old out.new n (refused_text number) result }
{
    let numbered = then_decimal(put_all(out, n, b"refused "), number as usize, out);
    then_all(numbered, b"\n", out)
}

// The line of these bytes as a record, from a place of the buffer on.
pub fn put_record(bytes: &[u8], out: &mut [u8], n: usize) -> Option<usize>
    ensures { Wrote out.old out.new n (record_text (record_in bytes.now)) result }
{
    match read_record(bytes) {
        Ok(fields) => put_fields(fields, out, n),
        Err(fault) => put_refused(fault.number(), out, n),
    }
}
