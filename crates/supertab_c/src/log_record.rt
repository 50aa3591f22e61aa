// The calls for C on log records. Their prototypes and their meaning for a user stand in include/supertab.h.
ghost use Rattle.std.specs.Prelude.{◌≤◌, ◌≡◌, ◌++◌, length, drop};
ghost use Rattle.supertab_c.specs.Record.{fields_length, authenticated_of, age_of, field_numbers, given_by, wrote_record, write_call, read_numbers, read_call};

use super::asked::{last_of, minute_of};
use super::report::{Report, as_bit};
use question::Age;
use record::Fields;
use record::read::read_record;
use record::write::write_record;

// The numbers that tell the fields of a record.
#[derive(Drop)]
pub struct FieldNumbers;

impl FieldNumbers {
    // How many are written.
    pub const LENGTH: usize = 6;

    // The index of each.
    pub const NUMBER: usize = 0;

    pub const LINE: usize = 1;

    pub const MINUTE: usize = 2;

    pub const AUTH: usize = 3;

    pub const AUTHENTICATED: usize = 4;

    pub const AGE: usize = 5;
}

// Whether the user had given the password at all.
#[tactic(auto, unfolding(crate::specs::Record::authenticated_of, crate::specs::Report::bit))]
fn is_authenticated(age: Option<Age>) -> i64
    ensures { result ≡ authenticated_of age }
{
    as_bit(age.is_some())
}

// How many minutes ago; 0 where it never was.
#[tactic(auto, unfolding(crate::specs::Record::age_of))]
fn minutes_since(age: Option<Age>) -> i64
    ensures { result ≡ age_of age }
{
    match age {
        Some(minutes) => i64::from(minutes.0),
        None => 0,
    }
}

// The numbers of stored fields at the front of those lent; later ones stay.
#[tactic(auto, unfolding(crate::specs::Record::field_numbers))]
fn put_fields(stored: Fields, fields: &mut [i64])
    requires { fields_length ≤ length fields.old }
    ensures { fields.new ≡ field_numbers stored ++ drop fields_length fields.old }
{
    let minute = stored.minute;
    let age = stored.age;
    fields[FieldNumbers::NUMBER] = i64::from(stored.number);
    fields[FieldNumbers::LINE] = i64::from(stored.line);
    fields[FieldNumbers::MINUTE] = i64::from(minute.0);
    fields[FieldNumbers::AUTH] = as_bit(stored.auth);
    fields[FieldNumbers::AUTHENTICATED] = is_authenticated(age);
    fields[FieldNumbers::AGE] = minutes_since(age);
}

// Packs an answer into the eight bytes of a record: the result is 0 or the number of the refusal.
#[unsafe(no_mangle)]
pub extern "C" fn supertab_record_write(
    number: u8,
    line: u16,
    minute: u32,
    auth: bool,
    authenticated: bool,
    age: i32,
    out: &mut [u8],
) -> u8
    ensures { wrote_record result out.new ≡ write_call (given_by number line minute auth authenticated age) out.old }
{
    let week_minute = minute_of(minute);
    let last = last_of(authenticated, age);
    match write_record(number, line, week_minute, auth, last, out) {
        Ok(()) => 0,
        Err(fault) => fault.number(),
    }
}

// Reads a record: the result is 0 or the number of the refusal; the fields are told by 0 alone.
#[tactic(auto, unfolding(crate::specs::Record::read_call, crate::specs::Record::tells_record, record::specs::Read::record_told))]
#[unsafe(no_mangle)]
pub extern "C" fn supertab_record_read(bytes: &[u8], fields: &mut [i64]) -> u8
    ensures { read_numbers result fields.new ≡ read_call bytes.now fields.old }
{
    if fields.len() < FieldNumbers::LENGTH {
        return Report::SHORT;
    }
    match read_record(bytes) {
        Ok(stored) => {
            put_fields(stored, fields);
            0
        }
        Err(fault) => fault.number(),
    }
}
