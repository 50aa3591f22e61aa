// Eight bytes for each decision: what is stored, how a record is written, and how it is read.
#![tactic(auto)]

ghost use Rattle.std.specs.Prelude.{◌≡◌};
ghost use Rattle.record.specs.declared.Unrecorded.TheVariants.{Writer};
ghost use Rattle.record.specs.Contract.{bytes_written};
ghost use Rattle.record.specs.Fault.{fault_number};

use question::{Age, WeekMinute};

pub mod age; // the sign and the size of an age
pub mod decision; // from the call's answer to a record
mod layout; // the fields in 64 bits
pub mod read; // from eight bytes to the fields
mod stored; // what is kept of what the writer is given
pub mod write; // from the fields to eight bytes

// The stored fields of a record.
#[derive(Clone, Copy)]
pub struct Fields {
    // The answer's number.
    pub number: u8,
    // The deciding line, 0 where there is none.
    pub line: u16,
    pub minute: WeekMinute,
    // The effective auth.
    pub auth: bool,
    pub age: Option<Age>,
}

// Eight bytes for one decision.
#[derive(Drop)]
pub struct Record;

impl Record {
    // The bytes of one.
    pub const BYTES: usize = 8;

    // The version that is written, and the only one that is read.
    pub const VERSION: u64 = 1;

    // The largest size of an age that is stored.
    pub const AGE_SIZE: u64 = 16777215;
}

// Why bytes are refused as a record, or fields as one's; a refusal shows and writes nothing.
#[derive(Clone, Copy, PartialEq, Eq)]
pub enum RecordFault {
    OtherVersion,
    UnknownNumber,
    BadMinute,
    WrongLength,
}

impl RecordFault {
    // The refusal's number.
    pub fn number(self) -> u8
        ensures { result ≡ fault_number self }
    {
        match self {
            RecordFault::OtherVersion => 1,
            RecordFault::UnknownNumber => 2,
            RecordFault::BadMinute => 3,
            RecordFault::WrongLength => 4,
        }
    }
}

// Why no record is made of an answer of the call; nothing was written.
#[derive(Clone, Copy, PartialEq, Eq)]
pub enum Unrecorded {
    // The writer refuses it.
    Writer(RecordFault),
    // The line does not fit 16 bits.
    LongLine,
}

impl From<RecordFault> for Unrecorded {
    ghost from_gives = { λ fault r. r ≡ Writer fault };

    fn from(fault: RecordFault) -> Unrecorded {
        Unrecorded::Writer(fault)
    }
}

// How many bytes were written: all eight, or none.
#[tactic(auto, using(crate::proofs::AppendLaws::bytes_by))]
pub fn bytes_recorded(recorded: Result<(), Unrecorded>) -> usize
    ensures { result ≡ bytes_written recorded }
{
    if recorded.is_ok() { Record::BYTES } else { 0 }
}
