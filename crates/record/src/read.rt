// From eight bytes to the fields.
ghost use Rattle.std.specs.Prelude.{◌≡◌, ◌<◌};
ghost use Rattle.record.specs.Layout.{age_from};
ghost use Rattle.record.specs.Read.{record_in};

use super::layout::{Unit, Values};
use super::stored::is_known;
use super::{Fields, Record, RecordFault};
use question::{Age, WeekMinute};

// The age of a sign and a size.
#[tactic(auto, using(std::proofs::lemmas::Int::to_z_pos), unfolding(crate::specs::Layout::age_from))]
fn age_from(below: bool, size: u64) -> Option<Age>
    requires { size < 16777216 }
    ensures { result ≡ age_from below size }
{
    let minutes = size as i32;
    if !below {
        return Some(Age(minutes));
    }
    if minutes == 0 {
        None
    } else {
        Some(Age(-minutes))
    }
}

// The stored fields of a record, or why it is refused.
#[tactic(auto, using(std::proofs::lemmas::Bool::Decides::nat_tests), unfolding(crate::specs::Read::record_in, crate::specs::Read::read_bits, crate::specs::Layout::unpacked_bits, crate::specs::Layout::fields_of, crate::specs::Layout::number_from))]
pub fn read_record(bytes: &[u8]) -> Result<Fields, RecordFault>
    ensures { result ≡ record_in bytes.now }
{
    let Ok(eight) = <[u8; Record::BYTES]>::try_from(bytes) else {
        return Err(RecordFault::WrongLength);
    };
    let n = u64::from_be_bytes(eight);
    if n / Unit::VERSION % Values::VERSION != Record::VERSION {
        return Err(RecordFault::OtherVersion);
    }
    let number = (n / Unit::NUMBER % Values::NUMBER) as u8;
    if !is_known(number) {
        return Err(RecordFault::UnknownNumber);
    }
    let minute = (n / Unit::MINUTE % Values::MINUTE) as u16;
    if minute >= WeekMinute::LIMIT {
        return Err(RecordFault::BadMinute);
    }
    Ok(Fields {
        number,
        line: (n / Unit::LINE % Values::LINE) as u16,
        minute: WeekMinute(minute),
        auth: n / Unit::AUTH % 2 == 1,
        age: age_from(n / Unit::BELOW % 2 == 1, n % Values::SIZE),
    })
}
