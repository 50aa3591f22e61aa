// The fields in 64 bits, most significant first.
ghost use Rattle.std.specs.Prelude.{◌≡◌, ◌<◌};
ghost use Rattle.record.specs.Layout.{packed_bits};

use super::Record;

// How many values each field's bits hold.
#[derive(Drop)]
pub struct Values;

impl Values {
    pub const VERSION: u64 = 8;

    pub const NUMBER: u64 = 32;

    pub const LINE: u64 = 65536;

    pub const MINUTE: u64 = 16384;

    pub const SIZE: u64 = 16777216;
}

// What the lowest bit of each field counts.
#[derive(Drop)]
pub struct Unit;

impl Unit {
    pub const VERSION: u64 = Unit::NUMBER * Values::NUMBER;

    pub const NUMBER: u64 = Unit::LINE * Values::LINE;

    pub const LINE: u64 = Unit::MINUTE * Values::MINUTE;

    pub const MINUTE: u64 = Unit::AUTH * 2;

    pub const AUTH: u64 = Unit::BELOW * 2;

    pub const BELOW: u64 = Values::SIZE;
}

// The record's number: each field behind those before it.
#[tactic(auto, unfolding(crate::specs::Layout::packed_bits))]
pub fn packed(number: u8, line: u16, minute: u16, auth: bool, below: bool, size: u64) -> u64
    requires { (number < 32) × (minute < 16384) × (size < 16777216) }
    ensures { result ≡ packed_bits (record { version = 1; number = number; line = line; minute = minute; auth = auth; below = below; size = size }) }
{
    let head = (Record::VERSION * Values::NUMBER + number as u64) * Values::LINE + line as u64;
    let week = head * Values::MINUTE + minute as u64;
    let signs = (week * 2 + u64::from(auth)) * 2 + u64::from(below);
    signs * Values::SIZE + size
}
