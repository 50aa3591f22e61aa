// Whether the bytes of a file make it a log, block by block.
ghost use Rattle.std.specs.List.{list_all};
ghost use Rattle.std.specs.Prelude.{◌≡◌, []};
ghost use Rattle.line.specs.Refused.{accepted};
ghost use Rattle.figures.specs.Figures.{records_of};
ghost use Rattle.record_log.specs.Recognised.{is_record, seen_in, kind_seen};
ghost use Rattle.record_log.specs.Contract.{Looks};

use line::refused::refused_byte;
use record::Record;
use record::read::read_record;

// What the bytes of a file make of it.
#[derive(Clone, Copy)]
pub enum Kind {
    // Whole records, or nothing at all: more can be appended.
    Log,
    // Every byte is one that a table may have.
    Text,
    // Eight bytes of it are no record.
    Other,
    // Its records are followed by a part of one.
    Cut,
}

// What was seen in the bytes of a file so far.
#[derive(Clone, Copy)]
pub struct Seen {
    // There was no byte.
    empty: bool,
    // Every byte is one that a table may have.
    textual: bool,
    // Every eight bytes are a record.
    readable: bool,
    // Nothing stands behind the last whole record.
    whole: bool,
}

// Whether these bytes are a record.
#[tactic(auto, unfolding(crate::specs::Recognised::is_record))]
fn is_record(bytes: &[u8]) -> bool
    ensures { result ≡ is_record bytes.now }
{
    read_record(bytes).is_ok()
}

// Whether every whole eight bytes of a block are a record.
fn all_records(block: &[u8]) -> bool
    ensures { result ≡ list_all is_record (records_of block.now) }
{
    for bytes in block.chunks_exact(Record::BYTES) {
        if !is_record(bytes) {
            return false;
        }
    }
    true
}

// Whether a table may have every byte of a block.
#[tactic(auto, using(crate::proofs::RecogniseLaws::text_found))]
fn is_text(block: &[u8]) -> bool
    ensures { result ≡ list_all accepted block.now }
{
    refused_byte(block).is_none()
}

impl Seen {
    // Of no byte.
    #[tactic(auto, unfolding(crate::specs::Recognised::seen_in, figures::specs::Figures::records_of, figures::specs::Figures::records_in))]
    pub fn nothing() -> Seen
        ensures { result ≡ seen_in [] }
    {
        Seen {
            empty: true,
            textual: true,
            readable: true,
            whole: true,
        }
    }

    // With the bytes of one block more.
    pub fn with_block(self, block: &[u8]) -> Seen
        ensures { Looks block.now self result }
    {
        Seen {
            empty: self.empty && block.is_empty(),
            textual: self.textual && is_text(block),
            readable: self.readable && all_records(block),
            whole: block.len() % Record::BYTES == 0,
        }
    }

    // What they make of the file.
    #[tactic(auto, unfolding(crate::specs::Recognised::kind_seen))]
    pub fn kind(self) -> Kind
        ensures { result ≡ kind_seen self }
    {
        if self.empty {
            return Kind::Log;
        }
        if self.textual {
            return Kind::Text;
        }
        if self.readable {
            if self.whole {
                return Kind::Log;
            }
            return Kind::Cut;
        }
        Kind::Other
    }
}
