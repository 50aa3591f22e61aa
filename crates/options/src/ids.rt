// User and group names in options, kept by value.
ghost use Rattle.std.specs.Option.{option_map};
ghost use Rattle.std.specs.Prelude.{◌≡◌, take};
ghost use Rattle.text.specs.Contract.{Wrote};
ghost use Rattle.options.specs.Options.{id_or};
ghost use Rattle.options.specs.Read.{id_limit, is_id};
ghost use Rattle.options.specs.Contract.{id_in};

use text::buffer::put_all;
use text::slice::all_name_bytes;

// A name: the first bytes of the array.
#[derive(Clone, Copy)]
pub struct IdName {
    bytes: [u8; IdName::BYTES],
    size: usize,
}

impl IdName {
    // The most bytes of a name.
    pub const BYTES: usize = 64;

    // The name with these bytes, as many as a name can have.
    pub fn of(value: &[u8]) -> Self
        ensures { id_in result ≡ take id_limit value.now }
    {
        let size = value.len().min(IdName::BYTES);
        let mut bytes = [0u8; IdName::BYTES];
        bytes[..size].copy_from_slice(&value[..size]);
        IdName { bytes, size }
    }
}

// The bytes of a name put into a lent buffer; none where it is not set.
#[tactic(auto, unfolding(crate::specs::Contract::id_in))]
pub fn put_id(name: Option<IdName>, out: &mut [u8], n: usize) -> Option<usize>
    ensures { Wrote out.old out.new n (id_or (option_map id_in name)) result }
{
    match name {
        None => put_all(out, n, b""),
        Some(name) => {
            let size = name.size.min(IdName::BYTES);
            put_all(out, n, &name.bytes[..size])
        }
    }
}

// Whether a value is a name of the user alphabet, or `<owner>` or `<caller>`.
#[tactic(auto, unfolding(crate::specs::Read::is_id))]
pub fn is_id(v: &[u8]) -> bool
    ensures { result ≡ is_id v.now }
{
    v == b"<owner>".as_slice() || v == b"<caller>".as_slice() || !v.is_empty() && all_name_bytes(v)
}
