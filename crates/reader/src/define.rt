// The name and the text of a `:define`, and where it goes.
ghost use Rattle.std.specs.Prelude.{◌≡◌, drop};
ghost use Rattle.line.specs.Contract.{fields_in};
ghost use Rattle.variables.specs.Contract.{scope_in};
ghost use Rattle.reader.specs.Colon.{surplus_field};
ghost use Rattle.reader.specs.Contract.{ReadsText, ReadsDefinition, LineDefines};

use fault::Cause;
use line::fields::field;
use line::scan::ControlLine;
use variables::definition::{check_name, check_text};
use variables::field::{FieldText, field_text};
use variables::{Variables, place_for};

// How many bytes name and text have, each in its buffer.
#[derive(Clone, Copy)]
struct Sizes {
    name: usize,
    text: usize,
}

// What a `:define` does: its place, how many names there are then, and how many bytes name and text have, each in its buffer.
#[derive(Clone, Copy)]
pub struct Definition {
    pub place: usize,
    pub names: usize,
    pub name: usize,
    pub text: usize,
}

// The fault of a field behind the text: its own, or that it stands there.
fn surplus<'a>(
    written: &[u8],
    user: &[u8],
    host: &[u8],
    bytes: &'a [u8; Variables::BYTES],
    sizes: &'a [usize; Variables::SIZES],
    names: usize,
) -> Cause
    ensures { surplus_field (scope_in user.now host.now bytes.now sizes.now names) written.now ≡ Err result }
{
    let mut scratch = [0u8; FieldText::BYTES];
    match field_text(bytes, sizes, names, user, host, written, &mut scratch) {
        Err(cause) => cause,
        Ok(_) => Cause::SurplusField,
    }
}

// The text behind the name, at the beginning of the lent buffer, and that nothing stands behind it.
fn read_text<'a, 'b>(
    text: &'a [u8],
    ends: &'a [usize; 64],
    count: usize,
    from: usize,
    user: &[u8],
    host: &[u8],
    bytes: &'b [u8; Variables::BYTES],
    sizes: &'b [usize; Variables::SIZES],
    names: usize,
    value: &mut [u8; FieldText::BYTES],
) -> Result<usize, Cause>
    ensures { ReadsText
        (scope_in user.now host.now bytes.now sizes.now names)
        (drop from (fields_in text.now ends.now count))
        value.new result }
{
    let most = count.min(ControlLine::FIELDS);
    if from >= most {
        return Err(Cause::MissingPart);
    }
    let written = field(text, ends, count, from);
    let n = field_text(bytes, sizes, names, user, host, written, value)?;
    check_text(&value[..n])?;
    if from + 1 < most {
        let next = field(text, ends, count, from + 1);
        return Err(surplus(next, user, host, bytes, sizes, names));
    }
    Ok(n)
}

// The definition that the fields make from one of them on: its name and its text, at the beginnings of the lent buffers.
fn read_definition<'a, 'b>(
    text: &'a [u8],
    ends: &'a [usize; 64],
    count: usize,
    from: usize,
    user: &[u8],
    host: &[u8],
    bytes: &'b [u8; Variables::BYTES],
    sizes: &'b [usize; Variables::SIZES],
    names: usize,
    name: &mut [u8; FieldText::BYTES],
    value: &mut [u8; FieldText::BYTES],
) -> Result<Sizes, Cause>
    ensures { ReadsDefinition
        (scope_in user.now host.now bytes.now sizes.now names)
        (drop from (fields_in text.now ends.now count))
        name.new value.new result }
{
    if from >= count.min(ControlLine::FIELDS) {
        return Err(Cause::MissingPart);
    }
    let written = field(text, ends, count, from);
    let k = field_text(bytes, sizes, names, user, host, written, name)?;
    check_name(&name[..k])?;
    let n = read_text(
        text,
        ends,
        count,
        from + 1,
        user,
        host,
        bytes,
        sizes,
        names,
        value,
    )?;
    Ok(Sizes { name: k, text: n })
}

// What the `:define` does that the fields make from one of them on; its name and its text at the beginnings of the lent
// buffers.
pub fn read_define<'a, 'b>(
    text: &'a [u8],
    ends: &'a [usize; 64],
    count: usize,
    from: usize,
    user: &[u8],
    host: &[u8],
    bytes: &'b [u8; Variables::BYTES],
    sizes: &'b [usize; Variables::SIZES],
    names: usize,
    name: &mut [u8; FieldText::BYTES],
    value: &mut [u8; FieldText::BYTES],
) -> Result<Definition, Cause>
    ensures { LineDefines
        user.now host.now bytes.now sizes.now names
        (drop from (fields_in text.now ends.now count))
        name.new value.new result }
{
    let read = read_definition(
        text, ends, count, from, user, host, bytes, sizes, names, name, value,
    )?;
    let goes = place_for(bytes, sizes, names, &name[..read.name])?;
    Ok(Definition {
        place: goes.place,
        names: goes.names,
        name: read.name,
        text: read.text,
    })
}
