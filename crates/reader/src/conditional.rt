// `:if A == B rest` and `:if A != B rest`: whether the rest is taken.
ghost use Rattle.std.specs.Prelude.{◌≡◌, drop};
ghost use Rattle.line.specs.Contract.{fields_in};
ghost use Rattle.variables.specs.Substitute.{field_as};
ghost use Rattle.variables.specs.Contract.{scope_in};
ghost use Rattle.reader.specs.Colon.{operator_of, operator_holds, behind_operator, behind_left, comparison};

use fault::Cause;
use line::fields::field;
use line::scan::ControlLine;
use variables::Variables;
use variables::field::{FieldText, field_text};

#[derive(Clone, Copy, PartialEq, Eq)]
enum Operator {
    Equal,
    NotEqual,
}

impl Operator {
    // Whether two texts compare as wanted.
    fn holds(self, a: &[u8], b: &[u8]) -> bool
        ensures { result ≡ operator_holds self a.now b.now }
    {
        match self {
            Operator::Equal => a == b,
            Operator::NotEqual => a != b,
        }
    }
}

// The operator by its text.
fn operator_in(text: &[u8]) -> Result<Operator, Cause>
    ensures { result ≡ operator_of text.now }
{
    if text == b"==".as_slice() {
        return Ok(Operator::Equal);
    }
    if text == b"!=".as_slice() {
        return Ok(Operator::NotEqual);
    }
    Err(Cause::Operator)
}

// The operator that a field is.
fn operator_of<'a>(
    written: &[u8],
    user: &[u8],
    host: &[u8],
    bytes: &'a [u8; Variables::BYTES],
    sizes: &'a [usize; Variables::SIZES],
    names: usize,
) -> Result<Operator, Cause>
    ensures { result ≡ field_as (scope_in user.now host.now bytes.now sizes.now names) operator_of written.now }
{
    let mut scratch = [0u8; FieldText::BYTES];
    let n = field_text(bytes, sizes, names, user, host, written, &mut scratch)?;
    operator_in(&scratch[..n])
}

// The right side behind the operator, and that a rest stands behind it.
fn compare_right<'a, 'b>(
    left: &[u8],
    operator: Operator,
    text: &'a [u8],
    ends: &'a [usize; 64],
    count: usize,
    from: usize,
    user: &[u8],
    host: &[u8],
    bytes: &'b [u8; Variables::BYTES],
    sizes: &'b [usize; Variables::SIZES],
    names: usize,
) -> Result<bool, Cause>
    ensures { result ≡ behind_operator
        (scope_in user.now host.now bytes.now sizes.now names)
        left.now operator (drop from (fields_in text.now ends.now count)) }
{
    let most = count.min(ControlLine::FIELDS);
    if from >= most {
        return Err(Cause::MissingPart);
    }
    let written = field(text, ends, count, from);
    let mut scratch = [0u8; FieldText::BYTES];
    let n = field_text(bytes, sizes, names, user, host, written, &mut scratch)?;
    if from + 1 >= most {
        return Err(Cause::MissingPart);
    }
    Ok(operator.holds(left, &scratch[..n]))
}

// The operator and the right side behind the left one.
fn compare_with<'a, 'b>(
    left: &[u8],
    text: &'a [u8],
    ends: &'a [usize; 64],
    count: usize,
    from: usize,
    user: &[u8],
    host: &[u8],
    bytes: &'b [u8; Variables::BYTES],
    sizes: &'b [usize; Variables::SIZES],
    names: usize,
) -> Result<bool, Cause>
    ensures { result ≡ behind_left
        (scope_in user.now host.now bytes.now sizes.now names)
        left.now (drop from (fields_in text.now ends.now count)) }
{
    if from >= count.min(ControlLine::FIELDS) {
        return Err(Cause::MissingPart);
    }
    let written = field(text, ends, count, from);
    let operator = operator_of(written, user, host, bytes, sizes, names)?;
    compare_right(
        left,
        operator,
        text,
        ends,
        count,
        from + 1,
        user,
        host,
        bytes,
        sizes,
        names,
    )
}

// The comparison that the fields make from one of them on, and that a rest stands behind it.
pub fn compare<'a, 'b>(
    text: &'a [u8],
    ends: &'a [usize; 64],
    count: usize,
    from: usize,
    user: &[u8],
    host: &[u8],
    bytes: &'b [u8; Variables::BYTES],
    sizes: &'b [usize; Variables::SIZES],
    names: usize,
) -> Result<bool, Cause>
    ensures { result ≡ comparison
        (scope_in user.now host.now bytes.now sizes.now names)
        (drop from (fields_in text.now ends.now count)) }
{
    if from >= count.min(ControlLine::FIELDS) {
        return Err(Cause::MissingPart);
    }
    let written = field(text, ends, count, from);
    let mut scratch = [0u8; FieldText::BYTES];
    let n = field_text(bytes, sizes, names, user, host, written, &mut scratch)?;
    compare_with(
        &scratch[..n],
        text,
        ends,
        count,
        from + 1,
        user,
        host,
        bytes,
        sizes,
        names,
    )
}
