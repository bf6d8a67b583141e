//! Numbers as lengths of arrays (ES3 15.4.5.1): unsigned numbers of 32 bits.

ghost use Rattle.std.specs.Prelude.{◌≡◌, ◌<◌, Some, IfOk, IfSome};
ghost use Rattle.ja_abstract.specs.AbstractValue.{no_value};
ghost use Rattle.ja_abstract.specs.Writes as spec;
ghost use Rattle.ja_value.specs.Value.{value_of};
ghost use Rattle.ja_astate.specs.code.Puts.{more_lengths};

use ja_abstract::NumberPart;
use ja_base::Memory;
use ja_prim::Int;
use ja_value::AValue;
use std::alloc::Global;

/// One more than the greatest length.
const LENGTH_END: i64 = 4_294_967_296;

/// Whether a number may be a length.
fn is_length(number: Int) -> bool
    ensures { result ≡ spec.is_length number }
{
    0 <= number.get() && number.get() < LENGTH_END
}

/// Whether some numbers may be a length.
pub(crate) fn may_be_length(part: &NumberPart) -> bool
    ensures { result ≡ spec.may_be_length part.now }
{
    match part {
        NumberPart::Nothing => false,
        NumberPart::One(number) => is_length(*number),
        NumberPart::Index | NumberPart::OtherWhole | NumberPart::Whole => true,
    }
}

/// Whether some numbers may be none.
pub(crate) fn may_be_no_length(part: &NumberPart) -> bool
    ensures { result ≡ spec.may_be_no_length part.now }
{
    match part {
        NumberPart::Nothing | NumberPart::Index => false,
        NumberPart::One(number) => !is_length(*number),
        NumberPart::OtherWhole | NumberPart::Whole => true,
    }
}

/// Whether the element of an index isn't surely below a new length.
pub(crate) fn may_be_cut(part: &NumberPart, index: Option<u32>) -> bool
    ensures { result ≡ spec.may_be_cut part.now index }
{
    match (part, index) {
        (NumberPart::One(number), Some(index)) => i64::from(index) >= number.get(),
        _ => true,
    }
}

/// A length after the element of an index was put, where it is one number: at least one more than
/// the index.
fn grown_number(alloc: Global, index: u32, number: Int) -> AValue
    requires { index < 4294967295 }
    ensures { value_of result ≡ spec.grown_length no_value (Some index) (Some number) }
{
    if i64::from(index) < number.get() {
        AValue::of_number(alloc, number)
    } else {
        AValue::whole_constant(alloc, index + 1)
    }
}

/// The numbers that a length may become where it isn't one number, or where the index isn't known.
fn more_lengths(alloc: Global, index: Option<u32>) -> AValue
    requires { IfSome index (λ i. i < 4294967295) }
    ensures { value_of result ≡ more_lengths index }
{
    match index {
        Some(index) => AValue::whole_constant(alloc, index + 1),
        None => AValue::of_number_part(alloc, NumberPart::Whole),
    }
}

/// An array's length after the element of an index was put.
pub(crate) fn grown_length(
    alloc: Global,
    length: &AValue,
    index: Option<u32>,
    number: Option<Int>,
) -> Result<AValue, Memory>
    requires { IfSome index (λ i. i < 4294967295) }
    ensures { IfOk result (λ v. value_of v
        ≡ spec.grown_length (value_of length.now) index number) }
{
    if let (Some(index), Some(number)) = (index, number) {
        return Ok(grown_number(alloc, index, number));
    }
    let mut grown = length.copy(alloc)?;
    grown.join(alloc, &more_lengths(alloc, index))?;
    Ok(grown)
}
