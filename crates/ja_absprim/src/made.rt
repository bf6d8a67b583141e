//! Abstract values of one part.

ghost use Rattle.std.specs.Prelude.{◌≡◌};
ghost use Rattle.ja_prim.specs.declared.primitive.Primitive.TheVariants as primitive;
ghost use Rattle.ja_abstract.specs.AbstractValue.{join, of_primitive, undefined_value};
ghost use Rattle.ja_abstract.specs.Primitives.{of_bools, of_number_part, of_text_part, nan_value, whole_value};
ghost use Rattle.ja_value.specs.Value.{value_of};

use ja_abstract::{Flags, NumberPart, TextPart};
use ja_prim::Num;
use ja_value::AValue;
use std::alloc::Global;

/// No flag.
const NO_FLAGS: Flags = Flags {
    absent: false,
    entry: false,
    row: false,
    undefined: false,
    null: false,
    is_true: false,
    is_false: false,
    nan: false,
};

/// True, false, both or neither.
pub fn of_bools(alloc: Global, is_true: bool, is_false: bool) -> AValue
    ensures { value_of result ≡ of_bools is_true is_false }
{
    let flags = Flags {
        is_true,
        is_false,
        ..NO_FLAGS
    };
    AValue::of_flags(alloc, flags)
}

/// Exactly undefined.
pub fn undefined(alloc: Global) -> AValue
    ensures { value_of result ≡ undefined_value }
{
    let flags = Flags {
        undefined: true,
        ..NO_FLAGS
    };
    AValue::of_flags(alloc, flags)
}

/// The numbers of a part.
pub fn of_number_part(alloc: Global, part: NumberPart) -> AValue
    ensures { value_of result ≡ of_number_part part }
{
    AValue::of_number_part(alloc, part)
}

/// The texts of a part.
pub fn of_text_part(alloc: Global, part: TextPart) -> AValue
    ensures { value_of result ≡ of_text_part part }
{
    AValue::of_text_part(alloc, part)
}

/// Exactly NaN.
pub fn nan(alloc: Global) -> AValue
    ensures { value_of result ≡ nan_value }
{
    let flags = Flags {
        nan: true,
        ..NO_FLAGS
    };
    AValue::of_flags(alloc, flags)
}

/// Any whole number.
pub fn whole(alloc: Global) -> AValue
    ensures { value_of result ≡ whole_value }
{
    of_number_part(alloc, NumberPart::Whole)
}

/// NaN or any whole number.
pub fn nan_or_whole(alloc: Global) -> AValue
    ensures { value_of result ≡ join nan_value whole_value }
{
    let mut value = nan(alloc);
    value.number = NumberPart::Whole;
    value
}

/// Exactly a number.
pub fn of_num(alloc: Global, number: Num) -> AValue
    ensures { value_of result ≡ of_primitive (primitive.Number number) }
{
    match number {
        Num::NaN => nan(alloc),
        Num::Whole(number) => AValue::of_number(alloc, number),
    }
}
