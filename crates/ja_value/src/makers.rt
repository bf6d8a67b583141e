ghost use Rattle.std.specs.Prelude.{◌≡◌, IfOk};
ghost use Rattle.ja_prim.specs.declared.primitive.Num.TheVariants as num;
ghost use Rattle.ja_prim.specs.declared.primitive.Primitive.TheVariants as primitive;
ghost use Rattle.ja_abstract.specs.AbstractValue.{no_value, of_flags, row_value, undefined_value, null_value, of_primitive, of_label, of_labels};
ghost use Rattle.ja_abstract.specs.Made.{whole_constant};
ghost use Rattle.ja_abstract.specs.Primitives.{of_bools, of_number_part, of_text_part, nan_value};

use crate::profile::{number_of_profile, text_of_profile};
use crate::value::NO_FLAGS;
use crate::{AValue, LabelSet};
use ja_abstract::{Flags, NumberPart, TextPart};
use ja_base::{Label, Memory};
use ja_prim::{Int, Num, Primitive, Text16};
use std::alloc::Global;

impl AValue {
    ghost use Rattle.ja_value.specs.Value.{value_of, labels_in};

    /// The value without a part.
    pub fn empty(alloc: Global) -> AValue
        ensures { value_of result ≡ no_value }
    {
        AValue::of_flags(alloc, NO_FLAGS)
    }

    /// The value with these flags alone.
    pub fn of_flags(alloc: Global, flags: Flags) -> AValue
        ensures { value_of result ≡ of_flags flags }
    {
        AValue {
            flags,
            number: NumberPart::Nothing,
            text: TextPart::Nothing,
            labels: LabelSet::new(alloc),
        }
    }

    /// The value with this number part alone.
    pub fn of_number_part(alloc: Global, number: NumberPart) -> AValue
        ensures { value_of result ≡ of_number_part number }
    {
        AValue {
            flags: NO_FLAGS,
            number: number_of_profile(number),
            text: TextPart::Nothing,
            labels: LabelSet::new(alloc),
        }
    }

    /// The value with this text part alone.
    pub fn of_text_part(alloc: Global, text: TextPart) -> AValue
        ensures { value_of result ≡ of_text_part text }
    {
        AValue {
            flags: NO_FLAGS,
            number: NumberPart::Nothing,
            text: text_of_profile(text),
            labels: LabelSet::new(alloc),
        }
    }

    /// Exactly the objects of these labels.
    pub fn of_labels(alloc: Global, labels: LabelSet) -> AValue
        ensures { value_of result ≡ of_labels (labels_in labels) }
    {
        AValue {
            flags: NO_FLAGS,
            number: NumberPart::Nothing,
            text: TextPart::Nothing,
            labels,
        }
    }

    /// Exactly a number.
    pub fn of_number(alloc: Global, number: Int) -> AValue
        ensures { value_of result ≡ of_primitive (primitive.Number (num.Whole number)) }
    {
        AValue::of_number_part(alloc, NumberPart::One(number))
    }

    /// Exactly a number that isn't negative.
    pub fn whole_constant(alloc: Global, number: u32) -> AValue
        ensures { value_of result ≡ whole_constant number }
    {
        AValue::of_number(alloc, Int::new(i64::from(number)).unwrap())
    }

    /// Exactly a text.
    pub fn of_text(alloc: Global, text: Text16) -> AValue
        ensures { value_of result ≡ of_primitive (primitive.Text text) }
    {
        AValue::of_text_part(alloc, TextPart::One(text))
    }

    /// The Booleans that are there.
    pub fn of_bools(alloc: Global, is_true: bool, is_false: bool) -> AValue
        ensures { value_of result ≡ of_bools is_true is_false }
    {
        let flags = Flags {
            is_true,
            is_false,
            ..NO_FLAGS
        };
        AValue::of_flags(alloc, flags)
    }

    /// Exactly a Boolean.
    pub fn of_bool(alloc: Global, boolean: bool) -> AValue
        ensures { value_of result ≡ of_primitive (primitive.Bool boolean) }
    {
        AValue::of_bools(alloc, boolean, !boolean)
    }

    /// Exactly undefined.
    pub fn undefined(alloc: Global) -> AValue
        ensures { value_of result ≡ undefined_value }
    {
        let flags = Flags {
            undefined: true,
            ..NO_FLAGS
        };
        AValue::of_flags(alloc, flags)
    }

    /// Exactly null.
    pub fn null(alloc: Global) -> AValue
        ensures { value_of result ≡ null_value }
    {
        let flags = Flags {
            null: true,
            ..NO_FLAGS
        };
        AValue::of_flags(alloc, flags)
    }

    /// Exactly the number that is none.
    pub fn nan(alloc: Global) -> AValue
        ensures { value_of result ≡ nan_value }
    {
        let flags = Flags {
            nan: true,
            ..NO_FLAGS
        };
        AValue::of_flags(alloc, flags)
    }

    /// Exactly a row.
    pub fn row(alloc: Global) -> AValue
        ensures { value_of result ≡ row_value }
    {
        let flags = Flags {
            row: true,
            ..NO_FLAGS
        };
        AValue::of_flags(alloc, flags)
    }

    /// Exactly a primitive. A text is shared.
    pub fn of_primitive(alloc: Global, primitive: &Primitive) -> Result<AValue, Memory>
        ensures { IfOk result (λ v. value_of v ≡ of_primitive primitive.now) }
    {
        match primitive {
            Primitive::Undefined => Ok(AValue::undefined(alloc)),
            Primitive::Null => Ok(AValue::null(alloc)),
            Primitive::Bool(boolean) => Ok(AValue::of_bool(alloc, *boolean)),
            Primitive::Number(Num::NaN) => Ok(AValue::nan(alloc)),
            Primitive::Number(Num::Whole(number)) => Ok(AValue::of_number(alloc, *number)),
            Primitive::Text(text) => {
                let text = text.copy()?;
                Ok(AValue::of_text(alloc, text))
            }
        }
    }

    /// Exactly the objects of a label.
    pub fn of_label(alloc: Global, label: Label) -> Result<AValue, Memory>
        ensures { IfOk result (λ v. value_of v ≡ of_label label) }
    {
        let mut labels = LabelSet::new(alloc);
        labels.insert(label)?;
        Ok(AValue::of_labels(alloc, labels))
    }
}
