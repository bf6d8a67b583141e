ghost use Rattle.std.specs.Prelude.{◌≡◌, ◌≤◌, IfOk, length};
ghost use Rattle.std.specs.Fmt.{signed_decimal};
ghost use Rattle.ja_prim.specs.Conversions as spec;
ghost use Rattle.ja_prim.specs.Texts.{max_units};

use crate::ascii::ascii_units;
use crate::{Memory, Num, Prim, Primitive, Text16};
use std::alloc::{AllocError, Global};

/// The decimal text of a whole number.
#[tactic(auto, using(crate::proofs::NumberTexts::number_short))]
fn whole_text(alloc: Global, n: i64) -> Result<Vec<u16>, AllocError>
    ensures value { IfOk result (λ units. units.items ≡ signed_decimal n) }
    ensures within { IfOk result (λ units. length units.items ≤ max_units) }
{
    let text = format!(in alloc; "{n}")?;
    ascii_units(alloc, text.as_bytes())
}

/// The units of the text of a value.
pub fn text_units(alloc: Global, a: &Prim) -> Result<Vec<u16>, AllocError>
    ensures value { IfOk result (λ units. units.items ≡ spec.to_text a.now) }
    ensures within { IfOk result (λ units. length units.items ≤ max_units) }
{
    match a {
        Primitive::Undefined => ascii_units(alloc, b"undefined"),
        Primitive::Null => ascii_units(alloc, b"null"),
        Primitive::Bool(true) => ascii_units(alloc, b"true"),
        Primitive::Bool(false) => ascii_units(alloc, b"false"),
        Primitive::Number(Num::NaN) => ascii_units(alloc, b"NaN"),
        Primitive::Number(Num::Whole(n)) => whole_text(alloc, n.get()),
        Primitive::Text(text) => text.units().to_vec(alloc),
    }
}

/// The text of a value (ES3 9.8): of a text the same, whose units are shared; of a number its
/// decimal digits, with `-` before those of a negative one, or `NaN`. It fails where memory is
/// refused.
pub fn to_text(alloc: Global, a: &Prim) -> Result<Text16, Memory>
    ensures { IfOk result (λ text. text ≡ spec.to_text a.now) }
{
    match a {
        Primitive::Text(text) => Ok(text.copy()?),
        _ => {
            let units = text_units(alloc, a)?;
            Ok(Text16::from_units(alloc, units)?)
        }
    }
}
