ghost use Rattle.std.specs.Prelude.{◌≡◌};
ghost use Rattle.ja_prim.specs.Conversions as spec;

use crate::capped::judge;
use crate::{Num, Prim, Primitive, Stop};

/// The number of a value (ES3 9.3): NaN of undefined, 0 of null and false, 1 of true. Of a text
/// without white space and line terminators at its ends it is 0 of the empty one, the exact value
/// of a decimal literal, with a sign or none, and of a hexadecimal one, and NaN of any other.
/// `Range` comes exactly where the magnitude of that value is greater than 9,007,199,254,740,991,
/// as that of `Infinity` is, and else `Fraction` exactly where it isn't whole.
#[tactic(auto, unfolding(crate::specs::code::Capped::parted))]
pub fn to_num(a: &Prim) -> Result<Num, Stop>
    ensures { result ≡ spec.to_number a.now }
{
    match a {
        Primitive::Undefined => Ok(Num::NaN),
        Primitive::Null | Primitive::Bool(false) => judge(false, 0, true),
        Primitive::Bool(true) => judge(false, 1, true),
        Primitive::Number(n) => Ok(*n),
        Primitive::Text(text) => text.number(),
    }
}
