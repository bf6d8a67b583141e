ghost use Rattle.std.specs.Prelude.{◌≡◌};
ghost use Rattle.ja_prim.specs.Conversions as spec;

use crate::{Num, Prim, Primitive};

/// Whether a value counts as true (ES3 9.2): all but undefined, null, false, NaN, 0 and the empty
/// text.
pub fn to_bool(a: &Prim) -> bool
    ensures { result ≡ spec.to_bool a.now }
{
    match a {
        Primitive::Undefined => false,
        Primitive::Null => false,
        Primitive::Bool(b) => *b,
        Primitive::Number(Num::NaN) => false,
        Primitive::Number(Num::Whole(n)) => n.get() != 0,
        Primitive::Text(text) => !text.units().is_empty(),
    }
}
