ghost use Rattle.std.specs.Prelude.{◌≡◌};
ghost use Rattle.ja_prim.specs.Comparison as spec;

use crate::numbers::to_num;
use crate::{Num, Prim, Primitive, Stop};

/// Whether the first number is less: neither where one is NaN.
fn less_number(a: Num, b: Num) -> Option<bool>
    ensures { result ≡ spec.less_number a b }
{
    match a {
        Num::NaN => None,
        Num::Whole(m) => match b {
            Num::NaN => None,
            Num::Whole(n) => Some(m.get() < n.get()),
        },
    }
}

/// Whether the first text comes first.
fn less_text(a: &[u16], b: &[u16]) -> bool
    ensures { result ≡ spec.less_text a.now b.now }
{
    a.cmp(&b).is_lt()
}

/// Whether a is less than b (ES3 11.8.5): of two texts by their first units that differ, a
/// beginning being less, and of other values by their numbers. `None` comes exactly where a NaN
/// takes part. It stops exactly where one of the two is a text and the number of that text leaves
/// the profile, as [`to_num`](crate::to_num) says.
pub fn compare(a: &Prim, b: &Prim) -> Result<Option<bool>, Stop>
    ensures { result ≡ spec.less a.now b.now }
{
    if let (Primitive::Text(a), Primitive::Text(b)) = (a, b) {
        return Ok(Some(less_text(a.units(), b.units())));
    }
    let m = to_num(a)?;
    let n = to_num(b)?;
    Ok(less_number(m, n))
}
