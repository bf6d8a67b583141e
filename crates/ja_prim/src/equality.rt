ghost use Rattle.std.specs.Prelude.{◌≡◌};
ghost use Rattle.ja_prim.specs.Comparison as spec;

use crate::numbers::to_num;
use crate::{Num, Prim, Primitive, Stop};

/// Whether two numbers are equal: NaN is equal to none.
pub fn same_number(a: Num, b: Num) -> bool
    ensures { result ≡ spec.same_number a b }
{
    match a {
        Num::NaN => false,
        Num::Whole(m) => match b {
            Num::NaN => false,
            Num::Whole(n) => m.get() == n.get(),
        },
    }
}

/// Whether two truth values are equal.
fn same_truth(a: bool, b: bool) -> bool
    ensures { result ≡ spec.same_truth a b }
{
    if a { b } else { !b }
}

/// Whether two values are of one type and equal (ES3 11.9.6). NaN is equal to nothing, not to
/// itself either.
pub fn strict_eq(a: &Prim, b: &Prim) -> bool
    ensures { result ≡ spec.strict_equal a.now b.now }
{
    match (a, b) {
        (Primitive::Undefined, Primitive::Undefined) => true,
        (Primitive::Null, Primitive::Null) => true,
        (Primitive::Bool(a), Primitive::Bool(b)) => same_truth(*a, *b),
        (Primitive::Number(m), Primitive::Number(n)) => same_number(*m, *n),
        (Primitive::Text(a), Primitive::Text(b)) => a.units() == b.units(),
        _ => false,
    }
}

/// Whether a value is undefined or null.
fn is_nothing(a: &Prim) -> bool
    ensures { result ≡ spec.is_nothing a.now }
{
    match a {
        Primitive::Undefined | Primitive::Null => true,
        _ => false,
    }
}

/// Whether both values are booleans, numbers or texts.
fn are_alike(a: &Prim, b: &Prim) -> bool
    ensures { result ≡ spec.are_alike a.now b.now }
{
    match (a, b) {
        (Primitive::Bool(_), Primitive::Bool(_)) => true,
        (Primitive::Number(_), Primitive::Number(_)) => true,
        (Primitive::Text(_), Primitive::Text(_)) => true,
        _ => false,
    }
}

/// Whether two values are equal after conversion (ES3 11.9.3): undefined and null are equal to each
/// other and to nothing else, values of one type are compared as they are, and others by their
/// numbers. It stops exactly where a text is compared with a number or a boolean and the number of
/// that text leaves the profile, as [`to_num`](crate::to_num) says.
pub fn loose_eq(a: &Prim, b: &Prim) -> Result<bool, Stop>
    ensures { result ≡ spec.loose_equal a.now b.now }
{
    if is_nothing(a) || is_nothing(b) {
        return Ok(is_nothing(a) && is_nothing(b));
    }
    if are_alike(a, b) {
        return Ok(strict_eq(a, b));
    }
    let m = to_num(a)?;
    let n = to_num(b)?;
    Ok(same_number(m, n))
}
