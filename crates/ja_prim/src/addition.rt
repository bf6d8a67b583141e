ghost use Rattle.std.specs.Prelude.{◌≡◌, ◌++◌, IfOk};
ghost use Rattle.ja_prim.specs.Conversions.{to_text, to_number};
ghost use Rattle.ja_prim.specs.Comparison as spec;
ghost use Rattle.ja_prim.specs.code.Texts.{Answers};

use crate::arithmetic::add_numbers;
use crate::numbers::to_num;
use crate::text16::limited;
use crate::writing::to_text;
use crate::{Memory, Num, Prim, PrimFault, Primitive, Stop};
use std::alloc::Global;

/// Whether a value is a text.
fn is_text(a: &Prim) -> bool
    ensures { result ≡ spec.is_text a.now }
{
    match a {
        Primitive::Text(_) => true,
        _ => false,
    }
}

/// The units of the texts of two values, one behind the other, each copied once.
fn joined_units(alloc: Global, a: &Prim, b: &Prim) -> Result<Vec<u16>, Memory>
    ensures { IfOk result (λ units. units.items ≡ to_text a.now ++ to_text b.now) }
{
    let first = to_text(alloc, a)?;
    let second = to_text(alloc, b)?;
    let mut units = Vec::with_capacity(alloc, first.units().len() + second.units().len())?;
    units.extend_from_slice(first.units())?;
    units.extend_from_slice(second.units())?;
    Ok(units)
}

/// The sum of the numbers of two values.
fn sum(a: &Prim, b: &Prim) -> Result<Num, Stop>
    ensures { result ≡ spec.sum_of (to_number a.now) (to_number b.now) }
{
    let m = to_num(a)?;
    let n = to_num(b)?;
    add_numbers(m, n)
}

/// The sum of two values (ES3 11.6.1): where one is a text, both texts joined, and else the sum of
/// their numbers. `TextLength` comes exactly where the joined text would have more than 1,048,576
/// units, `Range` exactly where the sum has a magnitude greater than 9,007,199,254,740,991, and
/// `Memory` where memory is refused.
pub fn add(alloc: Global, a: &Prim, b: &Prim) -> Result<Prim, PrimFault>
    ensures { Answers (spec.add a.now b.now) result }
{
    if is_text(a) || is_text(b) {
        let units = joined_units(alloc, a, b)?;
        let text = limited(alloc, units)?;
        return Ok(Primitive::Text(text));
    }
    match sum(a, b) {
        Ok(n) => Ok(Primitive::Number(n)),
        Err(stop) => Err(PrimFault::Stop(stop)),
    }
}
