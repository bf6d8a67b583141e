//! Letters in small and in great (ES3 15.5.4.16, 15.5.4.18).

ghost use Rattle.std.specs.Prelude.{◌≡◌, IfOk, length, map};
ghost use Rattle.std.specs.List.{list_all};
ghost use Rattle.ja_prim.specs.Characters.{is_ascii};
ghost use Rattle.ja_machine.specs.TextOperations as spec;

use ja_base::Memory;
use std::alloc::Global;

/// Whether all units are ASCII.
pub(crate) fn is_ascii(units: &[u16]) -> bool
    ensures { result ≡ list_all is_ascii units.now }
{
    units.iter().all(|unit| *unit < 128)
}

/// A letter in small.
fn small(unit: u16) -> u16
    ensures { result ≡ spec.small unit }
{
    if unit >= 65 && unit <= 90 {
        unit + 32
    } else {
        unit
    }
}

/// A letter in great.
fn great(unit: u16) -> u16
    ensures { result ≡ spec.great unit }
{
    if unit >= 97 && unit <= 122 {
        unit - 32
    } else {
        unit
    }
}

/// Letters in small.
pub(crate) fn lower_units(alloc: Global, units: &[u16]) -> Result<Vec<u16>, Memory>
    ensures value { IfOk result (λ v. v.items ≡ map spec.small units.now) }
    ensures size { IfOk result (λ v. length v.items ≡ length units.now) }
{
    let mut list = Vec::new(alloc);
    for unit in units {
        list.push(small(*unit))?;
    }
    Ok(list)
}

/// Letters in great.
pub(crate) fn upper_units(alloc: Global, units: &[u16]) -> Result<Vec<u16>, Memory>
    ensures value { IfOk result (λ v. v.items ≡ map spec.great units.now) }
    ensures size { IfOk result (λ v. length v.items ≡ length units.now) }
{
    let mut list = Vec::new(alloc);
    for unit in units {
        list.push(great(*unit))?;
    }
    Ok(list)
}
