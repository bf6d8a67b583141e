//! Units of texts of ASCII, one for each byte.

ghost use Rattle.std.specs.Prelude.{◌≡◌, ◌++◌, IfOk, OnOk};
ghost use Rattle.std.specs.Str.{bytes_eq};

use std::alloc::{AllocError, AllocFailed, Global};

/// Appends a unit for each byte.
pub fn push_ascii(units: &mut Vec<u16>, bytes: &[u8]) -> Result<(), AllocFailed<u16>>
    ensures { OnOk result (units.new.items ≡ units.old.items ++ bytes.now) }
{
    for byte in bytes {
        units.push(u16::from(*byte))?;
    }
    Ok(())
}

/// A unit for each byte.
pub(crate) fn ascii_units(alloc: Global, bytes: &[u8]) -> Result<Vec<u16>, AllocError>
    ensures { IfOk result (λ units. units.items ≡ bytes.now) }
{
    let mut units = Vec::new(alloc);
    push_ascii(&mut units, bytes)?;
    Ok(units)
}

/// Whether there is a unit for each byte, and no other.
pub fn spells(mut units: &[u16], mut bytes: &[u8]) -> bool
    ensures { result ≡ bytes_eq bytes.entry.now units.entry.now }
{
    while let [byte, rest @ ..] = bytes {
        let [unit, others @ ..] = units else {
            return false;
        };
        if u16::from(*byte) != *unit {
            return false;
        }
        bytes = rest;
        units = others;
    }
    units.is_empty()
}
