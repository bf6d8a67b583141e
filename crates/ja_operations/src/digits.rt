//! The digits of a number (ES3 15.7.4.2).

ghost use Rattle.std.specs.Prelude.{◌≡◌, ◌≤◌, ◌<◌, false, length, IfOk};
ghost use Rattle.std.specs.Fmt.{digit_glyph, digits};
ghost use Rattle.ja_machine.specs.TextOperations.{max_radix, min_radix, radix_text};

use ja_base::Memory;
use ja_prim::{Num, Text16};
use std::alloc::Global;

/// The digit of a number below the greatest radix, in lower case.
fn digit(n: u64) -> u16
    requires { n < max_radix }
    ensures { result ≡ digit_glyph false n }
{
    if n < 10 { 48 + n as u16 } else { 87 + n as u16 }
}

/// The digits of a number that isn't negative: at most 64, since there are two digits or more.
fn digits(alloc: Global, n: u64, radix: u64) -> Result<Vec<u16>, Memory>
    requires low { min_radix ≤ radix }
    requires high { radix ≤ max_radix }
    ensures digits { IfOk result (λ units. units.items ≡ digits radix false n) }
    ensures few { IfOk result (λ units. length units.items ≤ 64) }
{
    let mut units = Vec::new(alloc);
    let mut rest = n;
    for _place in 0..64u32 {
        units.insert(0, digit(rest % radix))?;
        rest = rest / radix;
        if rest == 0 {
            return Ok(units);
        }
    }
    Ok(units)
}

/// The digits of a number in a radix, with `-` before those of a negative one, or `NaN`.
pub fn radix_text(alloc: Global, number: Num, radix: u64) -> Result<Text16, Memory>
    requires low { min_radix ≤ radix }
    requires high { radix ≤ max_radix }
    ensures { IfOk result (λ text. text ≡ radix_text radix number) }
{
    match number {
        Num::NaN => Ok(Text16::from_ascii(alloc, b"NaN")?),
        Num::Whole(n) => {
            let n = n.get();
            let mut units = digits(alloc, n.unsigned_abs(), radix)?;
            if n < 0 {
                units.insert(0, 45)?;
            }
            Ok(Text16::from_units(alloc, units)?)
        }
    }
}
