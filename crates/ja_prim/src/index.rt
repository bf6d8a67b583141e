ghost use Rattle.std.specs.Prelude.{◌≡◌, ◌≤◌, ◌<◌, true, length};
ghost use Rattle.std.specs.List.{list_all};
ghost use Rattle.ja_prim.specs.Characters.{is_digit};
ghost use Rattle.ja_prim.specs.Conversions.{index_of};
ghost use Rattle.ja_prim.specs.Index as spec;

use crate::Text16;

/// One more than the greatest array index (ES3 15.4).
const INDEX_END: u64 = 4_294_967_295;

/// Whether a unit is a decimal digit.
pub fn is_digit(unit: u16) -> bool
    ensures { result ≡ is_digit unit }
{
    unit >= 48 && unit <= 57
}

/// Whether all units are decimal digits.
pub fn all_digits(units: &[u16]) -> bool
    ensures { result ≡ list_all is_digit units.now }
{
    units.iter().all(|unit| is_digit(*unit))
}

/// Whether the first unit is the digit 0.
fn starts_with_zero(units: &[u16]) -> bool
    ensures { result ≡ spec.starts_with_zero units.now }
{
    match units {
        [] => false,
        [first, ..] => *first == 48,
    }
}

/// The number that up to ten decimal digits write.
fn digits_value(units: &[u16]) -> u64
    requires few { length units.now ≤ 10 }
    requires all { list_all is_digit units.now ≡ true }
    ensures { result ≡ spec.with_digits 0 units.now }
{
    let mut value: u64 = 0;
    'units: for unit in units {
        value = value * 10 + u64::from(*unit - 48);
    }
    value
}

/// The array index that a text is (ES3 15.4): `Some` exactly where it is the decimal text of a
/// number from 0 to 4,294,967,294.
pub fn array_index(a: &Text16) -> Option<u32>
    ensures { result ≡ index_of a.now }
{
    let units = a.units();
    if units.is_empty() || units.len() > 10 || !all_digits(units) {
        return None;
    }
    if starts_with_zero(units) && units.len() > 1 {
        return None;
    }
    let value = digits_value(units);
    if value < INDEX_END {
        Some(value as u32)
    } else {
        None
    }
}
