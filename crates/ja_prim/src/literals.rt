ghost use Rattle.std.specs.Prelude.{◌≡◌, ◌≤◌, ◌<◌, ◌^◌, drop, length};
ghost use Rattle.std.specs.Char.{is_ascii_hexdigit};
ghost use Rattle.std.specs.List.{list_all, prefix_len};
ghost use Rattle.std.specs.Str.Parse.{AllDigits};
ghost use Rattle.ja_prim.specs.Characters.{char_at, is_digit};
ghost use Rattle.ja_prim.specs.Numerals as numerals;
ghost use Rattle.ja_prim.specs.TextToNumber as spec;

use crate::blanks::trimmed;
use crate::capped::judge;
use crate::index::is_digit;
use crate::values::{hexadecimal_value, placed};
use crate::{Num, Stop};

/// `Infinity`
pub(crate) const INFINITY: [u16; 8] = [73, 110, 102, 105, 110, 105, 116, 121];

/// The unit at an index, 0 past the end.
pub(crate) fn unit_at(units: &[u16], index: usize) -> u16
    ensures { result ≡ char_at units.now index }
{
    if index < units.len() { units[index] } else { 0 }
}

/// The units behind the first `count`.
pub(crate) fn behind(units: &[u16], count: usize) -> &[u16]
    ensures value { result.now ≡ drop count units.now }
    ensures within { length result.now ≤ length units.now }
{
    if count <= units.len() {
        &units[count..]
    } else {
        &[]
    }
}

/// How many digits stand first.
fn digit_count(units: &[u16]) -> usize
    ensures value { result ≡ prefix_len is_digit units.now }
    ensures within { result ≤ length units.now }
{
    'units: for (i, unit) in units.iter().enumerate() {
        if !is_digit(*unit) {
            return i;
        }
    }
    units.len()
}

/// The digits that stand first.
#[tactic(auto, using(crate::proofs::Digits::all_digits), unfolding(crate::specs::Numerals::digits))]
pub(crate) fn digits(units: &[u16]) -> &[u16]
    ensures value { result.now ≡ numerals.digits units.now }
    ensures within { length result.now ≤ length units.now }
    ensures all { AllDigits 10 result.now }
{
    &units[..digit_count(units)]
}

/// What stands behind the digits that stand first.
#[tactic(auto, unfolding(crate::specs::Numerals::behind_digits))]
pub(crate) fn behind_digits(units: &[u16]) -> &[u16]
    ensures value { result.now ≡ numerals.behind_digits units.now }
    ensures within { length result.now ≤ length units.now }
{
    behind(units, digit_count(units))
}

/// The digits behind a `.`, if one stands first.
#[tactic(auto, unfolding(crate::specs::Numerals::fraction))]
pub(crate) fn fraction(units: &[u16]) -> &[u16]
    ensures value { result.now ≡ numerals.fraction units.now }
    ensures within { length result.now ≤ length units.now }
    ensures all { AllDigits 10 result.now }
{
    if unit_at(units, 0) == 46 {
        digits(behind(units, 1))
    } else {
        &[]
    }
}

/// What stands behind a `.` and its digits, if one stands first.
#[tactic(auto, unfolding(crate::specs::Numerals::behind_fraction))]
pub(crate) fn behind_fraction(units: &[u16]) -> &[u16]
    ensures value { result.now ≡ numerals.behind_fraction units.now }
    ensures within { length result.now ≤ length units.now }
{
    if unit_at(units, 0) == 46 {
        behind_digits(behind(units, 1))
    } else {
        units
    }
}

/// Whether a unit is `+` or `-`.
fn is_sign(unit: u16) -> bool
    ensures { result ≡ numerals.is_sign unit }
{
    unit == 43 || unit == 45
}

/// What stands behind an exponent's letter and its sign, if it has one.
#[tactic(auto, unfolding(crate::specs::Numerals::power))]
fn power(units: &[u16]) -> &[u16]
    ensures { result.now ≡ numerals.power units.now }
{
    if is_sign(unit_at(units, 1)) {
        behind(units, 2)
    } else {
        behind(units, 1)
    }
}

/// The digits of an exponent, if one stands first.
#[tactic(auto, unfolding(crate::specs::Numerals::exponent))]
pub(crate) fn exponent(units: &[u16]) -> &[u16]
    ensures { result.now ≡ numerals.exponent units.now }
{
    if unit_at(units, 0) == 101 || unit_at(units, 0) == 69 {
        digits(power(units))
    } else {
        &[]
    }
}

/// What stands behind an exponent, if one stands first.
#[tactic(auto, unfolding(crate::specs::Numerals::behind_exponent))]
fn behind_exponent(units: &[u16]) -> &[u16]
    ensures { result.now ≡ numerals.behind_exponent units.now }
{
    if exponent(units).is_empty() {
        units
    } else {
        behind_digits(power(units))
    }
}

/// The value of a decimal literal with no sign, or NaN.
#[tactic(auto, using(crate::proofs::Digits::all_digits_append), unfolding(crate::specs::TextToNumber::decimal, crate::specs::Numerals::behind_decimal, crate::specs::Numerals::decimal_value))]
fn decimal(negative: bool, units: &[u16]) -> Result<Num, Stop>
    requires { length units.now < 2 ^ 63 }
    ensures { result ≡ spec.decimal negative units.now }
{
    let whole = digits(units);
    let places = fraction(behind_digits(units));
    let rest = behind_fraction(behind_digits(units));
    if (whole.is_empty() && places.is_empty()) || !behind_exponent(rest).is_empty() {
        return Ok(Num::NaN);
    }
    placed(
        negative,
        unit_at(rest, 1) == 45,
        whole,
        places,
        exponent(rest),
    )
}

/// What stands behind a sign, if one stands first.
#[tactic(auto, unfolding(crate::specs::TextToNumber::unsigned))]
pub(crate) fn unsigned(units: &[u16]) -> &[u16]
    ensures value { result.now ≡ spec.unsigned units.now }
    ensures within { length result.now ≤ length units.now }
{
    if is_sign(unit_at(units, 0)) {
        behind(units, 1)
    } else {
        units
    }
}

/// The value of a literal that may have a sign: a decimal literal, or `Infinity`.
#[tactic(auto, unfolding(crate::specs::TextToNumber::signed_literal))]
fn signed_literal(units: &[u16]) -> Result<Num, Stop>
    requires { length units.now < 2 ^ 63 }
    ensures { result ≡ spec.signed_literal units.now }
{
    let rest = unsigned(units);
    if rest == INFINITY.as_slice() {
        return Err(Stop::Range);
    }
    decimal(unit_at(units, 0) == 45, rest)
}

/// Whether a unit is a hexadecimal digit.
fn is_hexadecimal_digit(unit: u16) -> bool
    ensures { result ≡ is_ascii_hexdigit unit }
{
    (unit >= 48 && unit <= 57) || (unit >= 65 && unit <= 70) || (unit >= 97 && unit <= 102)
}

/// Whether all units are hexadecimal digits.
fn all_hexadecimal(units: &[u16]) -> bool
    ensures { result ≡ list_all is_ascii_hexdigit units.now }
{
    units.iter().all(|unit| is_hexadecimal_digit(*unit))
}

/// Whether `0x` or `0X` stands first.
pub(crate) fn begins_hexadecimal(units: &[u16]) -> bool
    ensures { result ≡ numerals.begins_hexadecimal units.now }
{
    unit_at(units, 0) == 48 && (unit_at(units, 1) == 120 || unit_at(units, 1) == 88)
}

/// Whether there are `0x` or `0X` and hexadecimal digits.
#[tactic(auto, unfolding(crate::specs::TextToNumber::is_hexadecimal))]
fn is_hexadecimal(units: &[u16]) -> bool
    ensures { result ≡ spec.is_hexadecimal units.now }
{
    let digits = behind(units, 2);
    unit_at(units, 0) == 48
        && (unit_at(units, 1) == 120 || unit_at(units, 1) == 88)
        && !digits.is_empty()
        && all_hexadecimal(digits)
}

/// The value of a literal with no white space at its ends.
#[tactic(auto, unfolding(crate::specs::TextToNumber::literal, crate::specs::code::Capped::parted))]
fn literal(units: &[u16]) -> Result<Num, Stop>
    requires { length units.now < 2 ^ 63 }
    ensures { result ≡ spec.literal units.now }
{
    if units.is_empty() {
        return judge(false, 0, true);
    }
    if is_hexadecimal(units) {
        return hexadecimal_value(behind(units, 2));
    }
    signed_literal(units)
}

/// The number of a text (ES3 9.3.1): without white space and line terminators at its ends nothing
/// is 0, and a decimal literal, with a sign or none, or a hexadecimal one is its exact value; any
/// other text is NaN. `Range` comes exactly where the magnitude of the value is greater than
/// 9,007,199,254,740,991, as that of `Infinity` is, and else `Fraction` exactly where the value
/// isn't whole.
#[tactic(auto, unfolding(crate::specs::TextToNumber::text_to_number))]
pub fn text_to_number(units: &[u16]) -> Result<Num, Stop>
    requires { length units.now < 2 ^ 63 }
    ensures { result ≡ spec.text_to_number units.now }
{
    literal(trimmed(units))
}
