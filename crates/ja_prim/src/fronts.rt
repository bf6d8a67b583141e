//! The number at the front of a text (ES3 15.1.2.2, 15.1.2.3).

ghost use Rattle.std.specs.Prelude.{◌≡◌, ◌≤◌, ◌<◌, ◌^◌, length, nat_lt};
ghost use Rattle.std.specs.Char.{digit_value};
ghost use Rattle.std.specs.List.{prefix_len, take_while};
ghost use Rattle.ja_prim.specs.Blanks.{behind_blanks};
ghost use Rattle.ja_prim.specs.Fronts as spec;

use crate::blanks::blanks_before;
use crate::capped::{CAP, capped_after, digit, judge};
use crate::literals::{
    INFINITY, begins_hexadecimal, behind, behind_digits, behind_fraction, digits, exponent,
    fraction, unit_at, unsigned,
};
use crate::values::placed;
use crate::{Num, Stop};

/// How many digits of a radix stand first.
fn radix_count(radix: u64, units: &[u16]) -> usize
    ensures value { result ≡ prefix_len (λ c. nat_lt (digit_value c) radix) units.now }
    ensures within { result ≤ length units.now }
{
    'units: for (i, unit) in units.iter().enumerate() {
        if digit(*unit) >= radix {
            return i;
        }
    }
    units.len()
}

/// The digits of a radix that stand first.
fn radix_digits(radix: u64, units: &[u16]) -> &[u16]
    ensures { result.now ≡ take_while (λ c. nat_lt (digit_value c) radix) units.now }
{
    &units[..radix_count(radix, units)]
}

/// The number that the digits of a radix write which stand first, or NaN where there are none.
#[tactic(auto, using(crate::proofs::Judging::whole_value), unfolding(crate::specs::Fronts::integer))]
fn integer(negative: bool, radix: u64, units: &[u16]) -> Result<Num, Stop>
    requires { 1 ≤ radix }
    ensures { result ≡ spec.integer negative radix units.now }
{
    let digits = radix_digits(radix, units);
    if digits.is_empty() {
        return Ok(Num::NaN);
    }
    judge(negative, capped_after(CAP, radix, 0, digits), true)
}

/// What stands behind `0x` or `0X`.
#[tactic(auto, unfolding(crate::specs::Fronts::behind_prefix))]
fn behind_prefix(units: &[u16]) -> &[u16]
    ensures { result.now ≡ spec.behind_prefix units.now }
{
    if begins_hexadecimal(units) {
        behind(units, 2)
    } else {
        units
    }
}

/// The same by a radix; 0 is none given.
#[tactic(auto, unfolding(crate::specs::Fronts::integer_by))]
fn integer_by(negative: bool, radix: u64, units: &[u16]) -> Result<Num, Stop>
    ensures { result ≡ spec.integer_by negative radix units.now }
{
    if radix == 0 {
        if begins_hexadecimal(units) {
            return integer(negative, 16, behind_prefix(units));
        }
        return integer(negative, 10, behind_prefix(units));
    }
    if radix == 16 {
        return integer(negative, 16, behind_prefix(units));
    }
    if radix < 2 || radix > 36 {
        return Ok(Num::NaN);
    }
    integer(negative, radix, units)
}

/// The units behind the blank ones that stand first.
#[tactic(auto, unfolding(crate::specs::Blanks::behind_blanks))]
fn behind_blanks(units: &[u16]) -> &[u16]
    ensures value { result.now ≡ behind_blanks units.now }
    ensures within { length result.now ≤ length units.now }
{
    &units[blanks_before(units)..]
}

/// The whole number at the front of a text, by a radix (ES3 15.1.2.2).
#[tactic(auto, unfolding(crate::specs::Fronts::front_integer))]
pub fn front_integer(radix: u64, units: &[u16]) -> Result<Num, Stop>
    ensures { result ≡ spec.front_integer radix units.now }
{
    let rest = behind_blanks(units);
    integer_by(unit_at(rest, 0) == 45, radix, unsigned(rest))
}

/// The longest decimal literal at the front of a text.
#[tactic(auto, using(crate::proofs::Digits::all_digits_append), unfolding(crate::specs::Fronts::decimal_front, crate::specs::Numerals::decimal_value))]
fn decimal_front(negative: bool, units: &[u16]) -> Result<Num, Stop>
    requires { length units.now < 2 ^ 63 }
    ensures { result ≡ spec.decimal_front negative units.now }
{
    if units.starts_with(INFINITY.as_slice()) {
        return Err(Stop::Range);
    }
    let whole = digits(units);
    let places = fraction(behind_digits(units));
    let rest = behind_fraction(behind_digits(units));
    if whole.is_empty() && places.is_empty() {
        return Ok(Num::NaN);
    }
    placed(
        negative,
        unit_at(rest, 1) == 45,
        whole,
        places,
        exponent(rest),
    )
}

/// The number at the front of a text (ES3 15.1.2.3).
#[tactic(auto, unfolding(crate::specs::Fronts::front_decimal))]
pub fn front_decimal(units: &[u16]) -> Result<Num, Stop>
    requires { length units.now < 2 ^ 63 }
    ensures { result ≡ spec.front_decimal units.now }
{
    let rest = behind_blanks(units);
    decimal_front(unit_at(rest, 0) == 45, unsigned(rest))
}
