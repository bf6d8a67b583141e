ghost use Rattle.std.specs.Prelude.{◌≡◌, ◌≤◌, ◌++◌, ◌*◌, ◌^◌, min};
ghost use Rattle.std.specs.Char.{digit_value};
ghost use Rattle.std.specs.Str.Parse.{digits_value, digits_value_after};
ghost use Rattle.ja_prim.specs.code.Capped as spec;

use crate::int::MAX_MAGNITUDE;
use crate::{Int, Num, Stop};

/// One more than the greatest magnitude of a number.
pub const CAP: u64 = 9_007_199_254_740_992;

/// The value of a digit or a letter, 36 of any other unit.
pub fn digit(unit: u16) -> u64
    ensures value { result ≡ digit_value unit }
    ensures within { result ≤ 36 }
{
    let value = if unit < 48 {
        36
    } else if unit < 58 {
        unit - 48
    } else if unit < 65 {
        36
    } else if unit < 91 {
        unit - 55
    } else if unit < 97 {
        36
    } else if unit < 123 {
        unit - 87
    } else {
        36
    };
    u64::from(value)
}

/// The number that digits write behind those of `start`, or `cap` where it is greater.
pub fn capped_after(cap: u64, radix: u64, start: u64, digits: &[u16]) -> u64
    requires low { 1 ≤ radix }
    requires within { start ≤ cap }
    ensures { result ≡ min (digits_value_after radix start digits.now) cap }
{
    let mut value = start;
    'digits: for unit in digits {
        value = value
            .saturating_mul(radix)
            .saturating_add(digit(*unit))
            .min(cap);
    }
    value
}

/// The number that two runs of decimal digits write together, or `cap` where it is greater.
pub fn capped_both(cap: u64, front: &[u16], back: &[u16]) -> u64
    ensures { result ≡ min (digits_value 10 (front.now ++ back.now)) cap }
{
    capped_after(cap, 10, capped_after(cap, 10, 0, front), back)
}

/// A number times 10 to a power, or 2^53 where that is greater.
pub fn raised(value: u64, power: u64) -> u64
    requires { value ≤ 9007199254740992 }
    ensures { result ≡ spec.capped (value * 10 ^ power) }
{
    let mut product = value;
    'times: for _time in 0..power.min(16) {
        product = (product * 10).min(CAP);
    }
    product
}

/// The number with this whole part, or 2^53 for any greater one, and with something behind the
/// point where it isn't whole: `Range` exactly where its magnitude is greater than
/// 9,007,199,254,740,991, and else `Fraction` exactly where it isn't whole.
#[tactic(auto, unfolding(crate::specs::code::Capped::parted))]
pub fn judge(negative: bool, value: u64, whole: bool) -> Result<Num, Stop>
    requires { value ≤ 9007199254740992 }
    ensures { result ≡ spec.parted negative value whole }
{
    let magnitude = value as i64;
    if magnitude > MAX_MAGNITUDE || (magnitude == MAX_MAGNITUDE && !whole) {
        return Err(Stop::Range);
    }
    if !whole {
        return Err(Stop::Fraction);
    }
    match Int::new(if negative { -magnitude } else { magnitude }) {
        None => Err(Stop::Range),
        Some(n) => Ok(Num::Whole(n)),
    }
}
