ghost use Rattle.std.specs.Prelude.{◌≡◌, ◌≤◌, ◌<◌, false, ◌+◌, ◌++◌, ◌*◌, ◌^◌, ◌==◌, length, take, drop};
ghost use Rattle.std.specs.Str.Parse.{digits_value, AllDigits};
ghost use Rattle.ja_prim.specs.code.Capped.{parted};
ghost use Rattle.ja_prim.specs.Judged.{judged};
ghost use Rattle.ja_prim.specs.Numerals as spec;

use crate::capped::{CAP, capped_after, capped_both, judge, raised};
use crate::{Num, Stop};

/// The number that the first `count` of two runs of digits write, with noughts behind them and the
/// other digits behind its point.
fn cut(
    negative: bool,
    whole: &[u16],
    places: &[u16],
    count: usize,
    noughts: u64,
) -> Result<Num, Stop>
    requires { count ≤ length whole.now + length places.now }
    ensures { result ≡ parted negative (digits_value 10 (take count (whole.now ++ places.now)) * 10
        ^ noughts) (digits_value 10 (drop count (whole.now ++ places.now)) == 0) }
{
    let first = count.min(whole.len());
    let second = count - first;
    let (front, front_rest) = whole.split_at(first);
    let (back, back_rest) = places.split_at(second);
    let value = raised(capped_both(CAP, front, back), noughts);
    judge(negative, value, capped_both(1, front_rest, back_rest) == 0)
}

/// The number that two runs of digits write, with a point between them, times 10 to the power that
/// other digits write, or to that power's opposite (ES3 7.8.3, 9.3.1). `Range` comes exactly where
/// its magnitude is greater than 9,007,199,254,740,991, and else `Fraction` exactly where it isn't
/// whole.
pub fn placed(
    negative: bool,
    below: bool,
    whole: &[u16],
    places: &[u16],
    exponent: &[u16],
) -> Result<Num, Stop>
    requires all { AllDigits 10 (whole.now ++ places.now) }
    requires short { length whole.now < 2 ^ 63 }
    requires short_places { length places.now < 2 ^ 63 }
    ensures { result ≡ spec.placed negative below (digits_value 10 (whole.now ++ places.now))
        (digits_value 10 exponent.now) (length places.now) }
{
    let power = capped_after(u64::MAX, 10, 0, exponent);
    if below {
        let count = whole.len().saturating_sub(power as usize);
        cut(negative, whole, places, count, 0)
    } else {
        let count = whole.len() + places.len().min(power as usize);
        cut(
            negative,
            whole,
            places,
            count,
            power.saturating_sub(places.len() as u64),
        )
    }
}

/// The number that hexadecimal digits write (ES3 7.8.3, 9.3.1), or `Range` exactly where it is
/// greater than 9,007,199,254,740,991.
#[tactic(auto, using(crate::proofs::Judging::hexadecimal_value))]
pub fn hexadecimal_value(digits: &[u16]) -> Result<Num, Stop>
    ensures { result ≡ judged false (digits_value 16 digits.now) 1 }
{
    judge(false, capped_after(CAP, 16, 0, digits), true)
}
