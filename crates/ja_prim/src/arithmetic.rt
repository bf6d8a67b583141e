ghost use Rattle.std.specs.Prelude.{◌≡◌, pos, neg_ℤ, ◌≤ℤ◌, ◌*ℤ◌, IsOk};
ghost use Rattle.ja_prim.specs.Arithmetic as spec;

use crate::int::MAX_MAGNITUDE;
use crate::{Int, Num, Stop};

/// The number n, whose magnitude is at most 9,007,199,254,740,991.
pub(crate) fn whole(n: i64) -> Num
    requires low { neg_ℤ (pos 9007199254740991) ≤ℤ n }
    requires high { n ≤ℤ pos 9007199254740991 }
    ensures { result ≡ Num.Whole n }
{
    Num::Whole(Int::new(n).unwrap())
}

/// An exact whole number, or `Range` exactly where its magnitude is greater than
/// 9,007,199,254,740,991.
fn judged(n: i128) -> Result<Num, Stop>
    ensures { result ≡ spec.judged_whole n }
{
    let greatest = i128::from(MAX_MAGNITUDE);
    if n < -greatest || n > greatest {
        return Err(Stop::Range);
    }
    Ok(whole(n as i64))
}

/// The exact sum of two numbers (11.6.3): NaN where one is NaN, and `Range` where its magnitude is
/// greater than 9,007,199,254,740,991.
pub fn add_numbers(a: Num, b: Num) -> Result<Num, Stop>
    ensures { result ≡ spec.add a b }
{
    let Num::Whole(m) = a else {
        return Ok(Num::NaN);
    };
    let Num::Whole(n) = b else {
        return Ok(Num::NaN);
    };
    judged(i128::from(m.get()) + i128::from(n.get()))
}

/// The exact difference of two numbers (11.6.3): NaN where one is NaN, and `Range` where its
/// magnitude is greater than 9,007,199,254,740,991.
pub fn sub(a: Num, b: Num) -> Result<Num, Stop>
    ensures { result ≡ spec.sub a b }
{
    add_numbers(a, neg(b))
}

/// The product of two whole numbers.
fn product(m: Int, n: Int) -> i128
    ensures { result ≡ m *ℤ n }
{
    i128::from(m.get()) * i128::from(n.get())
}

/// The exact product of two numbers (11.5.1): NaN where one is NaN, and `Range` where its magnitude
/// is greater than 9,007,199,254,740,991.
pub fn mul(a: Num, b: Num) -> Result<Num, Stop>
    ensures { result ≡ spec.mul a b }
{
    let Num::Whole(m) = a else {
        return Ok(Num::NaN);
    };
    let Num::Whole(n) = b else {
        return Ok(Num::NaN);
    };
    judged(product(m, n))
}

/// The exact quotient of two whole numbers: NaN for 0 by 0, `Range` for another number by 0, and
/// else `Fraction` where it isn't whole.
fn quotient(m: Int, n: Int) -> Result<Num, Stop>
    ensures { result ≡ spec.quotient m n }
{
    let (m, n) = (m.get(), n.get());
    if n == 0 {
        return if m == 0 {
            Ok(Num::NaN)
        } else {
            Err(Stop::Range)
        };
    }
    if m % n != 0 {
        return Err(Stop::Fraction);
    }
    Ok(whole(m / n))
}

/// The exact quotient of two numbers (11.5.2). It is NaN where one is NaN, and for 0 by 0. `Range`
/// comes where another number is divided by 0, and else `Fraction` where the quotient isn't whole.
pub fn div(a: Num, b: Num) -> Result<Num, Stop>
    ensures { result ≡ spec.div a b }
{
    let Num::Whole(m) = a else {
        return Ok(Num::NaN);
    };
    let Num::Whole(n) = b else {
        return Ok(Num::NaN);
    };
    quotient(m, n)
}

/// The remainder of two numbers, with the sign of the dividend (11.5.3): NaN where one is NaN, and
/// where the divisor is 0. There always is one.
pub fn rem(a: Num, b: Num) -> Result<Num, Stop>
    ensures value { result ≡ spec.rem a b }
    ensures always { IsOk result }
{
    let Num::Whole(m) = a else {
        return Ok(Num::NaN);
    };
    let Num::Whole(n) = b else {
        return Ok(Num::NaN);
    };
    if n.get() == 0 {
        return Ok(Num::NaN);
    }
    Ok(whole(m.get() % n.get()))
}

/// The opposite of a number (11.4.7), and of NaN NaN.
pub fn neg(a: Num) -> Num
    ensures { result ≡ spec.neg a }
{
    match a {
        Num::NaN => Num::NaN,
        Num::Whole(n) => whole(-n.get()),
    }
}
