ghost use Rattle.std.specs.Prelude.{◌≡◌, ◌<◌, ◌^◌, ◌*ℤ◌, pos};
ghost use Rattle.ja_prim.specs.Bits as spec;

use crate::Num;
use crate::arithmetic::whole;

/// How many numbers 32 bits can tell apart: 2^32.
const MODULUS: i64 = 4_294_967_296;

/// The residue of a whole number modulo 2^32.
fn residue(n: i64) -> u32
    ensures { result ≡ spec.residue n }
{
    n.rem_euclid(MODULUS) as u32
}

/// The number from -2^31 to 2^31 - 1 that has this residue.
fn signed(residue: u32) -> i32
    ensures { result ≡ spec.signed_of residue }
{
    if residue < 2_147_483_648 {
        residue as i32
    } else {
        (i64::from(residue) - MODULUS) as i32
    }
}

/// ToUint32 (9.6): the residue modulo 2^32, from 0 to 4,294,967,295. Of NaN it is 0.
pub fn to_uint32(a: Num) -> u32
    ensures { result ≡ spec.to_uint32 a }
{
    match a {
        Num::NaN => 0,
        Num::Whole(n) => residue(n.get()),
    }
}

/// ToInt32 (9.5): the number from -2,147,483,648 to 2,147,483,647 that has the same residue modulo
/// 2^32. Of NaN it is 0.
pub fn to_int32(a: Num) -> i32
    ensures { result ≡ spec.to_int32 a }
{
    signed(to_uint32(a))
}

/// How many places a shift by this number moves: its residue modulo 32.
fn places(b: Num) -> u32
    ensures count { result ≡ spec.places b }
    ensures few { result < 32 }
{
    to_uint32(b) & 31
}

/// 2 to the power of a number of places.
fn power(places: u32) -> u32
    requires { places < 32 }
    ensures { result ≡ 2 ^ places }
{
    1 << places
}

/// A number times 2 to the power of a number of places.
fn moved(n: i32, places: u32) -> i64
    requires { places < 32 }
    ensures { result ≡ n *ℤ pos (2 ^ places) }
{
    i64::from(n) * i64::from(power(places))
}

/// The left shift (11.7.1) of `a`'s 32 bits by `b` modulo 32 places, as a signed number.
pub fn shl(a: Num, b: Num) -> Num
    ensures { result ≡ spec.shl a b }
{
    whole(i64::from(signed(residue(moved(to_int32(a), places(b))))))
}

/// The right shift with sign (11.7.2) of `a`'s 32 bits by `b` modulo 32 places.
pub fn shr(a: Num, b: Num) -> Num
    ensures { result ≡ spec.shr a b }
{
    whole(i64::from(to_int32(a) >> places(b)))
}

/// The right shift without sign (11.7.3) of `a`'s 32 bits by `b` modulo 32 places, from 0 to
/// 4,294,967,295.
pub fn ushr(a: Num, b: Num) -> Num
    ensures { result ≡ spec.ushr a b }
{
    whole(i64::from(to_uint32(a) >> places(b)))
}

/// AND of the 32 bits of two numbers (11.10), as a signed number.
pub fn and(a: Num, b: Num) -> Num
    ensures { result ≡ spec.and a b }
{
    whole(i64::from(signed(to_uint32(a) & to_uint32(b))))
}

/// OR of the 32 bits of two numbers (11.10), as a signed number.
pub fn or(a: Num, b: Num) -> Num
    ensures { result ≡ spec.or a b }
{
    whole(i64::from(signed(to_uint32(a) | to_uint32(b))))
}

/// XOR of the 32 bits of two numbers (11.10), as a signed number.
pub fn xor(a: Num, b: Num) -> Num
    ensures { result ≡ spec.xor a b }
{
    whole(i64::from(signed(to_uint32(a) ^ to_uint32(b))))
}

/// The 32 bits of a number, each turned (11.4.8), as a signed number.
pub fn not(a: Num) -> Num
    ensures { result ≡ spec.not a }
{
    whole(i64::from(signed(!to_uint32(a))))
}
