//! Arithmetic on abstract primitives (ES3 11.5, 11.6), and the operations on 32 bits (11.7, 11.10).

ghost use Rattle.std.specs.Prelude.{◌≡◌};
ghost use Rattle.ja_abstract.specs.Primitives.{is_nan};
ghost use Rattle.ja_absprim.specs.Primitives.{abstracted_of};
ghost use Rattle.ja_absprim.specs.code.Arithmetic.{numbers_of, class_of, bits_of};

use crate::Abstracted;
use crate::made::{nan, nan_or_whole, of_num, whole};
use crate::operands::Operand;
use crate::pairs::Pairing;
use ja_base::Memory;
use ja_prim as prim;
use ja_prim::{Num, Stop};
use std::alloc::Global;

/// An operation on two numbers that may leave the profile.
#[derive(Clone, Copy)]
pub enum Arithmetic {
    Add,
    Sub,
    Mul,
    Div,
    Rem,
}

/// What an operation gives of just two numbers.
fn of_numbers(op: Arithmetic, m: Num, n: Num) -> Result<Num, Stop>
    ensures { result ≡ numbers_of op m n }
{
    match op {
        Arithmetic::Add => prim::add_numbers(m, n),
        Arithmetic::Sub => prim::sub(m, n),
        Arithmetic::Mul => prim::mul(m, n),
        Arithmetic::Div => prim::div(m, n),
        Arithmetic::Rem => prim::rem(m, n),
    }
}

/// What an operation gives of any two whole numbers.
fn of_class(alloc: Global, op: Arithmetic) -> Abstracted
    ensures { abstracted_of result ≡ class_of op }
{
    match op {
        Arithmetic::Add => Abstracted::gives_or_stops(whole(alloc)),
        Arithmetic::Sub => Abstracted::gives_or_stops(whole(alloc)),
        Arithmetic::Mul => Abstracted::gives_or_stops(whole(alloc)),
        Arithmetic::Div => Abstracted::gives_or_stops(nan_or_whole(alloc)),
        Arithmetic::Rem => Abstracted::gives(nan_or_whole(alloc)),
    }
}

/// Whether an operand is NaN.
pub fn is_nan(x: Operand) -> bool
    ensures { result ≡ is_nan x }
{
    match x {
        Some(Num::NaN) => true,
        _ => false,
    }
}

impl Pairing<Operand> for Arithmetic {
    ghost use Rattle.ja_abstract.specs.Primitives.{combine};

    ghost pair_gives = { λ op. combine (numbers_of op) (class_of op) };

    fn pair(&self, alloc: Global, x: &Operand, y: &Operand) -> Result<Abstracted, Memory> {
        if let (Some(m), Some(n)) = (x, y) {
            let number = of_numbers(*self, *m, *n);
            return Ok(Abstracted::exact_number(alloc, number));
        }
        if is_nan(*x) || is_nan(*y) {
            return Ok(Abstracted::gives(nan(alloc)));
        }
        Ok(of_class(alloc, *self))
    }
}

/// An operation on 32 bits.
#[derive(Clone, Copy)]
pub enum Bits {
    Shl,
    Shr,
    Ushr,
    And,
    Or,
    Xor,
}

/// What an operation gives of the bits of just two numbers.
fn of_bits(op: Bits, m: Num, n: Num) -> Num
    ensures { result ≡ bits_of op m n }
{
    match op {
        Bits::Shl => prim::shl(m, n),
        Bits::Shr => prim::shr(m, n),
        Bits::Ushr => prim::ushr(m, n),
        Bits::And => prim::and(m, n),
        Bits::Or => prim::or(m, n),
        Bits::Xor => prim::xor(m, n),
    }
}

impl Pairing<Operand> for Bits {
    ghost use Rattle.ja_abstract.specs.Primitives.{combine_bits};

    ghost pair_gives = { λ op. combine_bits (bits_of op) };

    fn pair(&self, alloc: Global, x: &Operand, y: &Operand) -> Result<Abstracted, Memory> {
        if let (Some(m), Some(n)) = (x, y) {
            let number = of_bits(*self, *m, *n);
            return Ok(Abstracted::gives(of_num(alloc, number)));
        }
        Ok(Abstracted::gives(whole(alloc)))
    }
}
