//! The binary operators on abstract primitives (ES3 11.5 to 11.10).

ghost use Rattle.std.specs.Prelude.{◌≡◌, IfOk};
ghost use Rattle.ja_abstract.specs.Primitives.{abstract_binary, operator};
ghost use Rattle.ja_abstract.specs.Primitives as spec;
ghost use Rattle.ja_value.specs.Value.{value_of};
ghost use Rattle.ja_absprim.specs.Primitives.{abstracted_of};

use crate::arithmetic::{Arithmetic, Bits};
use crate::comparison::{add_atoms, compare_atoms};
use crate::equality::{loose_atoms, strict_atoms};
use crate::made::of_bools;
use crate::operands::on_operands;
use crate::pairs::{Pairing, over_pairs};
use crate::{Abstracted, Atom, atoms_of};
use ja_base::Memory;
use ja_graph::BinaryOp;
use ja_value::AValue;
use std::alloc::Global;

impl Pairing<Atom> for BinaryOp {
    ghost use Rattle.ja_abstract.specs.Primitives.{operator};
    ghost use Rattle.ja_absprim.specs.Primitives.{atom_of};

    ghost pair_gives = { λ op a b. operator op (atom_of a) (atom_of b) };

    fn pair(&self, alloc: Global, a: &Atom, b: &Atom) -> Result<Abstracted, Memory> {
        match self {
            BinaryOp::Add => add_atoms(alloc, a, b),
            BinaryOp::Sub => on_operands(alloc, &Arithmetic::Sub, a, b),
            BinaryOp::Mul => on_operands(alloc, &Arithmetic::Mul, a, b),
            BinaryOp::Div => on_operands(alloc, &Arithmetic::Div, a, b),
            BinaryOp::Rem => on_operands(alloc, &Arithmetic::Rem, a, b),
            BinaryOp::Shl => on_operands(alloc, &Bits::Shl, a, b),
            BinaryOp::Shr => on_operands(alloc, &Bits::Shr, a, b),
            BinaryOp::Ushr => on_operands(alloc, &Bits::Ushr, a, b),
            BinaryOp::And => on_operands(alloc, &Bits::And, a, b),
            BinaryOp::Or => on_operands(alloc, &Bits::Or, a, b),
            BinaryOp::Xor => on_operands(alloc, &Bits::Xor, a, b),
            BinaryOp::Lt | BinaryOp::Ge => compare_atoms(alloc, a, b),
            BinaryOp::Gt | BinaryOp::Le => compare_atoms(alloc, b, a),
            BinaryOp::LooseEq | BinaryOp::LooseNe => loose_atoms(alloc, a, b),
            BinaryOp::StrictEq | BinaryOp::StrictNe => Ok(strict_atoms(alloc, a, b)),
        }
    }
}

/// What an operator gives of the primitives of two values, and whether it may leave the profile:
/// a number, a text or a truth value, and undefined where a comparison may meet NaN. Of an order
/// or an equality [`finished`] makes what the operator says of it.
pub fn binary(alloc: Global, op: BinaryOp, a: &AValue, b: &AValue) -> Result<Abstracted, Memory>
    ensures { IfOk result (λ r. abstracted_of r
        ≡ abstract_binary (operator op) (value_of a.now) (value_of b.now)) }
{
    let list = atoms_of(alloc, a)?;
    let others = atoms_of(alloc, b)?;
    over_pairs(alloc, &op, &list, &others)
}

/// What is made of an operator's result on primitives (ES3 11.8.1 to 11.8.4, 11.9.2, 11.9.5).
pub fn finished(alloc: Global, op: BinaryOp, value: AValue) -> AValue
    ensures { value_of result ≡ spec.finished op (value_of value) }
{
    let flags = value.flags;
    match op {
        BinaryOp::Lt | BinaryOp::Gt => {
            of_bools(alloc, flags.is_true, flags.is_false | flags.undefined)
        }
        BinaryOp::Le | BinaryOp::Ge => {
            of_bools(alloc, flags.is_false, flags.is_true | flags.undefined)
        }
        BinaryOp::LooseNe | BinaryOp::StrictNe => of_bools(alloc, flags.is_false, flags.is_true),
        _ => value,
    }
}
