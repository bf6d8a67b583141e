//! The numbers that operations take of atoms.

ghost use Rattle.std.specs.Prelude.{◌≡◌, ◌∷◌, [], IfOk, Some, None};
ghost use Rattle.ja_prim.specs.declared.primitive.Num.TheVariants as num;
ghost use Rattle.ja_abstract.specs.Primitives.{operands, on_operands, to_num_atom};
ghost use Rattle.ja_absprim.specs.Primitives.{abstracted_of, atom_of};

use crate::pairs::{Pairing, over_pairs};
use crate::{Abstracted, Atom};
use ja_base::Memory;
use ja_prim::{Num, to_num};
use std::alloc::Global;

/// A number that an operation takes: just one, or any whole one.
pub type Operand = Option<Num>;

/// A list of one number.
fn one(alloc: Global, number: Operand) -> Result<Vec<Operand>, Memory>
    ensures { IfOk result (λ v. v.items ≡ number ∷ []) }
{
    let mut list = Vec::new(alloc);
    list.push(number)?;
    Ok(list)
}

/// NaN, and any whole number.
fn nan_and_whole(alloc: Global) -> Result<Vec<Operand>, Memory>
    ensures { IfOk result (λ v. v.items ≡ Some num.NaN ∷ None ∷ []) }
{
    let mut list = one(alloc, Some(Num::NaN))?;
    list.push(None)?;
    Ok(list)
}

/// The numbers of an atom, converted.
pub fn operands(alloc: Global, atom: &Atom) -> Result<Vec<Operand>, Memory>
    ensures { IfOk result (λ v. v.items ≡ operands (atom_of atom.now)) }
{
    match atom {
        Atom::Exactly(primitive) => match to_num(primitive) {
            Ok(number) => one(alloc, Some(number)),
            Err(_) => Ok(Vec::new(alloc)),
        },
        Atom::OtherText | Atom::AnyText => nan_and_whole(alloc),
        Atom::Index | Atom::OtherWhole | Atom::Whole | Atom::IndexText => one(alloc, None),
    }
}

/// Whether the conversion of an atom to a number may leave the profile.
pub fn may_stop(atom: &Atom) -> bool
    ensures { result ≡ (to_num_atom (atom_of atom.now)).may_stop }
{
    match atom {
        Atom::Exactly(primitive) => to_num(primitive).is_err(),
        Atom::OtherText | Atom::AnyText => true,
        Atom::Index | Atom::OtherWhole | Atom::Whole | Atom::IndexText => false,
    }
}

/// What an operation on numbers gives of two atoms.
pub fn on_operands<P: Pairing<Operand>>(
    alloc: Global,
    pairing: &P,
    a: &Atom,
    b: &Atom,
) -> Result<Abstracted, Memory>
    ensures { IfOk result (λ r. abstracted_of r
        ≡ on_operands (P.pair_gives pairing.now) (atom_of a.now) (atom_of b.now)) }
{
    let list = operands(alloc, a)?;
    let others = operands(alloc, b)?;
    let mut given = over_pairs(alloc, pairing, &list, &others)?;
    given.may_stop = may_stop(a) | may_stop(b) | given.may_stop;
    Ok(given)
}
