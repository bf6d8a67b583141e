//! Sums and comparisons of abstract primitives (ES3 11.6.1, 11.8.5): of two constants as they are,
//! of texts by their classes, and else by their numbers.

ghost use Rattle.std.specs.Prelude.{◌≡◌, IfOk};
ghost use Rattle.ja_prim.specs.Comparison.{add, less};
ghost use Rattle.ja_abstract.specs.Primitives.{is_text_atom, add_atoms, compare_atoms, exact, compared};
ghost use Rattle.ja_absprim.specs.Primitives.{abstracted_of, atom_of};

use crate::arithmetic::{Arithmetic, is_nan};
use crate::made::{of_text_part, undefined};
use crate::operands::{Operand, on_operands};
use crate::pairs::Pairing;
use crate::{Abstracted, Atom};
use ja_abstract::TextPart;
use ja_base::Memory;
use ja_prim::{PrimFault, Primitive, Stop, add, compare};
use ja_value::AValue;
use std::alloc::Global;

/// Whether an atom is of texts.
fn is_text(atom: &Atom) -> bool
    ensures { result ≡ is_text_atom (atom_of atom.now) }
{
    match atom {
        Atom::Exactly(Primitive::Text(_)) => true,
        Atom::IndexText | Atom::OtherText | Atom::AnyText => true,
        _ => false,
    }
}

/// Just the sum of two primitives, or that the profile is left.
fn sum(alloc: Global, q: &Primitive, r: &Primitive) -> Result<Abstracted, Memory>
    ensures { IfOk result (λ given. abstracted_of given ≡ exact (add q.now r.now)) }
{
    match add(alloc, q, r) {
        Ok(sum) => {
            let value = AValue::of_primitive(alloc, &sum)?;
            Ok(Abstracted::gives(value))
        }
        Err(PrimFault::Stop(_)) => Ok(Abstracted::gives_or_stops(AValue::empty(alloc))),
        Err(PrimFault::Memory) => Err(Memory),
    }
}

/// The sum of two atoms.
pub fn add_atoms(alloc: Global, a: &Atom, b: &Atom) -> Result<Abstracted, Memory>
    ensures { IfOk result (λ r. abstracted_of r ≡ add_atoms (atom_of a.now) (atom_of b.now)) }
{
    if let (Atom::Exactly(q), Atom::Exactly(r)) = (a, b) {
        return sum(alloc, q, r);
    }
    if is_text(a) || is_text(b) {
        return Ok(Abstracted::gives_or_stops(of_text_part(alloc, TextPart::Text)));
    }
    on_operands(alloc, &Arithmetic::Add, a, b)
}

/// Just a truth value, or undefined where a NaN takes part, or that the profile is left.
fn order(alloc: Global, less: Result<Option<bool>, Stop>) -> Abstracted
    ensures { abstracted_of result ≡ exact (compared less) }
{
    match less {
        Ok(Some(less)) => Abstracted::gives(AValue::of_bool(alloc, less)),
        Ok(None) => Abstracted::gives(undefined(alloc)),
        Err(_) => Abstracted::gives_or_stops(AValue::empty(alloc)),
    }
}

/// Which of two numbers is less.
struct Comparing;

impl Pairing<Operand> for Comparing {
    ghost use Rattle.ja_abstract.specs.Primitives.{compare_operands};

    ghost pair_gives = { λ _. compare_operands };

    fn pair(&self, alloc: Global, x: &Operand, y: &Operand) -> Result<Abstracted, Memory> {
        if let (Some(m), Some(n)) = (x, y) {
            let less = compare(&Primitive::Number(*m), &Primitive::Number(*n));
            return Ok(order(alloc, less));
        }
        if is_nan(*x) || is_nan(*y) {
            return Ok(Abstracted::gives(undefined(alloc)));
        }
        Ok(Abstracted::both(alloc))
    }
}

/// Whether an atom is less than another, undefined standing for a comparison with NaN.
pub fn compare_atoms(alloc: Global, a: &Atom, b: &Atom) -> Result<Abstracted, Memory>
    ensures { IfOk result (λ r. abstracted_of r ≡ compare_atoms (atom_of a.now) (atom_of b.now)) }
{
    if let (Atom::Exactly(q), Atom::Exactly(r)) = (a, b) {
        return Ok(order(alloc, compare(q, r)));
    }
    if is_text(a) && is_text(b) {
        return Ok(Abstracted::both(alloc));
    }
    on_operands(alloc, &Comparing, a, b)
}
