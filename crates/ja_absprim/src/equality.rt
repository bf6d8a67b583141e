//! Equality of abstract primitives (ES3 11.9.3, 11.9.6).

ghost use Rattle.std.specs.Prelude.{◌≡◌, map, IfOk};
ghost use Rattle.ja_abstract.specs.AbstractValue.{number_class, text_class};
ghost use Rattle.ja_abstract.specs.Primitives.{of_atom, numbers_meet, texts_meet, may_meet, strict_atoms, is_nothing_atom, kind_of, same_kind, atoms, to_num_atom, on_converted, loose_inexact, loose_atoms};
ghost use Rattle.ja_absprim.specs.Primitives.{abstracted_of, atom_of};
ghost use Rattle.ja_absprim.specs.code.Kinds.{kind_in};

use crate::convert::to_num_atom;
use crate::made::of_bools;
use crate::operands::may_stop;
use crate::pairs::{Pairing, over_pairs};
use crate::{Abstracted, Atom, atoms_of};
use ja_abstract::{NumberPart, TextPart};
use ja_base::Memory;
use ja_prim::{Num, Primitive, loose_eq, strict_eq};
use ja_value::{AValue, is_index_text, number_class};
use std::alloc::Global;

/// The class of the numbers of an atom.
fn numbers(atom: &Atom) -> NumberPart
    ensures { result ≡ number_class (of_atom (atom_of atom.now)).number }
{
    match atom {
        Atom::Exactly(Primitive::Number(Num::Whole(number))) => {
            number_class(NumberPart::One(*number))
        }
        Atom::Index => NumberPart::Index,
        Atom::OtherWhole => NumberPart::OtherWhole,
        Atom::Whole => NumberPart::Whole,
        _ => NumberPart::Nothing,
    }
}

/// The class of the texts of an atom.
fn texts(atom: &Atom) -> TextPart
    ensures { result ≡ text_class (of_atom (atom_of atom.now)).text }
{
    match atom {
        Atom::Exactly(Primitive::Text(text)) => {
            if is_index_text(text) {
                TextPart::IndexText
            } else {
                TextPart::OtherText
            }
        }
        Atom::IndexText => TextPart::IndexText,
        Atom::OtherText => TextPart::OtherText,
        Atom::AnyText => TextPart::Text,
        _ => TextPart::Nothing,
    }
}

/// Whether two classes of numbers have one in common.
fn numbers_meet(a: NumberPart, b: NumberPart) -> bool
    ensures { result ≡ numbers_meet a b }
{
    match (a, b) {
        (NumberPart::Nothing, _) | (_, NumberPart::Nothing) => false,
        (NumberPart::Whole, _) | (_, NumberPart::Whole) => true,
        (NumberPart::Index, NumberPart::Index) => true,
        (NumberPart::OtherWhole, NumberPart::OtherWhole) => true,
        _ => false,
    }
}

/// Whether two classes of texts have one in common.
fn texts_meet(a: &TextPart, b: &TextPart) -> bool
    ensures { result ≡ texts_meet a.now b.now }
{
    match (a, b) {
        (TextPart::Nothing, _) | (_, TextPart::Nothing) => false,
        (TextPart::Text, _) | (_, TextPart::Text) => true,
        (TextPart::IndexText, TextPart::IndexText) => true,
        (TextPart::OtherText, TextPart::OtherText) => true,
        _ => false,
    }
}

/// Whether two atoms have a number or a text in common, constants counted as their classes.
fn may_meet(a: &Atom, b: &Atom) -> bool
    ensures { result ≡ may_meet (atom_of a.now) (atom_of b.now) }
{
    numbers_meet(numbers(a), numbers(b)) || texts_meet(&texts(a), &texts(b))
}

/// Whether two atoms are of one type and equal (ES3 11.9.6).
pub fn strict_atoms(alloc: Global, a: &Atom, b: &Atom) -> Abstracted
    ensures { abstracted_of result ≡ strict_atoms (atom_of a.now) (atom_of b.now) }
{
    if let (Atom::Exactly(q), Atom::Exactly(r)) = (a, b) {
        return Abstracted::gives(AValue::of_bool(alloc, strict_eq(q, r)));
    }
    Abstracted::gives(of_bools(alloc, may_meet(a, b), true))
}

/// Whether an atom is undefined or null.
fn is_nothing(atom: &Atom) -> bool
    ensures { result ≡ is_nothing_atom (atom_of atom.now) }
{
    match atom {
        Atom::Exactly(Primitive::Undefined) | Atom::Exactly(Primitive::Null) => true,
        _ => false,
    }
}

/// The types of primitives (ES3 8.1 to 8.5).
#[derive(Clone, Copy)]
enum Kind {
    Undefined,
    Null,
    Boolean,
    Number,
    Text,
}

/// The type of the primitives of an atom.
fn kind_of(atom: &Atom) -> Kind
    ensures { kind_in result ≡ kind_of (atom_of atom.now) }
{
    match atom {
        Atom::Exactly(Primitive::Undefined) => Kind::Undefined,
        Atom::Exactly(Primitive::Null) => Kind::Null,
        Atom::Exactly(Primitive::Bool(_)) => Kind::Boolean,
        Atom::Exactly(Primitive::Number(_)) => Kind::Number,
        Atom::Exactly(Primitive::Text(_)) => Kind::Text,
        Atom::Index | Atom::OtherWhole | Atom::Whole => Kind::Number,
        Atom::IndexText | Atom::OtherText | Atom::AnyText => Kind::Text,
    }
}

/// Whether two types are the same.
fn same_kind(a: Kind, b: Kind) -> bool
    ensures { result ≡ same_kind (kind_in a) (kind_in b) }
{
    match (a, b) {
        (Kind::Undefined, Kind::Undefined) => true,
        (Kind::Null, Kind::Null) => true,
        (Kind::Boolean, Kind::Boolean) => true,
        (Kind::Number, Kind::Number) => true,
        (Kind::Text, Kind::Text) => true,
        _ => false,
    }
}

/// Strict equality of two atoms.
struct Strictly;

impl Pairing<Atom> for Strictly {
    ghost use Rattle.ja_abstract.specs.Primitives.{strict_atoms};
    ghost use Rattle.ja_absprim.specs.Primitives.{atom_of};

    ghost pair_gives = { λ _ a b. strict_atoms (atom_of a) (atom_of b) };

    fn pair(&self, alloc: Global, a: &Atom, b: &Atom) -> Result<Abstracted, Memory> {
        Ok(strict_atoms(alloc, a, b))
    }
}

/// The atoms of the number of an atom.
fn number_atoms(alloc: Global, atom: &Atom) -> Result<Vec<Atom>, Memory>
    ensures { IfOk result (λ v. map atom_of v.items
        ≡ atoms (to_num_atom (atom_of atom.now)).value) }
{
    let number = to_num_atom(alloc, atom);
    atoms_of(alloc, &number.value)
}

/// Whether the numbers of two atoms are equal.
fn on_converted(alloc: Global, a: &Atom, b: &Atom) -> Result<Abstracted, Memory>
    ensures { IfOk result (λ r. abstracted_of r
        ≡ on_converted strict_atoms (atom_of a.now) (atom_of b.now)) }
{
    let list = number_atoms(alloc, a)?;
    let others = number_atoms(alloc, b)?;
    let mut given = over_pairs(alloc, &Strictly, &list, &others)?;
    given.may_stop = may_stop(a) | may_stop(b) | given.may_stop;
    Ok(given)
}

/// Whether two atoms are equal after conversion, where they aren't both exact.
fn loose_inexact(alloc: Global, a: &Atom, b: &Atom) -> Result<Abstracted, Memory>
    ensures { IfOk result (λ r. abstracted_of r ≡ loose_inexact (atom_of a.now) (atom_of b.now)) }
{
    if is_nothing(a) || is_nothing(b) {
        return Ok(Abstracted::gives(of_bools(alloc, false, true)));
    }
    if same_kind(kind_of(a), kind_of(b)) {
        return Ok(strict_atoms(alloc, a, b));
    }
    on_converted(alloc, a, b)
}

/// Whether two atoms are equal after conversion (ES3 11.9.3).
pub fn loose_atoms(alloc: Global, a: &Atom, b: &Atom) -> Result<Abstracted, Memory>
    ensures { IfOk result (λ r. abstracted_of r ≡ loose_atoms (atom_of a.now) (atom_of b.now)) }
{
    if let (Atom::Exactly(q), Atom::Exactly(r)) = (a, b) {
        return Ok(Abstracted::exact_bool(alloc, loose_eq(q, r)));
    }
    loose_inexact(alloc, a, b)
}
