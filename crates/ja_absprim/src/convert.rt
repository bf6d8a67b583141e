//! Conversions of abstract primitives (ES3 9), and the operations on one number (11.4.7, 11.4.8).

ghost use Rattle.std.specs.Prelude.{◌≡◌, IfOk};
ghost use Rattle.ja_prim.specs.Arithmetic as numbers;
ghost use Rattle.ja_prim.specs.Bits as bits;
ghost use Rattle.ja_abstract.specs.AbstractValue.{join};
ghost use Rattle.ja_abstract.specs.Primitives as spec;
ghost use Rattle.ja_abstract.specs.Primitives.{abstract_unary, to_bool_atom, to_num_atom, to_text_atom, index_or_whole, on_operand, of_operand, over, nan_value, whole_value};
ghost use Rattle.ja_value.specs.Value.{value_of};
ghost use Rattle.ja_absprim.specs.Primitives.{abstracted_of, atom_of};
ghost use Rattle.ja_absprim.specs.code.Conversions.{converted_by, turned_by};

use crate::made::{nan_or_whole, of_bools, of_number_part, of_text_part, whole};
use crate::{Abstracted, Atom, atoms_of};
use ja_abstract::{NumberPart, TextPart};
use ja_base::Memory;
use ja_prim as prim;
use ja_prim::{Int, Num, Primitive};
use ja_value::AValue;
use std::alloc::Global;

/// The truth value of an atom (ES3 9.2).
fn to_bool_atom(alloc: Global, atom: &Atom) -> Abstracted
    ensures { abstracted_of result ≡ to_bool_atom (atom_of atom.now) }
{
    match atom {
        Atom::Exactly(primitive) => {
            Abstracted::gives(AValue::of_bool(alloc, prim::to_bool(primitive)))
        }
        Atom::OtherWhole | Atom::IndexText => Abstracted::gives(of_bools(alloc, true, false)),
        Atom::Index | Atom::Whole | Atom::OtherText | Atom::AnyText => Abstracted::both(alloc),
    }
}

/// The number of an atom (ES3 9.3).
pub fn to_num_atom(alloc: Global, atom: &Atom) -> Abstracted
    ensures { abstracted_of result ≡ to_num_atom (atom_of atom.now) }
{
    match atom {
        Atom::Exactly(primitive) => Abstracted::exact_number(alloc, prim::to_num(primitive)),
        Atom::Index | Atom::IndexText => {
            Abstracted::gives(of_number_part(alloc, NumberPart::Index))
        }
        Atom::OtherWhole => Abstracted::gives(of_number_part(alloc, NumberPart::OtherWhole)),
        Atom::Whole => Abstracted::gives(of_number_part(alloc, NumberPart::Whole)),
        Atom::OtherText | Atom::AnyText => Abstracted::gives_or_stops(nan_or_whole(alloc)),
    }
}

/// The text of an atom (ES3 9.8).
fn to_text_atom(alloc: Global, atom: &Atom) -> Result<Abstracted, Memory>
    ensures { IfOk result (λ r. abstracted_of r ≡ to_text_atom (atom_of atom.now)) }
{
    let part = match atom {
        Atom::Exactly(primitive) => match prim::to_text(alloc, primitive) {
            Ok(text) => TextPart::One(text),
            Err(_) => return Err(Memory),
        },
        Atom::Index | Atom::IndexText => TextPart::IndexText,
        Atom::OtherWhole | Atom::OtherText => TextPart::OtherText,
        Atom::Whole | Atom::AnyText => TextPart::Text,
    };
    Ok(Abstracted::gives(of_text_part(alloc, part)))
}

/// ToUint32 (ES3 9.6) of an atom of numbers.
fn index_or_whole(alloc: Global, atom: &Atom) -> Abstracted
    ensures { abstracted_of result ≡ index_or_whole (atom_of atom.now) }
{
    match atom {
        Atom::Exactly(Primitive::Number(number)) => {
            let bits = Int::new(i64::from(prim::to_uint32(*number))).unwrap();
            Abstracted::gives(AValue::of_number(alloc, bits))
        }
        Atom::Index => Abstracted::gives(of_number_part(alloc, NumberPart::Index)),
        _ => Abstracted::gives(whole(alloc)),
    }
}

/// The opposite of the number of an atom (ES3 11.4.7).
fn neg_atom(alloc: Global, atom: &Atom) -> Abstracted
    ensures { abstracted_of result ≡ turned_by numbers.neg (join nan_value whole_value)
        (atom_of atom.now) }
{
    match atom {
        Atom::Exactly(primitive) => match prim::to_num(primitive) {
            Ok(number) => Abstracted::exact_number(alloc, Ok(prim::neg(number))),
            Err(stop) => Abstracted::exact_number(alloc, Err(stop)),
        },
        Atom::OtherText | Atom::AnyText => Abstracted::gives_or_stops(nan_or_whole(alloc)),
        Atom::Index | Atom::OtherWhole | Atom::Whole | Atom::IndexText => {
            Abstracted::gives(whole(alloc))
        }
    }
}

/// The number of an atom with each of its 32 bits turned (ES3 11.4.8).
fn not_atom(alloc: Global, atom: &Atom) -> Abstracted
    ensures { abstracted_of result ≡ turned_by bits.not whole_value (atom_of atom.now) }
{
    match atom {
        Atom::Exactly(primitive) => match prim::to_num(primitive) {
            Ok(number) => Abstracted::exact_number(alloc, Ok(prim::not(number))),
            Err(stop) => Abstracted::exact_number(alloc, Err(stop)),
        },
        Atom::OtherText | Atom::AnyText => Abstracted::gives_or_stops(whole(alloc)),
        Atom::Index | Atom::OtherWhole | Atom::Whole | Atom::IndexText => {
            Abstracted::gives(whole(alloc))
        }
    }
}

/// What is made of an atom.
#[derive(Clone, Copy)]
enum Conversion {
    ToBool,
    ToNum,
    ToText,
    ToUint32,
    Neg,
    Not,
}

/// What is made of an atom.
fn converted(alloc: Global, conversion: Conversion, atom: &Atom) -> Result<Abstracted, Memory>
    ensures { IfOk result (λ r. abstracted_of r ≡ converted_by conversion (atom_of atom.now)) }
{
    match conversion {
        Conversion::ToBool => Ok(to_bool_atom(alloc, atom)),
        Conversion::ToNum => Ok(to_num_atom(alloc, atom)),
        Conversion::ToText => to_text_atom(alloc, atom),
        Conversion::ToUint32 => Ok(index_or_whole(alloc, atom)),
        Conversion::Neg => Ok(neg_atom(alloc, atom)),
        Conversion::Not => Ok(not_atom(alloc, atom)),
    }
}

/// What is made of some atoms.
fn over_atoms(alloc: Global, conversion: Conversion, atoms: &[Atom]) -> Result<Abstracted, Memory>
    ensures { IfOk result (λ r. abstracted_of r
        ≡ over (λ a. converted_by conversion (atom_of a)) atoms.now) }
{
    let mut all = Abstracted::none(alloc);
    for atom in atoms.iter().rev() {
        all = Abstracted::either(alloc, converted(alloc, conversion, atom), all)?;
    }
    Ok(all)
}

/// What is made of a value.
fn unary(alloc: Global, conversion: Conversion, a: &AValue) -> Result<Abstracted, Memory>
    ensures { IfOk result (λ r. abstracted_of r
        ≡ abstract_unary (converted_by conversion) (value_of a.now)) }
{
    let atoms = atoms_of(alloc, a)?;
    over_atoms(alloc, conversion, &atoms)
}

/// The truth values of the primitives of a value (ES3 9.2).
pub fn to_bool(alloc: Global, a: &AValue) -> Result<Abstracted, Memory>
    ensures { IfOk result (λ r. abstracted_of r ≡ abstract_unary to_bool_atom (value_of a.now)) }
{
    unary(alloc, Conversion::ToBool, a)
}

/// The numbers of the primitives of a value (ES3 9.3). It may stop where a text may be that of a
/// number that isn't whole or whose magnitude is greater than 9,007,199,254,740,991.
pub fn to_num(alloc: Global, a: &AValue) -> Result<Abstracted, Memory>
    ensures { IfOk result (λ r. abstracted_of r ≡ spec.to_num (value_of a.now)) }
{
    unary(alloc, Conversion::ToNum, a)
}

/// The texts of the primitives of a value (ES3 9.8).
pub fn to_text(alloc: Global, a: &AValue) -> Result<Abstracted, Memory>
    ensures { IfOk result (λ r. abstracted_of r ≡ abstract_unary to_text_atom (value_of a.now)) }
{
    unary(alloc, Conversion::ToText, a)
}

/// ToUint32 (ES3 9.6) of a value of numbers.
pub fn to_uint32(alloc: Global, a: &AValue) -> Result<Abstracted, Memory>
    ensures { IfOk result (λ r. abstracted_of r ≡ spec.to_uint32 (value_of a.now)) }
{
    unary(alloc, Conversion::ToUint32, a)
}

/// The opposites of the numbers of a value (ES3 11.4.7). It may stop where `to_num` may.
pub fn neg(alloc: Global, a: &AValue) -> Result<Abstracted, Memory>
    ensures { IfOk result (λ r. abstracted_of r
        ≡ abstract_unary (on_operand (of_operand numbers.neg)) (value_of a.now)) }
{
    unary(alloc, Conversion::Neg, a)
}

/// The numbers of a value with each of their 32 bits turned (ES3 11.4.8). It may stop where
/// `to_num` may.
pub fn not(alloc: Global, a: &AValue) -> Result<Abstracted, Memory>
    ensures { IfOk result (λ r. abstracted_of r
        ≡ abstract_unary (on_operand (of_operand bits.not)) (value_of a.now)) }
{
    unary(alloc, Conversion::Not, a)
}
