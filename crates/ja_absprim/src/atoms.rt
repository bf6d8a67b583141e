//! The atoms of a value: its primitives one by one, and its classes.

ghost use Rattle.std.specs.Prelude.{◌≡◌, map, ◌++◌, [], ◌∷◌, IfOk};
ghost use Rattle.ja_prim.specs.declared.primitive.Primitive.TheVariants as primitive;
ghost use Rattle.ja_abstract.specs.Primitives.{number_atoms, text_atoms, flag_atoms, atoms};
ghost use Rattle.ja_value.specs.Value.{value_of};
ghost use Rattle.ja_absprim.specs.Primitives.{atom_of};

use ja_abstract::{Flags, NumberPart, TextPart};
use ja_base::Memory;
use ja_prim::{Num, Primitive};
use ja_value::AValue;
use std::alloc::Global;

/// One primitive, or all of a class: the array indices, all other whole numbers or all of them, the
/// texts of array indices, all other texts or all of them.
#[derive(Drop)]
pub enum Atom {
    Exactly(Primitive),
    Index,
    OtherWhole,
    Whole,
    IndexText,
    OtherText,
    AnyText,
}

/// Adds a primitive where its flag is set.
fn push_flag(atoms: &mut Vec<Atom>, flag: bool, primitive: Primitive) -> Result<(), Memory>
    ensures { IfOk result (λ _. map atom_of atoms.new.items
        ≡ map atom_of atoms.old.items ++ flag_atoms (record { 0 = flag; 1 = primitive } ∷ [])) }
{
    if flag {
        atoms.push(Atom::Exactly(primitive))?;
    }
    Ok(())
}

/// Adds the atom of a number part.
fn push_number(atoms: &mut Vec<Atom>, part: NumberPart) -> Result<(), Memory>
    ensures { IfOk result (λ _. map atom_of atoms.new.items
        ≡ map atom_of atoms.old.items ++ number_atoms part) }
{
    let atom = match part {
        NumberPart::Nothing => return Ok(()),
        NumberPart::One(number) => Atom::Exactly(Primitive::Number(Num::Whole(number))),
        NumberPart::Index => Atom::Index,
        NumberPart::OtherWhole => Atom::OtherWhole,
        NumberPart::Whole => Atom::Whole,
    };
    atoms.push(atom)?;
    Ok(())
}

/// Adds the atom of a text part.
fn push_text(atoms: &mut Vec<Atom>, part: &TextPart) -> Result<(), Memory>
    ensures { IfOk result (λ _. map atom_of atoms.new.items
        ≡ map atom_of atoms.old.items ++ text_atoms part.now) }
{
    let atom = match part {
        TextPart::Nothing => return Ok(()),
        TextPart::One(text) => Atom::Exactly(Primitive::Text(text.copy()?)),
        TextPart::IndexText => Atom::IndexText,
        TextPart::OtherText => Atom::OtherText,
        TextPart::Text => Atom::AnyText,
    };
    atoms.push(atom)?;
    Ok(())
}

/// The atoms of a value: of its flags but `absent`, `entry` and `row`, of its number part and its
/// text part.
pub fn atoms_of(alloc: Global, value: &AValue) -> Result<Vec<Atom>, Memory>
    ensures { IfOk result (λ v. map atom_of v.items ≡ atoms (value_of value.now)) }
{
    let flags = value.flags;
    let mut atoms = Vec::new(alloc);
    push_flag(&mut atoms, flags.undefined, Primitive::Undefined)?;
    push_flag(&mut atoms, flags.null, Primitive::Null)?;
    push_flag(&mut atoms, flags.is_true, Primitive::Bool(true))?;
    push_flag(&mut atoms, flags.is_false, Primitive::Bool(false))?;
    push_flag(&mut atoms, flags.nan, Primitive::Number(Num::NaN))?;
    push_number(&mut atoms, value.number)?;
    push_text(&mut atoms, &value.text)?;
    Ok(atoms)
}
