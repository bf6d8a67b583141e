//! The operations on texts and numbers (ES3 15.1.2, 15.5, 15.7.4.2): of one primitive value each
//! what the machine gives, or nothing; and of a class all that they may give.

ghost use Rattle.std.specs.Prelude.{◌≡◌, ◌<◌, ◌++◌, ◌∷◌, [], IfOk, length, map, vec_len};
ghost use Rattle.std.specs.List.{AllByRecursion};
ghost use Rattle.std.specs.Option.{option_map};
ghost use Rattle.ja_base.specs.declared.ids.Reg.{Reg};
ghost use Rattle.ja_machine.specs.TextOperations.{row};
ghost use Rattle.ja_abstract.specs.declared.abstraction.Sort.TheVariants as sort;
ghost use Rattle.ja_abstract.specs.AbstractValue.{join};
ghost use Rattle.ja_abstract.specs.Operations.{looked};
ghost use Rattle.ja_abstract.specs.PrimitiveOperations as spec;
ghost use Rattle.ja_abstract.specs.Primitives.{nan_value, of_number_part};
ghost use Rattle.ja_absprim.specs.Primitives.{abstracted_of, atom_of};
ghost use Rattle.ja_rows.specs.Out.{at};
ghost use Rattle.ja_transfer.specs.Outcomes.{at_view};
ghost use Rattle.ja_value.specs.Value.{value_of};
ghost use Rattle.ja_functions.specs.code.Told.{IsTold};

use crate::told::Told;
use ja_absprim::{Abstracted, Atom, atoms_of};
use ja_abstract::{NumberPart, Sort, TextPart};
use ja_base::{Memory, Reg};
use ja_machine::TextOperation;
use ja_operations::of_primitives;
use ja_prim::Primitive;
use ja_transfer::Stepper;
use ja_value::AValue;
use std::alloc::Global;

/// What an operation takes at a place: one primitive value, or any of a class.
type Taken = Option<Primitive>;

/// The same, in memory of its own.
fn copy_of(taken: &Taken) -> Result<Taken, Memory>
    ensures { IfOk result (λ copy. copy ≡ taken.now) }
{
    match taken {
        Some(primitive) => Ok(Some(primitive.copy()?)),
        None => Ok(None),
    }
}

/// Adds what is taken of an atom at a place of texts.
fn take_text(list: &mut Vec<Taken>, atom: &Atom) -> Result<(), Memory>
    ensures { IfOk result (λ _. list.new.items
        ≡ list.old.items ++ spec.taken_at sort.Text (atom_of atom.now)) }
{
    match atom {
        Atom::Exactly(Primitive::Text(text)) => list.push(Some(Primitive::Text(text.copy()?)))?,
        Atom::IndexText | Atom::OtherText | Atom::AnyText => list.push(None)?,
        Atom::Exactly(_) | Atom::Index | Atom::OtherWhole | Atom::Whole => (),
    }
    Ok(())
}

/// Adds what is taken of an atom at a place of numbers.
fn take_number(list: &mut Vec<Taken>, atom: &Atom) -> Result<(), Memory>
    ensures { IfOk result (λ _. list.new.items
        ≡ list.old.items ++ spec.taken_at sort.Number (atom_of atom.now)) }
{
    match atom {
        Atom::Exactly(Primitive::Number(number)) => list.push(Some(Primitive::Number(*number)))?,
        Atom::Index | Atom::OtherWhole | Atom::Whole => list.push(None)?,
        Atom::Exactly(_) | Atom::IndexText | Atom::OtherText | Atom::AnyText => (),
    }
    Ok(())
}

/// Adds what is taken of an atom at a place of this sort.
fn take(list: &mut Vec<Taken>, sort: Sort, atom: &Atom) -> Result<(), Memory>
    ensures { IfOk result (λ _. list.new.items
        ≡ list.old.items ++ spec.taken_at sort (atom_of atom.now)) }
{
    match sort {
        Sort::Text => take_text(list, atom),
        Sort::Number => take_number(list, atom),
    }
}

/// What is taken of a value at a place of this sort.
fn taken_of(alloc: Global, sort: Sort, value: &AValue) -> Result<Vec<Taken>, Memory>
    ensures { IfOk result (λ v. v.items ≡ spec.taken sort (value_of value.now)) }
{
    let atoms = atoms_of(alloc, value)?;
    let mut list = Vec::new(alloc);
    for atom in atoms.iter() {
        take(&mut list, sort, atom)?;
    }
    Ok(list)
}

/// The sorts of what an operation takes.
fn sorts(alloc: Global, operation: TextOperation) -> Result<Vec<Sort>, Memory>
    ensures { IfOk result (λ v. v.items ≡ spec.sorts operation) }
{
    let sorts = match operation {
        TextOperation::Digits => vec![in alloc; Sort::Number, Sort::Number]?,
        TextOperation::Size => vec![in alloc; Sort::Text]?,
        TextOperation::Unit => vec![in alloc; Sort::Text, Sort::Number]?,
        TextOperation::Part => vec![in alloc; Sort::Text, Sort::Number, Sort::Number]?,
        TextOperation::Character => vec![in alloc; Sort::Number]?,
        TextOperation::IndexOf => vec![in alloc; Sort::Text, Sort::Text, Sort::Number]?,
        TextOperation::LastIndexOf => vec![in alloc; Sort::Text, Sort::Text, Sort::Number]?,
        TextOperation::Lower => vec![in alloc; Sort::Text]?,
        TextOperation::Upper => vec![in alloc; Sort::Text]?,
        TextOperation::ParseInt => vec![in alloc; Sort::Text, Sort::Number]?,
        TextOperation::ParseFloat => vec![in alloc; Sort::Text]?,
    };
    Ok(sorts)
}

/// NaN, or a number of a part.
fn nan_or(alloc: Global, part: NumberPart) -> AValue
    ensures { value_of result ≡ join nan_value (of_number_part part) }
{
    let mut value = AValue::of_number_part(alloc, part);
    value.flags.nan = true;
    value
}

/// All that an operation may give.
fn class(alloc: Global, operation: TextOperation) -> AValue
    ensures { value_of result ≡ spec.class operation }
{
    match operation {
        TextOperation::Size => AValue::of_number_part(alloc, NumberPart::Index),
        TextOperation::Unit => nan_or(alloc, NumberPart::Index),
        TextOperation::IndexOf | TextOperation::LastIndexOf => {
            AValue::of_number_part(alloc, NumberPart::Whole)
        }
        TextOperation::ParseInt | TextOperation::ParseFloat => nan_or(alloc, NumberPart::Whole),
        TextOperation::Digits
        | TextOperation::Part
        | TextOperation::Character
        | TextOperation::Lower
        | TextOperation::Upper => AValue::of_text_part(alloc, TextPart::Text),
    }
}

/// The primitive values, if each of these is one.
fn each_told(alloc: Global, chosen: &[Taken]) -> Result<Option<Vec<Primitive>>, Memory>
    ensures { IfOk result (λ list. option_map (λ v. v.items) list ≡ spec.each_told chosen.now) }
{
    let mut list = Vec::new(alloc);
    for taken in chosen {
        match taken {
            Some(primitive) => list.push(primitive.copy()?)?,
            None => return Ok(None),
        }
    }
    Ok(Some(list))
}

/// What an operation gives of one value or class at each place.
fn of_taken(alloc: Global, operation: TextOperation, chosen: &[Taken]) -> Result<Abstracted, Memory>
    ensures { IfOk result (λ r. abstracted_of r
        ≡ spec.of_taken (row operation) (spec.class operation) chosen.now) }
{
    let Some(values) = each_told(alloc, chosen)? else {
        return Ok(Abstracted::gives(class(alloc, operation)));
    };
    match of_primitives(alloc, operation, &values)? {
        Ok(primitive) => Ok(Abstracted::gives(AValue::of_primitive(alloc, &primitive)?)),
        Err(_) => Ok(Abstracted::none(alloc)),
    }
}

/// What is chosen, and one more behind it.
fn with_choice(alloc: Global, chosen: &[Taken], last: &Taken) -> Result<Vec<Taken>, Memory>
    ensures { IfOk result (λ v. v.items ≡ chosen.now ++ last.now ∷ []) }
{
    let mut list = Vec::new(alloc);
    for taken in chosen {
        list.push(copy_of(taken)?)?;
    }
    list.push(copy_of(last)?)?;
    Ok(list)
}

/// What an operation gives over each choice of one of these at each place, behind those that were
/// chosen.
fn over_operands(
    alloc: Global,
    operation: TextOperation,
    chosen: &[Taken],
    lists: &[Vec<Taken>],
) -> Result<Abstracted, Memory>
    ensures { IfOk result (λ r. abstracted_of r ≡ spec.over_operands
        (λ rest. spec.of_taken (row operation) (spec.class operation) (chosen.now ++ rest))
        (map (λ v. v.items) lists.now)) }
{
    let [list, rest @ ..] = lists else {
        return of_taken(alloc, operation, chosen);
    };
    let mut all = Abstracted::none(alloc);
    for taken in list.iter().rev() {
        let longer = with_choice(alloc, chosen, taken)?;
        let given = over_operands(alloc, operation, &longer, rest);
        all = Abstracted::either(alloc, given, all)?;
    }
    Ok(all)
}

/// What is taken at each place, if there are as many registers as places.
fn operands(
    stepper: &Stepper<'_>,
    sorts: &[Sort],
    args: &[Reg],
) -> Result<Option<Vec<Vec<Taken>>>, Memory>
    requires { AllByRecursion (λ (r : Reg). r.0 < vec_len stepper.now.reader.state.now.registers)
        args.now }
    ensures { IfOk result (λ lists. option_map (λ v. map (λ list. list.items) v.items) lists
        ≡ spec.operands sorts.now (map (at (at_view stepper.now)) args.now)) }
{
    let reader = &stepper.reader;
    if sorts.len() != args.len() {
        return Ok(None);
    }
    let mut lists = Vec::new(reader.alloc);
    for (place, arg) in args.iter().enumerate() {
        lists.push(taken_of(reader.alloc, sorts[place], reader.state.register(*arg))?)?;
    }
    Ok(Some(lists))
}

/// What an operation tells of the values of registers.
pub(crate) fn text_operation_told(
    stepper: &Stepper<'_>,
    operation: TextOperation,
    args: &[Reg],
) -> Result<Told, Memory>
    requires { AllByRecursion (λ (r : Reg). r.0 < vec_len stepper.now.reader.state.now.registers)
        args.now }
    ensures { IfOk result (IsTold (looked
        (spec.text_operation operation (map (at (at_view stepper.now)) args.now)))) }
{
    let alloc = stepper.reader.alloc;
    let sorts = sorts(alloc, operation)?;
    let Some(lists) = operands(stepper, &sorts, args)? else {
        return Ok(Told::nothing(alloc));
    };
    let chosen = Vec::new(alloc);
    let given = over_operands(alloc, operation, &chosen, &lists)?;
    Ok(Told::value(alloc, given.into_value()))
}
