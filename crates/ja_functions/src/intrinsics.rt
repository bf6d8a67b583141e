//! The row of the operations that the built-in functions are written with.

ghost use Rattle.std.specs.Prelude.{◌≡◌, ◌<◌, ◌∷◌, [], IfOk, None, map, vec_len};
ghost use Rattle.std.specs.List.{AllByRecursion};
ghost use Rattle.ja_base.specs.declared.ids.Reg.{Reg};
ghost use Rattle.ja_operations.specs.code.Texts.{text_operation};
ghost use Rattle.ja_abstract.specs.Operations.{operation};
ghost use Rattle.ja_rows.specs.BuiltIns.{transfer_intrinsic};
ghost use Rattle.ja_rows.specs.Out.{at};
ghost use Rattle.ja_astate.specs.Looks.{view_of};
ghost use Rattle.ja_transfer.specs.Outcomes.{at_view, IsOutcome};
ghost use Rattle.ja_value.specs.Value.{value_of};
ghost use Rattle.ja_functions.specs.code.Told.{IsTold};

use crate::internals::{class_of, has_elements, inherits, internal_value, is_object};
use crate::owns::{Asked, own_property};
use crate::texts::text_operation_told;
use crate::told::Told;
use ja_astate::Reader;
use ja_base::{Memory, Reg};
use ja_operations::text_operation;
use ja_transfer::{Outcome, States, Stepper};
use ja_value::AValue;

/// What an operation that reads the state tells of one value, by its number.
fn of_one(reader: &Reader<'_>, which: u32, value: &AValue) -> Result<Told, Memory>
    requires { text_operation which ≡ None }
    ensures { IfOk result (IsTold
        (operation which (view_of reader.now) (value_of value.now ∷ []))) }
{
    match which {
        0 => Ok(is_object(reader, value)),
        1 => class_of(reader, value),
        2 => internal_value(reader, value),
        6 => has_elements(reader, value),
        _ => Ok(Told::nothing(reader.alloc)),
    }
}

/// What it tells of two values.
fn of_two(reader: &Reader<'_>, which: u32, first: &AValue, second: &AValue) -> Result<Told, Memory>
    requires { text_operation which ≡ None }
    ensures { IfOk result (IsTold (operation which (view_of reader.now)
        (value_of first.now ∷ value_of second.now ∷ []))) }
{
    match which {
        3 => own_property(reader, Asked::Having, first, second),
        4 => own_property(reader, Asked::Enumerable, first, second),
        5 => inherits(reader, first, second),
        _ => Ok(Told::nothing(reader.alloc)),
    }
}

/// What it tells of the values of registers.
fn of_registers(stepper: &Stepper<'_>, which: u32, args: &[Reg]) -> Result<Told, Memory>
    requires { AllByRecursion (λ (r : Reg). r.0 < vec_len stepper.now.reader.state.now.registers)
        args.now }
    ensures { IfOk result (IsTold (operation which (at_view stepper.now)
        (map (at (at_view stepper.now)) args.now))) }
{
    if let Some(operation) = text_operation(which) {
        return text_operation_told(stepper, operation, args);
    }
    let reader = &stepper.reader;
    let state = reader.state;
    match args {
        [value] => of_one(reader, which, state.register(*value)),
        [first, second] => of_two(
            reader,
            which,
            state.register(*first),
            state.register(*second),
        ),
        _ => Ok(Told::nothing(reader.alloc)),
    }
}

/// An operation of the built-in functions.
pub fn intrinsic(
    stepper: &Stepper<'_>,
    dst: Reg,
    which: u32,
    args: &[Reg],
) -> Result<Outcome, Memory>
    requires dst { dst.0 < vec_len stepper.now.reader.state.now.registers }
    requires args { AllByRecursion
        (λ (r : Reg). r.0 < vec_len stepper.now.reader.state.now.registers) args.now }
    ensures { IfOk result (IsOutcome stepper.now (transfer_intrinsic (at_view stepper.now)
        stepper.now.info.now dst which args.now)) }
{
    let Told { value, demands } = of_registers(stepper, which, args)?;
    let mut states = States::new(stepper.reader.alloc);
    stepper.sets(&mut states, dst, value, stepper.info.next)?;
    Ok(stepper.outcome(states, demands))
}
