//! The row of a function's entry: its activation, and its arguments object where it has one (ES3
//! 10.1.6, 10.1.8).

ghost use Rattle.std.specs.Prelude.{◌≡◌, ◌≢◌, ◌<◌, ◌+◌, ◌++◌, IfOk, IfSome, length, map, vec_len};
ghost use Rattle.ja_abstract.specs.Made.{activation_own, arguments_binding, parameter_ids, parameter_properties};
ghost use Rattle.ja_rows.specs.Scopes.{enters_scope, transfer_enter};
ghost use Rattle.ja_aheap.specs.Heap.{heap_of};
ghost use Rattle.ja_aheap.specs.Objects.{listed_of, own_in};
ghost use Rattle.ja_astate.specs.State.{state_of, HaveOneShape};
ghost use Rattle.ja_transfer.specs.Outcomes.{at_view, point_of, IsOutcome};
ghost use Rattle.ja_value.specs.Value.{value_of};
ghost use Rattle.ja_functions.specs.code.Aged.{aged_at, parameter_at};
ghost use Rattle.ja_functions.specs.code.Entering.{activation_state, HasParameters};

use crate::arguments::arguments_made;
use crate::listed::{Listed, property_of, slot_of};
use ja_abstract::{Key, Slot};
use ja_aheap as heap;
use ja_aheap::DemandList;
use ja_astate::AState;
use ja_base::{Label, Memory, NameId, Reg, Site};
use ja_graph::{ARGUMENTS, COUNT, DONT_DELETE, SCOPE};
use ja_transfer::{Outcome, States, Stepper};
use ja_value::{AValue, LabelSet};
use std::mem;

/// The first of the registers of parameters.
pub(crate) const FIRST_PARAMETER: u32 = 5;

/// The value of a register after an object was made at a site, and maybe one at a second site.
pub(crate) fn aged_register(
    stepper: &Stepper<'_>,
    register: Reg,
    first: Site,
    second: Option<Site>,
) -> Result<AValue, Memory>
    requires { register.0 < vec_len stepper.now.reader.state.now.registers }
    ensures { IfOk result (λ v. value_of v
        ≡ (aged_at (at_view stepper.now).state first second).register register.0) }
{
    let alloc = stepper.reader.alloc;
    let aged = stepper.reader.state.register(register).aged(alloc, first)?;
    match second {
        None => Ok(aged),
        Some(second) => aged.aged(alloc, second),
    }
}

/// The names of the parameters of the function that is entered.
pub(crate) fn parameters<'a>(stepper: &Stepper<'a>) -> &'a [NameId]
    ensures { result.now ≡ parameter_ids stepper.now.reader.program.now
        stepper.now.context.function }
{
    let number = stepper.context.function.0 as usize;
    match stepper.reader.program.functions.as_slice().get(number) {
        Some(function) => function.parameters.as_slice(),
        None => &[],
    }
}

/// Lists a parameter.
fn list_parameter(
    stepper: &Stepper<'_>,
    listed: &mut Vec<Listed>,
    names: &[NameId],
    number: usize,
    site: Site,
    arguments: Option<Site>,
) -> Result<(), Memory>
    requires number { number < length names.now }
    requires register { 5 + number < vec_len stepper.now.reader.state.now.registers }
    requires few { 5 + number < 4294967296 }
    ensures { IfOk result (λ _. map listed_of listed.new.items ≡ map listed_of listed.old.items
        ++ parameter_at (aged_at (at_view stepper.now).state site arguments) names.now number) }
{
    let register = Reg(FIRST_PARAMETER + number as u32);
    let value = aged_register(stepper, register, site, arguments)?;
    listed.push(property_of(Key::Name(names[number]), value, DONT_DELETE))?;
    Ok(())
}

/// Lists the parameters, the last of equal names first.
fn list_parameters(
    stepper: &Stepper<'_>,
    listed: &mut Vec<Listed>,
    site: Site,
    arguments: Option<Site>,
) -> Result<(), Memory>
    requires { HasParameters stepper.now }
    ensures { IfOk result (λ _. map listed_of listed.new.items ≡ map listed_of listed.old.items
        ++ parameter_properties (aged_at (at_view stepper.now).state site arguments) 0
        (parameter_ids stepper.now.reader.program.now stepper.now.context.function)) }
{
    let names = parameters(stepper);
    let mut left = names.len();
    while left > 0 {
        left -= 1;
        list_parameter(stepper, listed, names, left, site, arguments)?;
    }
    Ok(())
}

/// Lists the arguments object, if there is one, under its name.
fn list_arguments(
    stepper: &Stepper<'_>,
    listed: &mut Vec<Listed>,
    arguments: Option<Site>,
) -> Result<(), Memory>
    ensures { IfOk result (λ _. map listed_of listed.new.items ≡ map listed_of listed.old.items
        ++ arguments_binding arguments) }
{
    let Some(site) = arguments else {
        return Ok(());
    };
    let object = AValue::of_label(stepper.reader.alloc, Label { site, old: false })?;
    listed.push(property_of(Key::Name(ARGUMENTS), object, DONT_DELETE))?;
    Ok(())
}

/// An activation: its scope chain, its arguments object, and its parameters.
fn activation_made(
    stepper: &Stepper<'_>,
    site: Site,
    arguments: Option<Site>,
) -> Result<heap::Made, Memory>
    requires { HasParameters stepper.now }
    ensures { IfOk result (λ m. own_in m
        ≡ activation_own stepper.now.reader.program.now stepper.now.context.function arguments
        (aged_at (at_view stepper.now).state site arguments)) }
{
    let alloc = stepper.reader.alloc;
    let mut listed = Vec::new(alloc);
    let mut chain = aged_register(stepper, SCOPE, site, arguments)?;
    let labels = mem::replace(&mut chain.labels, LabelSet::new(alloc));
    listed.push(slot_of(Slot::Outer, AValue::of_labels(alloc, labels)))?;
    list_arguments(stepper, &mut listed, arguments)?;
    list_parameters(stepper, &mut listed, site, arguments)?;
    Ok(heap::Made { listed })
}

/// The state in which the activation was made, with its arguments object where it has one.
fn with_activation(
    stepper: &Stepper<'_>,
    site: Site,
    arguments: Option<Site>,
) -> Result<AState, Memory>
    requires parameters { HasParameters stepper.now }
    requires site { site.0 < (heap_of stepper.now.reader.state.now.heap).sites }
    requires arguments { IfSome arguments
        (λ s. (s.0 < (heap_of stepper.now.reader.state.now.heap).sites) × (site.0 ≢ s.0)) }
    ensures state { IfOk result (λ a. state_of a ≡ activation_state (at_view stepper.now)
        stepper.now.context.function site arguments) }
    ensures shape { IfOk result (HaveOneShape stepper.now.reader.state.now) }
{
    let alloc = stepper.reader.alloc;
    let state = stepper.reader.state;
    let activation = activation_made(stepper, site, arguments)?;
    match arguments {
        None => state.with_object(alloc, site, activation),
        Some(list) => {
            let object = arguments_made(stepper, site, list)?;
            state.with_objects(alloc, site, activation, list, object)
        }
    }
}

/// The state in which the activation is the scope.
fn entered(stepper: &Stepper<'_>, site: Site, arguments: Option<Site>) -> Result<AState, Memory>
    requires parameters { HasParameters stepper.now }
    requires site { site.0 < (heap_of stepper.now.reader.state.now.heap).sites }
    requires arguments { IfSome arguments
        (λ s. (s.0 < (heap_of stepper.now.reader.state.now.heap).sites) × (site.0 ≢ s.0)) }
    ensures state { IfOk result (λ a. state_of a ≡ enters_scope (activation_state
        (at_view stepper.now) stepper.now.context.function site arguments) site) }
    ensures shape { IfOk result (HaveOneShape stepper.now.reader.state.now) }
{
    let scope = AValue::of_label(stepper.reader.alloc, Label { site, old: false })?;
    let mut state = with_activation(stepper, site, arguments)?;
    state.set_register(SCOPE, scope);
    Ok(state)
}

/// A function is entered: its activation is its scope.
pub fn enter(stepper: &Stepper<'_>, site: Site, arguments: Option<Site>) -> Result<Outcome, Memory>
    requires parameters { HasParameters stepper.now }
    requires site { site.0 < (heap_of stepper.now.reader.state.now.heap).sites }
    requires arguments { IfSome arguments
        (λ s. (s.0 < (heap_of stepper.now.reader.state.now.heap).sites) × (site.0 ≢ s.0)) }
    ensures { IfOk result (IsOutcome stepper.now (transfer_enter (at_view stepper.now)
        (point_of stepper.now) stepper.now.info.now site arguments)) }
{
    let reader = &stepper.reader;
    let mut states = States::new(reader.alloc);
    let demands = DemandList::new(reader.alloc);
    let is_reached = reader.state.register(COUNT).has_part(reader.sites);
    if !is_reached {
        return Ok(stepper.outcome(states, demands));
    }
    let state = entered(stepper, site, arguments)?;
    stepper.gives(&mut states, stepper.info.next, state)?;
    Ok(stepper.outcome(states, demands))
}
