//! Arguments objects (ES3 10.1.8).

ghost use Rattle.std.specs.Prelude.{◌≡◌, ◌<◌, ◌+◌, ◌++◌, if◌then◌else◌, nat_lt, IfOk, IsTrue, Some, map};
ghost use Rattle.std.specs.Option.{option_map};
ghost use Rattle.ja_abstract.specs.AbstractState.{is_key};
ghost use Rattle.ja_abstract.specs.Keys.{index_keys};
ghost use Rattle.ja_abstract.specs.declared.abstraction.Key.TheVariants as key;
ghost use Rattle.ja_abstract.specs.Made.{argument_property, arguments_own, if_reached, index_property};
ghost use Rattle.ja_aheap.specs.Objects.{listed_of, own_in};
ghost use Rattle.ja_transfer.specs.Outcomes.{at_view};
ghost use Rattle.ja_value.specs.Value.{property_of as property_in};
ghost use Rattle.ja_functions.specs.code.Aged.{aged_at, index_properties, listed_at};
ghost use Rattle.ja_functions.specs.code.Entering.{HasParameters};

use crate::activations::{FIRST_PARAMETER, aged_register, parameters};
use crate::listed::{Listed, inherits, property_of};
use ja_abstract::Key;
use ja_aheap as heap;
use ja_astate::index_of_key;
use ja_base::{Memory, Reg, Site};
use ja_graph::{CALLEE, CALLEE_REGISTER, COUNT, DONT_ENUM, LENGTH, OBJECT_PROTOTYPE};
use ja_prim::Int;
use ja_transfer::Stepper;
use ja_value::AProp;
use std::alloc::Global;

/// An argument as it is where the count of arguments may be that number, or any.
fn if_reached(
    alloc: Global,
    count: Option<Int>,
    number: u32,
    property: AProp,
) -> Result<AProp, Memory>
    ensures { IfOk result (λ q. property_in q
        ≡ if_reached count number (property_in property)) }
{
    match count {
        Some(count) => {
            if i64::from(number) < count.get() {
                Ok(property)
            } else {
                Ok(AProp::absent(alloc))
            }
        }
        None => {
            let mut joined = property;
            joined.join(alloc, &AProp::absent(alloc))?;
            Ok(joined)
        }
    }
}

/// The register of an argument: of a parameter, or of the rest.
fn argument_register(number: u32, parameters: u32) -> Reg
    requires { 5 + parameters < 4294967296 }
    ensures { result.0 ≡ (if nat_lt number parameters then 5 + number else 5 + parameters) }
{
    Reg(FIRST_PARAMETER + number.min(parameters))
}

/// What the arguments object has at an index.
fn argument_property(
    stepper: &Stepper<'_>,
    number: u32,
    site: Site,
    list: Site,
) -> Result<AProp, Memory>
    requires { HasParameters stepper.now }
    ensures { IfOk result (λ q. property_in q ≡ argument_property stepper.now.reader.program.now
        stepper.now.context.function (aged_at (at_view stepper.now).state site (Some list))
        number) }
{
    let reader = &stepper.reader;
    let parameters = parameters(stepper).len() as u32;
    let register = argument_register(number, parameters);
    let value = aged_register(stepper, register, site, Some(list))?;
    let count = aged_register(stepper, COUNT, site, Some(list))?;
    if_reached(
        reader.alloc,
        count.one_number(reader.sites),
        number,
        AProp::with_attrs(value, DONT_ENUM),
    )
}

/// What it has at each index of which the program has no name: what it has at any, or nothing. The
/// first index that no parameter has stands for all others of these.
fn other_arguments(stepper: &Stepper<'_>, site: Site, list: Site) -> Result<AProp, Memory>
    requires { HasParameters stepper.now }
    ensures { IfOk result (λ q. Some (property_in q) ≡ index_property
        stepper.now.reader.program.now stepper.now.context.function
        (aged_at (at_view stepper.now).state site (Some list)) key.OtherIndex) }
{
    let alloc = stepper.reader.alloc;
    let mut sum = AProp::nothing(alloc);
    let mut left = parameters(stepper).len() as u32 + 1;
    while left > 0 {
        left -= 1;
        let mut one = argument_property(stepper, left, site, list)?;
        one.join(alloc, &sum)?;
        sum = one;
    }
    let mut all = AProp::absent(alloc);
    all.join(alloc, &sum)?;
    Ok(all)
}

/// What it has at the key of an index.
fn index_property(
    stepper: &Stepper<'_>,
    key: Key,
    site: Site,
    list: Site,
) -> Result<Option<AProp>, Memory>
    requires parameters { HasParameters stepper.now }
    requires key { IsTrue (is_key stepper.now.reader.program.now key) }
    ensures { IfOk result (λ o. option_map property_in o ≡ index_property
        stepper.now.reader.program.now stepper.now.context.function
        (aged_at (at_view stepper.now).state site (Some list)) key) }
{
    if let Key::OtherIndex = key {
        return Ok(Some(other_arguments(stepper, site, list)?));
    }
    match index_of_key(stepper.reader.program, key) {
        Some(number) => Ok(Some(argument_property(stepper, number, site, list)?)),
        None => Ok(None),
    }
}

/// Lists what it has at the key of an index.
fn list_index(
    stepper: &Stepper<'_>,
    listed: &mut Vec<Listed>,
    key: Key,
    site: Site,
    list: Site,
) -> Result<(), Memory>
    requires parameters { HasParameters stepper.now }
    requires key { IsTrue (is_key stepper.now.reader.program.now key) }
    ensures { IfOk result (λ _. map listed_of listed.new.items ≡ map listed_of listed.old.items
        ++ listed_at key (index_property stepper.now.reader.program.now
        stepper.now.context.function
        (aged_at (at_view stepper.now).state site (Some list)) key)) }
{
    let Some(property) = index_property(stepper, key, site, list)? else {
        return Ok(());
    };
    listed.push((key, property))?;
    Ok(())
}

/// Lists what it has at the keys of indices.
fn list_indices(
    stepper: &Stepper<'_>,
    listed: &mut Vec<Listed>,
    site: Site,
    list: Site,
) -> Result<(), Memory>
    requires { HasParameters stepper.now }
    ensures { IfOk result (λ _. map listed_of listed.new.items ≡ map listed_of listed.old.items
        ++ index_properties stepper.now.reader.program.now stepper.now.context.function
        (aged_at (at_view stepper.now).state site (Some list))
        (index_keys stepper.now.reader.program.now)) }
{
    for key in stepper.reader.keys.indices() {
        list_index(stepper, listed, *key, site, list)?;
    }
    Ok(())
}

/// The arguments object of the activation of a site, made at another one: its arguments at their
/// indices, the function, and their count as its length.
pub(crate) fn arguments_made(
    stepper: &Stepper<'_>,
    site: Site,
    list: Site,
) -> Result<heap::Made, Memory>
    requires { HasParameters stepper.now }
    ensures { IfOk result (λ m. own_in m ≡ arguments_own stepper.now.reader.program.now
        stepper.now.context.function (aged_at (at_view stepper.now).state site (Some list))) }
{
    let alloc = stepper.reader.alloc;
    let mut listed = Vec::new(alloc);
    list_indices(stepper, &mut listed, site, list)?;
    listed.push(inherits(alloc, OBJECT_PROTOTYPE)?)?;
    let callee = aged_register(stepper, CALLEE_REGISTER, site, Some(list))?;
    listed.push(property_of(Key::Name(CALLEE), callee, DONT_ENUM))?;
    let count = aged_register(stepper, COUNT, site, Some(list))?;
    listed.push(property_of(Key::Name(LENGTH), count, DONT_ENUM))?;
    Ok(heap::Made { listed })
}
