//! The activation of a function and its arguments object (ES3 10.1.6, 10.1.8).

ghost use Rattle.std.specs.Prelude.{◌≡◌, ◌≤◌, [], IfOk, OnOk, length, map, drop};
ghost use Rattle.std.specs.List.{All, list_any};
ghost use Rattle.ja_graph.specs.WellFormed.{IsWellFormed, IsName};
ghost use Rattle.ja_machine.specs.Frames as frames;
ghost use Rattle.ja_machine.specs.Nodes.{name_text, parameter_names};
ghost use Rattle.ja_machine.specs.Objects as objects;
ghost use Rattle.ja_prim.specs.Texts.{same_text};
ghost use Rattle.ja_prim.specs.Judged.{max_magnitude};

use crate::arguments::{argument, argument_count, index_text, object_or_undefined};
use crate::made::first_of;
use crate::messages::name_text;
use ja_base::{FnId, Memory, NameId};
use ja_graph::{Class, DONT_DELETE, DONT_ENUM, OBJECT_PROTOTYPE, Program};
use ja_heap::Object;
use ja_machine::{Addr, Content, Slots, Value};
use ja_prim::Text16;
use std::alloc::Global;

/// The names of a function's parameters: none where the program has no such function.
pub fn parameters(program: &Program, function: FnId) -> &[NameId]
    requires { IsWellFormed program.now }
    ensures names { map (name_text program.now) result.now ≡ parameter_names program.now function }
    ensures all { All (IsName program.now) result.now }
{
    match program.functions.as_slice().get(function.0 as usize) {
        Some(function) => function.parameters.as_slice(),
        None => &[],
    }
}

/// Whether a name is that of a parameter among some.
fn is_among(program: &Program, name: &Text16, parameters: &[NameId]) -> bool
    requires { All (IsName program.now) parameters.now }
    ensures { result ≡ list_any (same_text name.now) (map (name_text program.now) parameters.now) }
{
    for parameter in parameters {
        if *name == *name_text(program, *parameter) {
            return true;
        }
    }
    false
}

/// Whether each parameter and the element of `arguments` at its place have one value: there is such
/// an argument, and no later parameter has the name.
pub fn sharing(
    alloc: Global,
    program: &Program,
    parameters: &[NameId],
    arguments: &[Value],
) -> Result<Vec<bool>, Memory>
    requires { All (IsName program.now) parameters.now }
    ensures { IfOk result (λ flags. flags.items
        ≡ objects.sharing (map (name_text program.now) parameters.now) arguments.now) }
{
    let mut flags = Vec::new(alloc);
    for index in 0..parameters.len().min(arguments.len()) {
        let name = name_text(program, parameters[index]);
        flags.push(!is_among(program, name, &parameters[index + 1..]))?;
    }
    Ok(flags)
}

/// Whether the value at a place is shared.
fn flag(flags: &[bool], index: usize) -> bool
    ensures { result ≡ objects.first_flag (drop index flags.now) }
{
    match flags.get(index) {
        Some(shared) => *shared,
        None => false,
    }
}

/// An object with parameters bound, the last of equal names winning; a missing argument is
/// undefined.
pub fn with_parameters(
    alloc: Global,
    program: &Program,
    mut object: Object,
    parameters: &[NameId],
    arguments: &[Value],
    flags: &[bool],
) -> Result<Object, Memory>
    requires { All (IsName program.now) parameters.now }
    ensures { IfOk result (λ o. o ≡ record object {
      properties = objects.with_parameters object.properties
          (map (name_text program.now) parameters.now) arguments.now flags.now;
    }) }
{
    for index in 0..parameters.len() {
        let name = name_text(program, parameters[index]);
        let value = argument(alloc, arguments, index)?;
        let content = Content::Value(value);
        object.set_property(alloc, name, content, DONT_DELETE, flag(flags, index))?;
    }
    Ok(object)
}

/// An activation without variables: it has no prototype.
pub fn empty_activation(alloc: Global, outer: Addr) -> Object
    ensures { result ≡ objects.activation outer [] }
{
    let slots = Slots {
        prototype: None,
        outer: Some(outer),
        scope: None,
        value: None,
        arguments: false,
    };
    Object::new(alloc, Class::Activation, slots)
}

/// An arguments object without elements: it has its callee, and the number of arguments.
fn empty_arguments(
    alloc: Global,
    callee: Option<Addr>,
    arguments: &[Value],
) -> Result<Object, Memory>
    ensures few { OnOk result (length arguments.now ≤ max_magnitude) }
    ensures object { IfOk result (λ o.
        o ≡ objects.empty_arguments (frames.object_or_undefined callee) (length arguments.now)) }
{
    let slots = Slots {
        prototype: Some(first_of(OBJECT_PROTOTYPE)),
        outer: None,
        scope: None,
        value: None,
        arguments: true,
    };
    let count = Content::Value(argument_count(arguments)?);
    let callee = Content::Value(object_or_undefined(callee));
    let name = Text16::from_ascii(alloc, b"callee")?;
    let object = Object::new(alloc, Class::Object, slots).with(alloc, &name, callee, DONT_ENUM)?;
    let name = Text16::from_ascii(alloc, b"length")?;
    object.with(alloc, &name, count, DONT_ENUM)
}

/// The arguments object of a function (10.1.8).
pub fn arguments_object(
    alloc: Global,
    callee: Option<Addr>,
    arguments: &[Value],
    flags: &[bool],
) -> Result<Object, Memory>
    ensures { IfOk result (λ o. o ≡ objects.arguments_object (frames.object_or_undefined callee)
        arguments.now flags.now) }
{
    let mut object = empty_arguments(alloc, callee, arguments)?;
    for index in 0..arguments.len() {
        let name = index_text(alloc, index as u64)?;
        let value = argument(alloc, arguments, index)?;
        let content = Content::Value(value);
        object.set_property(alloc, &name, content, DONT_ENUM, flag(flags, index))?;
    }
    Ok(object)
}
