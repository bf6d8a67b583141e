//! The messages of the errors that nodes throw, and the texts of names.

ghost use Rattle.std.specs.Prelude.{◌≡◌, ◌<◌, IfOk, length};
ghost use Rattle.ja_machine.specs.Events as messages;
ghost use Rattle.ja_machine.specs.Nodes.{name_text};

use ja_base::{Memory, NameId};
use ja_graph::Program;
use ja_prim::{Text16, push_ascii};
use std::alloc::Global;

/// The text of a name, which is one of the program.
pub fn name_text(program: &Program, name: NameId) -> &Text16
    requires { name.0 < length program.now.names }
    ensures { result.now ≡ name_text program.now name }
{
    &program.names.as_slice()[name.0 as usize]
}

/// The message that a name isn't bound. It may have too many units for a text.
pub fn unbound(alloc: Global, name: &Text16) -> Result<Vec<u16>, Memory>
    ensures { IfOk result (λ units. units.items ≡ messages.unbound_message name.now) }
{
    let mut units = name.units().to_vec(alloc)?;
    push_ascii(&mut units, b" is not bound")?;
    Ok(units)
}

/// A message of ASCII characters.
fn message(alloc: Global, bytes: &[u8]) -> Result<Vec<u16>, Memory>
    ensures { IfOk result (λ units. units.items ≡ bytes.now) }
{
    let mut units = Vec::new(alloc);
    push_ascii(&mut units, bytes)?;
    Ok(units)
}

/// A property of null or undefined is asked for (ES3 9.9).
pub fn nothing(alloc: Global) -> Result<Vec<u16>, Memory>
    ensures { IfOk result (λ units. units.items ≡ messages.nothing_message) }
{
    message(alloc, b"property of null or undefined")
}

/// The right operand of `in` is no object (11.8.7).
pub fn not_an_object(alloc: Global) -> Result<Vec<u16>, Memory>
    ensures { IfOk result (λ units. units.items ≡ messages.not_an_object_message) }
{
    message(alloc, b"right operand of in is not an object")
}

/// What is put as the length of an array is no such length (15.4.5.1).
pub fn array_length(alloc: Global) -> Result<Vec<u16>, Memory>
    ensures { IfOk result (λ units. units.items ≡ messages.array_length_message) }
{
    message(alloc, b"array length")
}

/// The right operand of `instanceof` is no function (11.8.6).
pub fn no_function(alloc: Global) -> Result<Vec<u16>, Memory>
    ensures { IfOk result (λ units. units.items ≡ messages.no_function_message) }
{
    message(alloc, b"right operand of instanceof is not a function")
}

/// The `prototype` of a function is no object (15.3.5.3).
pub fn no_prototype(alloc: Global) -> Result<Vec<u16>, Memory>
    ensures { IfOk result (λ units. units.items ≡ messages.no_prototype_message) }
{
    message(alloc, b"prototype is not an object")
}

/// What can't be called is called (11.2.3).
pub fn not_a_function(alloc: Global) -> Result<Vec<u16>, Memory>
    ensures { IfOk result (λ units. units.items ≡ messages.not_a_function_message) }
{
    message(alloc, b"call of a value that is not a function")
}

/// What can't construct is to construct (11.2.2).
pub fn not_a_constructor(alloc: Global) -> Result<Vec<u16>, Memory>
    ensures { IfOk result (λ units. units.items ≡ messages.not_a_constructor_message) }
{
    message(alloc, b"new of a value that is not a constructor")
}
