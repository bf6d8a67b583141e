//! What the operations of the built-in functions give of values and the heap.

ghost use Rattle.std.specs.Prelude.{◌≡◌, ◌∷◌, [], ◌≤◌, IfOk, Some, None, length, slice_get, is_some};
ghost use Rattle.std.specs.Option.{option_map};
ghost use Rattle.ja_prim.specs.Texts.{max_units};
ghost use Rattle.ja_graph.specs.WellFormed.{arguments_taken};
ghost use Rattle.ja_machine.specs.declared.machine.Heap.{Heap as MachineHeap};
ghost use Rattle.ja_machine.specs.Intrinsics as spec;
ghost use Rattle.ja_machine.specs.TextOperations.{row};
ghost use Rattle.ja_machine.specs.Values.{is_object};
ghost use Rattle.ja_operations.specs.code.Texts.{text_operation};

use crate::texts::{of_primitives, text_operation};
use ja_base::{Memory, ScopeKind};
use ja_graph::Class;
use ja_heap::Heap;
use ja_machine::{TextOperation, Value};
use ja_prim::{Primitive, Text16};
use std::alloc::Global;

/// What an operation gives: a primitive value, or why the run leaves the profile.
pub type Outcome = Result<Primitive, ScopeKind>;

/// An operation doesn't take the values.
pub(crate) const REFUSED: ScopeKind = ScopeKind::Register;

/// Whether something holds.
fn tells(truth: bool) -> Outcome
    ensures { result ≡ spec.tells truth }
{
    Ok(Primitive::Bool(truth))
}

/// Whether a value is an object.
fn is_object(value: &Value) -> bool
    ensures { result ≡ is_object value.now }
{
    match value {
        Value::Object(_) => true,
        Value::Primitive(_) => false,
    }
}

/// The name of a class (ES3 8.6.2).
fn class_name(class: Class) -> &'static [u8]
    ensures text { result.now ≡ spec.class_name class }
    ensures short { length result.now ≤ max_units }
{
    match class {
        Class::Object => b"Object",
        Class::Function => b"Function",
        Class::Array => b"Array",
        Class::String => b"String",
        Class::Boolean => b"Boolean",
        Class::Number => b"Number",
        Class::Error => b"Error",
        Class::Math => b"Math",
        Class::Activation => b"Object",
    }
}

/// The class of an object, as a text.
fn class_of(alloc: Global, heap: &Heap, value: &Value) -> Result<Outcome, Memory>
    ensures { IfOk result (λ outcome. outcome ≡ spec.class_of heap.now value.now) }
{
    let Value::Object(a) = value else {
        return Ok(Err(REFUSED));
    };
    match heap.class_at(*a) {
        None => Ok(Err(REFUSED)),
        Some(class) => {
            let text = Text16::from_ascii(alloc, class_name(class))?;
            Ok(Ok(Primitive::Text(text)))
        }
    }
}

/// The internal value of an object (ES3 8.6.2).
fn value_of(alloc: Global, heap: &Heap, value: &Value) -> Result<Outcome, Memory>
    ensures { IfOk result (λ outcome. outcome ≡ spec.value_of heap.now value.now) }
{
    let Value::Object(a) = value else {
        return Ok(Err(REFUSED));
    };
    let Some(object) = heap.object(*a) else {
        return Ok(Err(REFUSED));
    };
    match object.value() {
        None => Ok(Err(REFUSED)),
        Some(internal) => Ok(Ok(internal.copy()?)),
    }
}

/// Whether an object has a property of its own.
fn has_own(heap: &Heap, value: &Value, name: &Value) -> Outcome
    ensures { result ≡ spec.of_own is_some heap.now value.now name.now }
{
    match (value, name) {
        (Value::Object(a), Value::Primitive(Primitive::Text(name))) => {
            tells(heap.own(*a, name).is_some())
        }
        _ => Err(REFUSED),
    }
}

/// Whether an object has a property of its own that isn't DontEnum.
fn is_enumerable(heap: &Heap, value: &Value, name: &Value) -> Outcome
    ensures { result ≡ spec.of_own spec.is_shown heap.now value.now name.now }
{
    match (value, name) {
        (Value::Object(a), Value::Primitive(Primitive::Text(name))) => {
            match heap.own(*a, name) {
                Some(held) => tells(!held.attrs.dont_enum),
                None => tells(false),
            }
        }
        _ => Err(REFUSED),
    }
}

/// Whether an object is on the prototype chain behind a value.
fn inherits(heap: &Heap, value: &Value, prototype: &Value) -> Outcome
    ensures { result ≡ spec.inherits heap.now value.now prototype.now }
{
    let Value::Object(prototype) = prototype else {
        return Err(REFUSED);
    };
    match value {
        Value::Object(a) => tells(heap.inherits_from(*a, *prototype)),
        Value::Primitive(_) => tells(false),
    }
}

/// Whether a value is an array or an arguments object.
fn is_list(heap: &Heap, value: &Value) -> bool
    ensures { result ≡ spec.is_list heap.now value.now }
{
    match value {
        Value::Object(a) => heap.has_elements(*a),
        Value::Primitive(_) => false,
    }
}

/// What an operation that reads the heap gives of the one value that it takes, by its number (its
/// place in `INTRINSICS`).
fn of_one(alloc: Global, heap: &Heap, which: u32, value: &Value) -> Result<Outcome, Memory>
    requires heap { text_operation which ≡ None }
    requires one { arguments_taken which ≡ Some 1 }
    ensures { IfOk result (λ outcome. Some outcome
        ≡ option_map (λ (row : spec.Computation). row (value.now ∷ []) heap.now)
        (slice_get spec.rows which)) }
{
    match which {
        0 => Ok(tells(is_object(value))),
        1 => class_of(alloc, heap, value),
        2 => value_of(alloc, heap, value),
        6 => Ok(tells(is_list(heap, value))),
        _ => unreachable!(),
    }
}

/// What it gives of the two values that it takes.
fn of_two(heap: &Heap, which: u32, first: &Value, second: &Value) -> Outcome
    requires heap { text_operation which ≡ None }
    requires two { arguments_taken which ≡ Some 2 }
    ensures { Some result
        ≡ option_map (λ (row : spec.Computation). row (first.now ∷ second.now ∷ []) heap.now)
        (slice_get spec.rows which) }
{
    match which {
        3 => has_own(heap, first, second),
        4 => is_enumerable(heap, first, second),
        5 => inherits(heap, first, second),
        _ => unreachable!(),
    }
}

/// The primitive values, if all of these are primitive.
fn primitives_in(alloc: Global, values: &[Value]) -> Result<Option<Vec<Primitive>>, Memory>
    ensures { IfOk result (λ list. option_map (λ v. v.items) list ≡ spec.primitives_in values.now) }
{
    let mut list = Vec::new(alloc);
    for value in values {
        match value {
            Value::Primitive(primitive) => list.push(primitive.copy()?)?,
            Value::Object(_) => return Ok(None),
        }
    }
    Ok(Some(list))
}

/// What an operation on texts and numbers gives.
fn on_primitives(
    alloc: Global,
    operation: TextOperation,
    values: &[Value],
) -> Result<Outcome, Memory>
    ensures { (h : MachineHeap) → IfOk result (λ outcome. outcome
        ≡ spec.on_primitives (row operation) values.now h) }
{
    match primitives_in(alloc, values)? {
        Some(list) => of_primitives(alloc, operation, &list),
        None => Ok(Err(REFUSED)),
    }
}

/// What an operation gives of the values that it takes, by its number (its place in `INTRINSICS`):
/// a primitive value, or why the run leaves the profile. The error is want of memory.
pub fn of_values(
    alloc: Global,
    heap: &Heap,
    which: u32,
    values: &[Value],
) -> Result<Outcome, Memory>
    requires { arguments_taken which ≡ Some (length values.now) }
    ensures { IfOk result (λ outcome. Some outcome
        ≡ option_map (λ (row : spec.Computation). row values.now heap.now)
        (slice_get spec.rows which)) }
{
    if let Some(operation) = text_operation(which) {
        return on_primitives(alloc, operation, values);
    }
    match values {
        [value] => of_one(alloc, heap, which, value),
        [first, second] => Ok(of_two(heap, which, first, second)),
        _ => unreachable!(),
    }
}
