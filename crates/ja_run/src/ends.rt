//! How the end of a run is told.

ghost use Rattle.std.specs.Prelude.{◌≡◌, ◌++◌, IfOk, OnOk};
ghost use Rattle.std.specs.Option.{option_map};
ghost use Rattle.ja_machine.specs.declared.machine.Value.TheVariants as value;
ghost use Rattle.ja_prim.specs.declared.primitive.Primitive.TheVariants as primitive;
ghost use Rattle.ja_run.specs.Ends as spec;

use crate::ended::RunEnd;
use ja_base::{Memory, Seq};
use ja_graph::Class;
use ja_heap::Heap;
use ja_machine::{Addr, Content, End, Value};
use ja_prim::{Num, Primitive, Text16};
use ja_texts::{class_text, push_plain, push_quoted, push_signed};
use std::alloc::Global;

/// A number, or that it is none.
fn push_number(text: &mut Vec<u8>, number: Num) -> Result<(), Memory>
    ensures { OnOk result (text.new.items ≡ text.old.items
        ++ spec.primitive_text (primitive.Number number)) }
{
    match number {
        Num::NaN => text.extend_from_slice(b"NaN")?,
        Num::Whole(n) => push_signed(text, n.get())?,
    }
    Ok(())
}

/// A primitive value; a text stands in quotes.
pub(crate) fn push_primitive(text: &mut Vec<u8>, value: &Primitive) -> Result<(), Memory>
    ensures { OnOk result (text.new.items ≡ text.old.items ++ spec.primitive_text value.now) }
{
    match value {
        Primitive::Undefined => text.extend_from_slice(b"undefined")?,
        Primitive::Null => text.extend_from_slice(b"null")?,
        Primitive::Bool(truth) => text.extend_from_slice(if *truth { b"true" } else { b"false" })?,
        Primitive::Number(number) => push_number(text, *number)?,
        Primitive::Text(units) => push_quoted(text, units.units())?,
    }
    Ok(())
}

/// The text that `[[Get]]` gives of an object, if it is one (ES3 8.6.2.1).
fn text_at<'a>(heap: &'a Heap, a: Addr, name: &Text16) -> Option<&'a Text16>
    ensures { option_map (λ t. t.now) result ≡ spec.text_at heap.now a name.now }
{
    match heap.content_at(a, name)? {
        Content::Value(value) => match value {
            Value::Primitive(primitive) => match primitive {
                Primitive::Text(text) => Some(text),
                _ => None,
            },
            Value::Object(_) => None,
        },
        Content::Row => None,
    }
}

/// An object of a class, with the texts that it has as its name and its message.
fn push_object(
    text: &mut Vec<u8>,
    class: Class,
    name: Option<&Text16>,
    message: Option<&Text16>,
) -> Result<(), Memory>
    ensures { OnOk result (text.new.items ≡ text.old.items
        ++ spec.object_text class (option_map (λ t. t.now) name.entry)
        (option_map (λ t. t.now) message.entry)) }
{
    match (class, name, message) {
        (Class::Error, Some(name), Some(message)) => {
            push_plain(text, name.units())?;
            text.extend_from_slice(b": ")?;
            push_plain(text, message.units())?;
        }
        _ => {
            text.extend_from_slice(b"object ")?;
            text.extend_from_slice(class_text(class))?;
        }
    }
    Ok(())
}

/// An object: an error by its name and its message, where both are texts; any other one by its
/// class.
fn push_object_at(text: &mut Vec<u8>, alloc: Global, heap: &Heap, a: Addr) -> Result<(), Memory>
    ensures { OnOk result (text.new.items ≡ text.old.items
        ++ spec.uncaught_text heap.now (value.Object a)) }
{
    let name = Text16::from_ascii(alloc, b"name")?;
    let message = Text16::from_ascii(alloc, b"message")?;
    let class = heap.class_at(a).unwrap_or(Class::Object);
    push_object(
        text,
        class,
        text_at(heap, a, &name),
        text_at(heap, a, &message),
    )
}

/// A value that nothing caught.
fn uncaught(alloc: Global, heap: &Heap, value: &Value) -> Result<Vec<u8>, Memory>
    ensures { IfOk result (λ text. text.items ≡ spec.uncaught_text heap.now value.now) }
{
    let mut text = Vec::new(alloc);
    match value {
        Value::Primitive(primitive) => push_primitive(&mut text, primitive)?,
        Value::Object(a) => push_object_at(&mut text, alloc, heap, *a)?,
    }
    Ok(text)
}

/// An end of the machine, with the heap in which it ends.
pub(crate) fn run_end_of(alloc: Global, heap: &Heap, end: &End) -> Result<RunEnd, Memory>
    ensures { IfOk result (λ e. e ≡ spec.run_end_of heap.now end.now) }
{
    match end {
        End::Normal => Ok(RunEnd::Normal),
        End::Uncaught(value) => Ok(RunEnd::Uncaught(Seq::from_vec(uncaught(alloc, heap, value)?))),
        End::Scope { kind, place } => Ok(RunEnd::Scope {
            kind: *kind,
            place: *place,
        }),
    }
}
