//! The properties of the objects that nodes make (ES3 9.9, 11.1.4, 11.1.5, 12.14, 15.11).

ghost use Rattle.std.specs.Prelude.{◌≡◌, [], ◌∷◌, IfOk};
ghost use Rattle.ja_graph.specs.declared.node.Made.TheVariants as made;
ghost use Rattle.ja_machine.specs.Objects.{prototype_of_error};
ghost use Rattle.ja_abstract.specs.Made as spec;
ghost use Rattle.ja_aheap.specs.Objects.{own_in};
ghost use Rattle.ja_value.specs.Value.{value_of, labels_in};

use ja_abstract::{Key, NumberPart, Slot, TextPart};
use ja_aheap as heap;
use ja_base::{Memory, Site};
use ja_functions::{inherits, property_of, slot_of};
use ja_graph::{
    ALL_ATTRS, ARRAY_PROTOTYPE, ERROR_PROTOTYPE, EVAL_ERROR_PROTOTYPE, ErrorKind, KEPT_HIDDEN,
    LENGTH, Made, OBJECT_PROTOTYPE, RANGE_ERROR_PROTOTYPE, REFERENCE_ERROR_PROTOTYPE,
    STRING_PROTOTYPE, SYNTAX_ERROR_PROTOTYPE, TYPE_ERROR_PROTOTYPE, URI_ERROR_PROTOTYPE,
};
use ja_value::{AValue, LabelSet, copy_text_part};
use std::alloc::Global;

/// The prototype of an error.
fn prototype_of_error(kind: ErrorKind) -> Site
    ensures { result ≡ prototype_of_error kind }
{
    match kind {
        ErrorKind::Error => ERROR_PROTOTYPE,
        ErrorKind::EvalError => EVAL_ERROR_PROTOTYPE,
        ErrorKind::RangeError => RANGE_ERROR_PROTOTYPE,
        ErrorKind::ReferenceError => REFERENCE_ERROR_PROTOTYPE,
        ErrorKind::SyntaxError => SYNTAX_ERROR_PROTOTYPE,
        ErrorKind::TypeError => TYPE_ERROR_PROTOTYPE,
        ErrorKind::URIError => URI_ERROR_PROTOTYPE,
    }
}

/// An object that has its prototype alone.
fn plain_made(alloc: Global, prototype: Site) -> Result<heap::Made, Memory>
    ensures { IfOk result (λ m. own_in m ≡ spec.own_of (spec.inherits prototype ∷ [])) }
{
    let mut listed = Vec::new(alloc);
    listed.push(inherits(alloc, prototype)?)?;
    Ok(heap::Made { listed })
}

/// An empty array.
fn array_made(alloc: Global) -> Result<heap::Made, Memory>
    ensures { IfOk result (λ m. own_in m ≡ spec.empty_own made.Array) }
{
    let length = AValue::whole_constant(alloc, 0);
    let mut listed = Vec::new(alloc);
    listed.push(inherits(alloc, ARRAY_PROTOTYPE)?)?;
    listed.push(property_of(Key::Name(LENGTH), length, KEPT_HIDDEN))?;
    Ok(heap::Made { listed })
}

/// An empty object, array or error.
pub(crate) fn empty_made(alloc: Global, kind: Made) -> Result<heap::Made, Memory>
    ensures { IfOk result (λ m. own_in m ≡ spec.empty_own kind) }
{
    match kind {
        Made::Object => plain_made(alloc, OBJECT_PROTOTYPE),
        Made::Array => array_made(alloc),
        Made::Error(kind) => plain_made(alloc, prototype_of_error(kind)),
    }
}

/// The object of a primitive that isn't a text.
pub(crate) fn wrapper_made(
    alloc: Global,
    prototype: Site,
    value: AValue,
) -> Result<heap::Made, Memory>
    ensures { IfOk result (λ m. own_in m ≡ spec.wrapper_own prototype (value_of value)) }
{
    let mut listed = Vec::new(alloc);
    listed.push(inherits(alloc, prototype)?)?;
    listed.push(slot_of(Slot::Value, value))?;
    Ok(heap::Made { listed })
}

/// The length of one text, or of any.
fn length_of_text(alloc: Global, part: &TextPart) -> AValue
    ensures { value_of result ≡ spec.length_of_text part.now }
{
    match part {
        TextPart::One(text) => AValue::whole_constant(alloc, text.units().len() as u32),
        _ => AValue::of_number_part(alloc, NumberPart::Index),
    }
}

/// The object of a text.
pub(crate) fn text_made(alloc: Global, part: &TextPart) -> Result<heap::Made, Memory>
    ensures { IfOk result (λ m. own_in m ≡ spec.text_own part.now) }
{
    let value = AValue::of_text_part(alloc, copy_text_part(alloc, part)?);
    let mut listed = Vec::new(alloc);
    listed.push(inherits(alloc, STRING_PROTOTYPE)?)?;
    listed.push(slot_of(Slot::Value, value))?;
    let length = length_of_text(alloc, part);
    listed.push(property_of(Key::Name(LENGTH), length, ALL_ATTRS))?;
    Ok(heap::Made { listed })
}

/// An object before a scope chain.
pub(crate) fn scope_made(alloc: Global, chain: LabelSet) -> Result<heap::Made, Memory>
    ensures { IfOk result (λ m. own_in m ≡ spec.scope_own (labels_in chain)) }
{
    let mut listed = Vec::new(alloc);
    listed.push(inherits(alloc, OBJECT_PROTOTYPE)?)?;
    listed.push(slot_of(Slot::Outer, AValue::of_labels(alloc, chain)))?;
    Ok(heap::Made { listed })
}
