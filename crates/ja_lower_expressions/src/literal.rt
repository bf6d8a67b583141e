//! Array and object literals, and functions as expressions (ES3 11.1.4, 11.1.5, 13).

ghost use Rattle.std.specs.Prelude.{◌≡◌, IfOk, map, pos, decimal, codes};
ghost use Rattle.std.specs.Fmt.{signed_decimal};
ghost use Rattle.ja_lower_draft.specs.code.Lines as lines;
ghost use Rattle.ja_lower_expressions.specs.code.Expressions as expressions;
ghost use Rattle.ja_lower_expressions.specs.Literals as spec;

use crate::expression::value;
use ja_base::{FnId, Memory, Place, Reg, Site};
use ja_graph::{Made, Node};
use ja_lower_draft::conversion::{constant, copy, set};
use ja_lower_draft::{Draft, Scene};
use ja_prim::{Int, Num, Primitive, Text16, to_text};
use ja_syntax::{Expression, Name, Property, PropertyName};
use std::alloc::Global;

/// The register of the scope chain and of the object in force.
const SCOPE: Reg = Reg(2);

/// A count as a number. Past the greatest number memory counts as refused.
fn whole(n: usize) -> Result<Int, Memory>
    ensures { IfOk result (λ int. int ≡ pos n) }
{
    match i64::try_from(n) {
        Err(_) => Err(Memory),
        Ok(n) => Int::new(n).ok_or(Memory),
    }
}

/// The decimal text of a number.
fn number_text(alloc: Global, n: Int) -> Result<Text16, Memory>
    ensures { IfOk result (λ text. text ≡ signed_decimal n) }
{
    to_text(alloc, &Primitive::Number(Num::Whole(n))).map_err(|_| Memory)
}

/// The text of an index.
fn index_text(alloc: Global, index: usize) -> Result<Text16, Memory>
    ensures { IfOk result (λ text. text ≡ decimal index) }
{
    let n = whole(index)?;
    number_text(alloc, n)
}

/// The text of a property's name.
fn property_text(alloc: Global, name: &PropertyName) -> Result<Text16, Memory>
    ensures { IfOk result (λ text. text ≡ spec.property_text name.now) }
{
    match name {
        PropertyName::Word(text) | PropertyName::Text(text) => Ok(text.copy()?),
        PropertyName::Number(n) => number_text(alloc, *n),
    }
}

/// Writes the property of an object by a key that is known.
#[tactic(auto, unfolding(crate::specs::Literals::write_known))]
fn write_known(
    scene: &Scene<'_, '_>,
    place: Place,
    object: Reg,
    key: Text16,
    src: Reg,
    draft: &mut Draft,
) -> Result<(), Memory>
    ensures { lines.Adds (spec.write_known scene.now place object key src draft.old) result
        draft.new }
{
    let key = constant(scene, place, Primitive::Text(key), draft)?;
    let node = Node::WriteProp {
        object,
        key,
        src,
        error: Site(0),
    };
    draft.node(scene.handler, place, node)
}

/// The text `length`.
fn length_text(alloc: Global) -> Result<Text16, Memory>
    ensures { IfOk result (λ text. text ≡ codes "length") }
{
    Ok(Text16::from_ascii(alloc, b"length")?)
}

/// Adds a new object.
fn new_object(
    scene: &Scene<'_, '_>,
    place: Place,
    kind: Made,
    draft: &mut Draft,
) -> Result<Reg, Memory>
    ensures { lines.Gives (spec.new_object scene.now place kind draft.old) result draft.new }
{
    let dst = draft.fresh()?;
    let node = Node::NewObject {
        dst,
        site: Site(0),
        kind,
    };
    draft.node(scene.handler, place, node)?;
    Ok(dst)
}

/// Writes the length of an array.
#[tactic(auto, unfolding(crate::specs::Literals::write_length))]
fn write_length(
    scene: &Scene<'_, '_>,
    place: Place,
    array: Reg,
    count: usize,
    draft: &mut Draft,
) -> Result<(), Memory>
    ensures { lines.Adds (spec.write_length scene.now place array count draft.old) result draft.new }
{
    let count = whole(count)?;
    let src = constant(scene, place, Primitive::Number(Num::Whole(count)), draft)?;
    let key = length_text(scene.alloc)?;
    write_known(scene, place, array, key, src, draft)
}

/// Writes an element under the text of its index. A hole writes nothing.
#[cycle(forms)]
#[tactic(auto, unfolding(crate::specs::Literals::write_element))]
fn write_element(
    scene: &Scene<'_, '_>,
    place: Place,
    array: Reg,
    index: usize,
    element: &Option<Expression>,
    draft: &mut Draft,
) -> Result<(), Memory>
    ensures { lines.Adds (spec.write_element scene.now place array index
        (expressions.element_of element.now) draft.old) result draft.new }
{
    match element {
        None => Ok(()),
        Some(element) => {
            let src = value(scene, element, draft)?;
            let key = index_text(scene.alloc, index)?;
            write_known(scene, place, array, key, src, draft)
        }
    }
}

/// Writes the elements of an array.
#[cycle(forms)]
#[tactic(auto, unfolding(crate::specs::Literals::write_elements))]
fn write_elements(
    scene: &Scene<'_, '_>,
    place: Place,
    array: Reg,
    elements: &[Option<Expression>],
    draft: &mut Draft,
) -> Result<(), Memory>
    ensures { lines.Adds (spec.write_elements scene.now place array 0
        (map expressions.element_of elements.now) draft.old) result draft.new }
{
    let mut index: usize = 0;
    for element in elements {
        write_element(scene, place, array, index, element, draft)?;
        index += 1;
    }
    Ok(())
}

/// An array literal.
#[cycle(forms)]
#[tactic(auto, unfolding(crate::specs::Literals::list_array))]
pub(crate) fn array(
    scene: &Scene<'_, '_>,
    elements: &[Option<Expression>],
    place: Place,
    draft: &mut Draft,
) -> Result<Reg, Memory>
    ensures { lines.Gives (spec.list_array (map expressions.element_of elements.now) place scene.now
        draft.old) result draft.new }
{
    let array = new_object(scene, place, Made::Array, draft)?;
    write_elements(scene, place, array, elements, draft)?;
    write_length(scene, place, array, elements.len(), draft)?;
    Ok(array)
}

/// Writes a property of an object literal.
#[cycle(forms)]
#[tactic(auto, unfolding(crate::specs::Literals::write_member))]
fn write_member(
    scene: &Scene<'_, '_>,
    place: Place,
    object: Reg,
    property: &Property<Expression>,
    draft: &mut Draft,
) -> Result<(), Memory>
    ensures { lines.Adds (spec.write_member scene.now place object
        (expressions.property_of property.now) draft.old) result draft.new }
{
    let src = value(scene, &property.value, draft)?;
    let key = property_text(scene.alloc, &property.name)?;
    write_known(scene, place, object, key, src, draft)
}

/// An object literal.
#[cycle(forms)]
#[tactic(auto, unfolding(crate::specs::Literals::list_object, crate::specs::Literals::write_members))]
pub(crate) fn object(
    scene: &Scene<'_, '_>,
    properties: &[Property<Expression>],
    place: Place,
    draft: &mut Draft,
) -> Result<Reg, Memory>
    ensures { lines.Gives (spec.list_object (map expressions.property_of properties.now) place
        scene.now draft.old) result draft.new }
{
    let object = new_object(scene, place, Made::Object, draft)?;
    for property in properties {
        write_member(scene, place, object, property, draft)?;
    }
    Ok(object)
}

/// Whether places are equal.
fn same_place(a: Place, b: Place) -> bool
    ensures { result ≡ spec.same_place a b }
{
    a.line == b.line && a.column == b.column
}

/// The number of a function, or the one behind the last where no function of the text has the
/// place. Past the last number that a function may have memory counts as refused.
fn function_id(scene: &Scene<'_, '_>, place: Place) -> Result<FnId, Memory>
    ensures { IfOk result (λ id. id ≡ spec.function_id scene.now place) }
{
    let mut number: u32 = 1;
    for function in scene.functions {
        if same_place(place, *function) {
            return Ok(FnId(number));
        }
        if number == u32::MAX {
            return Err(Memory);
        }
        number += 1;
    }
    Ok(FnId(number))
}

/// Adds the object of a function.
pub fn make_function(scene: &Scene<'_, '_>, place: Place, draft: &mut Draft) -> Result<Reg, Memory>
    ensures { lines.Gives (spec.make_function scene.now place draft.old) result draft.new }
{
    let function = function_id(scene, place)?;
    let dst = draft.fresh()?;
    let node = Node::MakeFunction {
        dst,
        function,
        site: Site(0),
        proto_site: Site(1),
    };
    draft.node(scene.handler, place, node)?;
    Ok(dst)
}

/// A function with a name, which an object of its own before its scope chain binds.
#[tactic(auto, unfolding(crate::specs::Literals::list_named_function))]
fn named_function(
    scene: &Scene<'_, '_>,
    name: &Name,
    place: Place,
    draft: &mut Draft,
) -> Result<Reg, Memory>
    ensures { lines.Gives (spec.list_named_function name.now place scene.now draft.old) result
        draft.new }
{
    let saved = copy(scene, place, SCOPE, draft)?;
    draft.node(scene.handler, place, Node::PushScope { site: Site(0) })?;
    let function = make_function(scene, place, draft)?;
    let node = Node::Bind {
        name: scene.name(name.text.units()),
        src: function,
        read_only: true,
    };
    draft.node(scene.handler, place, node)?;
    set(scene, place, SCOPE, saved, draft)?;
    Ok(function)
}

/// A function as an expression.
pub(crate) fn function(
    scene: &Scene<'_, '_>,
    name: &Option<Name>,
    place: Place,
    draft: &mut Draft,
) -> Result<Reg, Memory>
    ensures { lines.Gives (spec.list_function name.now place scene.now draft.old) result draft.new }
{
    match name {
        None => make_function(scene, place, draft),
        Some(name) => named_function(scene, name, place, draft),
    }
}
