ghost use Rattle.std.specs.Prelude.{◌≡◌, ◌==◌, IfOk, IsTrue, find};
ghost use Rattle.std.specs.Option.{option_copied};
ghost use Rattle.ja_graph.specs.Program.{object_spec};
ghost use Rattle.ja_graph.specs.WellFormed.{IsWellFormed};
ghost use Rattle.ja_abstract.specs.AbstractState.{is_key};
ghost use Rattle.ja_abstract.specs.Contents.{opened};
ghost use Rattle.ja_value.specs.Value.{value_of, property_of};
ghost use Rattle.ja_table.specs.code.Opened.{value_given, named_property, object_given, primitive_given, opened_property};

use ja_abstract::{Key, Slot};
use ja_base::{Label, Memory, NameId, Site};
use ja_graph::{ObjectSpec, Program, PropertySpec, SpecContent};
use ja_prim::Primitive;
use ja_value::{AProp, AValue, exact_attrs, unknown_attrs};
use std::alloc::Global;

// The property of a name.
fn property_spec(object: &ObjectSpec, name: NameId) -> Option<&PropertySpec>
    ensures { option_copied result ≡ find (λ q. q.name.0 == name.0) object.now.properties }
{
    object
        .properties
        .as_slice()
        .iter()
        .find(|property| property.name.0 == name.0)
}

// What a property has when a run begins.
fn opened_value(alloc: Global, content: &SpecContent) -> Result<AValue, Memory>
    ensures { IfOk result (λ v. value_of v ≡ value_given content.now) }
{
    match content {
        SpecContent::Prim(primitive) => AValue::of_primitive(alloc, primitive),
        SpecContent::Object(site) => AValue::of_label(
            alloc,
            Label {
                site: *site,
                old: false,
            },
        ),
        SpecContent::Row => Ok(AValue::row(alloc)),
    }
}

// What an object of the opening heap has at a name.
fn named_property(alloc: Global, object: &ObjectSpec, name: NameId) -> Result<AProp, Memory>
    ensures { IfOk result (λ q. property_of q ≡ named_property object.now name) }
{
    match property_spec(object, name) {
        Some(property) => Ok(AProp {
            value: opened_value(alloc, &property.content)?,
            attrs: exact_attrs(property.attrs),
        }),
        None => Ok(AProp::absent(alloc)),
    }
}

// What a slot for an object has, if an object is in it.
fn object_slot(alloc: Global, site: Option<Site>) -> Result<AProp, Memory>
    ensures { IfOk result (λ q. property_of q ≡ object_given site) }
{
    match site {
        Some(site) => Ok(AProp {
            value: AValue::of_label(alloc, Label { site, old: false })?,
            attrs: unknown_attrs(),
        }),
        None => Ok(AProp::absent(alloc)),
    }
}

// What the slot for a primitive has, if a primitive is in it.
fn primitive_slot(alloc: Global, primitive: &Option<Primitive>) -> Result<AProp, Memory>
    ensures { IfOk result (λ q. property_of q ≡ primitive_given primitive.now) }
{
    match primitive {
        Some(primitive) => Ok(AProp {
            value: AValue::of_primitive(alloc, primitive)?,
            attrs: unknown_attrs(),
        }),
        None => Ok(AProp::absent(alloc)),
    }
}

// What an object of the opening heap has at a key.
fn opened_property(alloc: Global, object: &ObjectSpec, key: Key) -> Result<AProp, Memory>
    ensures { IfOk result (λ q. property_of q ≡ opened_property object.now key) }
{
    match key {
        Key::Name(name) => named_property(alloc, object, name),
        Key::Slot(Slot::Prototype) => object_slot(alloc, object.prototype),
        Key::Slot(Slot::Scope) => object_slot(alloc, object.scope),
        Key::Slot(Slot::Value) => primitive_slot(alloc, &object.value),
        _ => Ok(AProp::absent(alloc)),
    }
}

// The object of a site in the opening heap.
fn opening_object(program: &Program, site: Site) -> Option<&ObjectSpec>
    ensures { option_copied result ≡ object_spec program.now site.0 }
{
    program
        .opening
        .as_slice()
        .iter()
        .find(|object| object.site.0 == site.0)
}

/// What the objects of a label have at a key when a run begins: nothing, where the opening heap has
/// no such object.
pub fn opened(alloc: Global, program: &Program, label: Label, key: Key) -> Result<AProp, Memory>
    requires program { ∥ IsWellFormed program.now ∥₁ }
    requires key { IsTrue (is_key program.now key) }
    ensures { IfOk result (λ q. property_of q ≡ opened program.now label key) }
{
    let nothing = AProp {
        value: AValue::empty(alloc),
        attrs: unknown_attrs(),
    };
    if label.old {
        return Ok(nothing);
    }
    match opening_object(program, label.site) {
        Some(object) => opened_property(alloc, object, key),
        None => Ok(nothing),
    }
}
