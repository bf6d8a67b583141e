//! The state in which a run begins.

ghost use Rattle.std.specs.Prelude.{◌≡◌, ℕ, [], Some, IfOk, IfSome, slice_get};
ghost use Rattle.std.specs.Option.{option_map};
ghost use Rattle.ja_graph.specs.Program.{object_spec};
ghost use Rattle.ja_graph.specs.WellFormed.{IsWellFormed, IsObjectWellFormed};
ghost use Rattle.ja_machine.specs.Machine.{opening_content, opening_object, opening_heap, opening_frame, opening_state, class_of_site};
ghost use Rattle.ja_machine.specs.Objects.{first_of};
ghost use Rattle.ja_step.specs.code.Steps.{frame_of, conf_of};

use crate::entry::entered;
use crate::{Conf, Frame};
use ja_base::{FnId, Memory, Site};
use ja_graph::{Class, GLOBAL, ObjectSpec, Program, SpecContent};
use ja_heap::{Heap, Object};
use ja_machine::{Addr, Content, Slots, Value};
use ja_operations::made::first_of;
use ja_operations::messages::name_text;
use ja_prim::Primitive;
use std::alloc::Global;

/// The class of the objects of a site.
fn class_of_site(program: &Program, site: Site) -> Class
    ensures { result ≡ class_of_site program.now site.0 }
{
    match program.sites.as_slice().get(site.0 as usize) {
        Some(info) => info.class,
        None => Class::Object,
    }
}

/// What a property has when a run begins.
fn opening_content(alloc: Global, content: &SpecContent) -> Result<Content, Memory>
    ensures { IfOk result (λ c. c ≡ opening_content content.now) }
{
    match content {
        SpecContent::Prim(primitive) => {
            let copy = primitive.copy()?;
            Ok(Content::Value(Value::Primitive(copy)))
        }
        SpecContent::Object(site) => Ok(Content::Value(Value::Object(first_of(*site)))),
        SpecContent::Row => Ok(Content::Row),
    }
}

/// The object of a site, if one is named.
fn named_object(site: Option<Site>) -> Option<Addr>
    ensures { result ≡ option_map first_of site }
{
    match site {
        Some(site) => Some(first_of(site)),
        None => None,
    }
}

/// The value that an object has when a run begins, if it has one.
fn opening_value(alloc: Global, value: &Option<Primitive>) -> Result<Option<Primitive>, Memory>
    ensures { IfOk result (λ v. v ≡ value.now) }
{
    match value {
        Some(value) => {
            let copy = value.copy()?;
            Ok(Some(copy))
        }
        None => Ok(None),
    }
}

/// An object that is there when a run begins, without its properties.
fn bare_object(alloc: Global, program: &Program, spec: &ObjectSpec) -> Result<Object, Memory>
    ensures { IfOk result (λ o. o ≡ record (opening_object program.now spec.now)
        { properties = [] }) }
{
    let slots = Slots {
        prototype: named_object(spec.prototype),
        outer: None,
        scope: named_object(spec.scope),
        value: opening_value(alloc, &spec.value)?,
        arguments: false,
    };
    Ok(Object::new(alloc, class_of_site(program, spec.site), slots))
}

/// An object that is there when a run begins.
fn opening_object(alloc: Global, program: &Program, spec: &ObjectSpec) -> Result<Object, Memory>
    requires program { IsWellFormed program.now }
    requires spec { (i : ℕ) × IsObjectWellFormed program.now i spec.now }
    ensures { IfOk result (λ o. o ≡ opening_object program.now spec.now) }
{
    let mut object = bare_object(alloc, program, spec)?;
    let properties = spec.properties.as_slice();
    for property in properties {
        let name = name_text(program, property.name);
        let content = opening_content(alloc, &property.content)?;
        object.define(alloc, name, content, property.attrs)?;
    }
    Ok(object)
}

/// The object that a site has when a run begins.
fn object_spec(program: &Program, site: usize) -> Option<&ObjectSpec>
    ensures first { option_map (λ o. o.now) result ≡ object_spec program.now site }
    ensures among { IfSome result (λ o. (i : ℕ) × (slice_get program.now.opening i ≡ Some o.now)) }
{
    let opening = program.opening.as_slice();
    for spec in opening {
        if spec.site.0 as usize == site {
            return Some(spec);
        }
    }
    None
}

/// The object that is made at a site when a run begins, if there is one.
fn opening_site(alloc: Global, program: &Program, site: usize) -> Result<Option<Object>, Memory>
    requires { IsWellFormed program.now }
    ensures { IfOk result (λ o. o ≡ option_map (opening_object program.now)
        (object_spec program.now site)) }
{
    match object_spec(program, site) {
        Some(spec) => {
            let object = opening_object(alloc, program, spec)?;
            Ok(Some(object))
        }
        None => Ok(None),
    }
}

/// The heap in which a run begins: each site has its object, or none.
fn opening_heap(alloc: Global, program: &Program) -> Result<Heap, Memory>
    requires { IsWellFormed program.now }
    ensures { IfOk result (λ h. h ≡ opening_heap program.now) }
{
    let mut heap = Heap::new(alloc)?;
    for site in 0..program.sites.len() {
        let object = opening_site(alloc, program, site)?;
        heap.add_site(alloc, object)?;
    }
    Ok(heap)
}

/// The frame in which a program is entered: the global object is its receiver and its scope chain.
fn opening_frame(alloc: Global, program: &Program) -> Result<Frame, Memory>
    ensures { IfOk result (λ frame. frame_of frame ≡ opening_frame program.now) }
{
    let global = first_of(GLOBAL);
    let arguments = Vec::new(alloc);
    entered(alloc, program, 0, FnId(0), global, None, global, arguments)
}

/// The state in which the run of a well-formed program begins.
///
/// # Errors
///
/// `Memory` where memory is refused.
pub fn opening(alloc: Global, program: &Program) -> Result<Conf, Memory>
    requires { IsWellFormed program.now }
    ensures { IfOk result (λ conf. conf_of conf ≡ opening_state program.now) }
{
    let heap = opening_heap(alloc, program)?;
    let frame = opening_frame(alloc, program)?;
    Ok(Conf {
        heap,
        frame,
        below: Vec::new(alloc),
        steps: 0,
    })
}
