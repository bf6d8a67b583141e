//! The objects and the sites of host devices, in a program that has them.

ghost use Rattle.std.specs.Prelude.{◌≡◌, ◌≤◌, ◌++◌, ◌==◌, length, map, not, filter, if◌then◌else◌, IfOk, OnOk};
ghost use Rattle.std.specs.List.{enumerate_from, list_any};
ghost use Rattle.ja_graph.specs.declared.builtins.TheConstants.{GLOBAL};
ghost use Rattle.ja_graph.specs.declared.program.TheConstants.{MAX_DEVICES};
ghost use Rattle.ja_graph.specs.WellFormed.{max_names};
ghost use Rattle.ja_lower.specs.Limits.{max_functions};
ghost use Rattle.ja_load.specs.Hosts as spec;
ghost use Rattle.ja_lower_names.specs.Names.{number as number_in};
ghost use Rattle.ja_prelude.specs.Table.{opening_objects as table_objects};

use ja_base::{FnId, Memory, NameId, Place, Seq, Site};
use ja_graph::{
    ALL_ATTRS, BUILTIN_CLASSES, Class, DONT_ENUM, FUNCTION_PROTOTYPE, GLOBAL, LENGTH, ObjectSpec,
    PropertySpec, SiteInfo, SpecContent,
};
use ja_prelude::opening_objects;
use ja_prim::{Int, Num, Primitive, Signature, Text16};
use std::alloc::Global;

/// The signatures of devices, in memory of their own.
pub(crate) fn copied(alloc: Global, signatures: &[Signature]) -> Result<Seq<Signature>, Memory>
    ensures { IfOk result (λ copies. copies ≡ signatures.now) }
{
    let mut copies = Vec::with_capacity(alloc, signatures.len())?;
    for signature in signatures {
        let name = signature.name.copy()?;
        let kinds = signature.kinds;
        copies.push(Signature { name, kinds })?;
    }
    Ok(Seq::from_vec(copies))
}

/// The site of the device of a number.
fn device_site(which: u32) -> Site
    requires { which ≤ MAX_DEVICES }
    ensures { result ≡ spec.device_site which }
{
    Site(BUILTIN_CLASSES.len() as u32 + which)
}

/// What is known of the site of a device, which has the function of this number.
fn device_info(function: u32) -> SiteInfo
    ensures { result ≡ spec.device_info function }
{
    SiteInfo {
        class: Class::Function,
        place: Place { line: 0, column: 0 },
        owner: None,
        calls: Some(FnId(function)),
        constructs: None,
        builtin: None,
    }
}

/// Adds the sites of devices, of which the first has the function of this number.
#[tactic(auto, unfolding(crate::specs::Hosts::device_sites))]
pub(crate) fn add_device_sites(
    sites: &mut Vec<SiteInfo>,
    first: u32,
    signatures: &[Signature],
) -> Result<(), Memory>
    requires first { first ≤ max_functions }
    requires few { length signatures.now ≤ MAX_DEVICES }
    ensures { OnOk result (sites.new.items ≡ sites.old.items
        ++ spec.device_sites first signatures.now) }
{
    for (which, _signature) in signatures.iter().enumerate() {
        sites.push(device_info(first + which as u32))?;
    }
    Ok(())
}

/// The number of a name: its first place among the names, or the number behind the last one where
/// it isn't one of them.
fn number(names: &[Text16], name: &Text16) -> NameId
    requires { length names.now ≤ max_names }
    ensures { result ≡ number_in names.now name.now }
{
    for (place, other) in names.iter().enumerate() {
        if name.units() == other.units() {
            return NameId(place as u32);
        }
    }
    NameId(names.len() as u32)
}

/// The numbers of the names of devices.
fn numbers(alloc: Global, names: &[Text16], signatures: &[Signature]) -> Result<Vec<NameId>, Memory>
    requires { length names.now ≤ max_names }
    ensures { IfOk result (λ numbers. numbers.items
        ≡ map (λ s. number_in names.now s.name) signatures.now) }
{
    let mut numbers = Vec::with_capacity(alloc, signatures.len())?;
    for signature in signatures {
        numbers.push(number(names, &signature.name))?;
    }
    Ok(numbers)
}

/// Whether a name is one of these.
fn is_among(names: &[NameId], name: NameId) -> bool
    ensures { result ≡ list_any (λ n. n.0 == name.0) names.now }
{
    names.iter().any(|other| other.0 == name.0)
}

/// The property of the global object that has the device of a number, under this name.
fn property_named(name: NameId, which: u32) -> PropertySpec
    requires { which ≤ MAX_DEVICES }
    ensures { result ≡ spec.property_named name which }
{
    PropertySpec {
        name,
        content: SpecContent::Object(device_site(which)),
        attrs: DONT_ENUM,
    }
}

/// Properties without those of these names.
fn without(mut properties: Vec<PropertySpec>, names: &[NameId]) -> Vec<PropertySpec>
    ensures { result.items ≡ filter (λ q. not (list_any (λ n. n.0 == q.name.0) names.now))
        properties.items }
{
    properties.retain(|property| !is_among(names, property.name));
    properties
}

/// The properties of the global object with those of the devices of these names, in place of others
/// of their names.
fn with_devices(
    properties: Seq<PropertySpec>,
    names: &[NameId],
) -> Result<Seq<PropertySpec>, Memory>
    requires { length names.now ≤ MAX_DEVICES }
    ensures { IfOk result (λ all. all ≡ filter
        (λ q. not (list_any (λ n. n.0 == q.name.0) names.now)) properties
        ++ map (λ row. spec.property_named row.1 row.0) (enumerate_from 0 names.now)) }
{
    let mut all = without(properties.into_vec(), names);
    for (which, name) in names.iter().enumerate() {
        all.push(property_named(*name, which as u32))?;
    }
    Ok(Seq::from_vec(all))
}

/// A built-in object, with the devices of these names where it is the global object.
fn object_with(object: ObjectSpec, names: &[NameId]) -> Result<ObjectSpec, Memory>
    requires { length names.now ≤ MAX_DEVICES }
    ensures { IfOk result (λ o. o ≡ (if object.site.0 == GLOBAL.0
        then record object {
          properties = filter
              (λ q. not (list_any (λ n. n.0 == q.name.0) names.now)) object.properties
              ++ map (λ row. spec.property_named row.1 row.0) (enumerate_from 0 names.now);
        } else object)) }
{
    if object.site.0 == GLOBAL.0 {
        let properties = with_devices(object.properties, names)?;
        Ok(ObjectSpec {
            properties,
            ..object
        })
    } else {
        Ok(object)
    }
}

/// The built-in objects, with devices in the properties of the global object.
fn built_in(
    alloc: Global,
    names: &[Text16],
    signatures: &[Signature],
) -> Result<Vec<ObjectSpec>, Memory>
    requires names { length names.now ≤ max_names }
    requires few { length signatures.now ≤ MAX_DEVICES }
    ensures { IfOk result (λ objects. objects.items
        ≡ map (spec.object_with_devices names.now signatures.now) table_objects) }
{
    let numbers = numbers(alloc, names, signatures)?;
    let mut objects = Vec::new(alloc);
    for object in opening_objects(alloc)?.into_vec() {
        objects.push(object_with(object, &numbers)?)?;
    }
    Ok(objects)
}

/// The function object of the device of a number.
fn device_object(alloc: Global, which: u32) -> Result<ObjectSpec, Memory>
    requires { which ≤ MAX_DEVICES }
    ensures { IfOk result (λ o. o ≡ spec.device_object which) }
{
    let mut properties = Vec::new(alloc);
    properties.push(PropertySpec {
        name: LENGTH,
        content: SpecContent::Prim(Primitive::Number(Num::Whole(Int::new(0).unwrap()))),
        attrs: ALL_ATTRS,
    })?;
    Ok(ObjectSpec {
        site: device_site(which),
        prototype: Some(FUNCTION_PROTOTYPE),
        scope: Some(GLOBAL),
        value: None,
        properties: Seq::from_vec(properties),
    })
}

/// The objects that are there when the run of a program with these names begins: the built-in ones,
/// and behind them those of devices.
#[tactic(auto, unfolding(crate::specs::Hosts::opening_with))]
pub(crate) fn opening_with(
    alloc: Global,
    names: &[Text16],
    signatures: &[Signature],
) -> Result<Seq<ObjectSpec>, Memory>
    requires names { length names.now ≤ max_names }
    requires few { length signatures.now ≤ MAX_DEVICES }
    ensures { IfOk result (λ objects. objects ≡ spec.opening_with names.now signatures.now) }
{
    let mut objects = built_in(alloc, names, signatures)?;
    for (which, _signature) in signatures.iter().enumerate() {
        objects.push(device_object(alloc, which as u32)?)?;
    }
    Ok(Seq::from_vec(objects))
}
