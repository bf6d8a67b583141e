//! What the operations of the built-in functions tell of internal properties and prototypes (ES3
//! 8.6.2, 15.2.4.6, 15.3.4.3).

ghost use Rattle.std.specs.Prelude.{◌≡◌, ◌≤◌, IfOk, length, map, not};
ghost use Rattle.std.specs.List.{list_any};
ghost use Rattle.ja_prim.specs.Texts.{max_units};
ghost use Rattle.ja_graph.specs.Program.{is_arguments_site};
ghost use Rattle.ja_graph.specs.Node.{makes_arguments};
ghost use Rattle.ja_machine.specs.Intrinsics.{class_name};
ghost use Rattle.ja_abstract.specs.Made.{value_key};
ghost use Rattle.ja_abstract.specs.Operations as spec;
ghost use Rattle.ja_abstract.specs.Resolved.{demands_of, join_values};
ghost use Rattle.ja_aheap.specs.Objects.{demands_in};
ghost use Rattle.ja_astate.specs.Looks.{view_of};
ghost use Rattle.ja_astate.specs.code.Pairs.{demands_over};
ghost use Rattle.ja_value.specs.Value.{value_of};
ghost use Rattle.ja_functions.specs.code.Told.{IsTold, class_text, held};

use crate::told::Told;
use ja_abstract::{Key, Slot};
use ja_aheap::DemandList;
use ja_astate::{Ancestors, Reader, class_at, is_array};
use ja_base::{Label, Memory, Site};
use ja_graph::{Class, Function, Node, NodeInfo, Program};
use ja_prim::Text16;
use ja_value::AValue;
use std::alloc::Global;

/// The key of what an object of a primitive keeps.
const VALUE_KEY: Key = Key::Slot(Slot::Value);

/// Whether a value may be an object, and whether it may be none.
pub(crate) fn is_object(reader: &Reader<'_>, value: &AValue) -> Told
    ensures { IsTold (spec.is_object (view_of reader.now) (value_of value.now)) result }
{
    let alloc = reader.alloc;
    let answer = AValue::of_bools(alloc, value.has_labels(reader.sites), value.has_atoms());
    Told::value(alloc, answer)
}

/// The name of a class (8.6.2).
fn class_name(class: Class) -> &'static [u8]
    ensures text { result.now ≡ class_name class }
    ensures short { length result.now ≤ max_units }
{
    match class {
        Class::Object => b"Object",
        Class::Function => b"Function",
        Class::Array => b"Array",
        Class::String => b"String",
        Class::Boolean => b"Boolean",
        Class::Number => b"Number",
        Class::Error => b"Error",
        Class::Math => b"Math",
        Class::Activation => b"Object",
    }
}

/// The name of the class of the objects of a label.
fn class_text(alloc: Global, program: &Program, label: Label) -> Result<AValue, Memory>
    ensures { IfOk result (λ v. value_of v ≡ class_text program.now label) }
{
    let text = Text16::from_ascii(alloc, class_name(class_at(program, label)))?;
    Ok(AValue::of_text(alloc, text))
}

/// The names of the classes of the objects of some labels.
fn class_texts(alloc: Global, program: &Program, members: &[Label]) -> Result<AValue, Memory>
    ensures { IfOk result (λ v. value_of v
        ≡ join_values (map (class_text program.now) members.now)) }
{
    let mut sum = AValue::empty(alloc);
    for label in members.iter().rev() {
        let mut text = class_text(alloc, program, *label)?;
        text.join(alloc, &sum)?;
        sum = text;
    }
    Ok(sum)
}

/// The names of the classes of an object.
pub(crate) fn class_of(reader: &Reader<'_>, value: &AValue) -> Result<Told, Memory>
    ensures { IfOk result (IsTold (spec.class_of (view_of reader.now) (value_of value.now))) }
{
    let members = reader.labels(&value.labels)?;
    let texts = class_texts(reader.alloc, reader.program, &members)?;
    Ok(Told::value(reader.alloc, texts))
}

/// The primitives that the objects of a label may keep.
fn held(reader: &Reader<'_>, label: Label) -> Result<AValue, Memory>
    ensures { IfOk result (λ v. value_of v ≡ held (view_of reader.now) label) }
{
    let property = reader.resolved(label, VALUE_KEY)?;
    property.value.primitives_of(reader.alloc)
}

/// The primitives that the objects of some labels may keep.
fn all_held(reader: &Reader<'_>, members: &[Label]) -> Result<AValue, Memory>
    ensures { IfOk result (λ v. value_of v
        ≡ join_values (map (held (view_of reader.now)) members.now)) }
{
    let mut sum = AValue::empty(reader.alloc);
    for label in members.iter().rev() {
        let mut one = held(reader, *label)?;
        one.join(reader.alloc, &sum)?;
        sum = one;
    }
    Ok(sum)
}

/// Demands what that takes from the entry.
fn demand_held(reader: &Reader<'_>, members: &[Label]) -> Result<DemandList, Memory>
    ensures { IfOk result (λ d. demands_in d ≡ demands_over members.now
        (λ l. demands_of (view_of reader.now).state l value_key)) }
{
    let mut demands = DemandList::new(reader.alloc);
    for label in members {
        reader.demand(*label, VALUE_KEY, &mut demands)?;
    }
    Ok(demands)
}

/// The primitives that an object may keep.
pub(crate) fn internal_value(reader: &Reader<'_>, value: &AValue) -> Result<Told, Memory>
    ensures { IfOk result (IsTold (spec.value_of (view_of reader.now) (value_of value.now))) }
{
    let members = reader.labels(&value.labels)?;
    let demands = demand_held(reader, &members)?;
    let value = all_held(reader, &members)?;
    Ok(Told { value, demands })
}

/// Whether an object may inherit from another, and whether it may not.
pub(crate) fn inherits(
    reader: &Reader<'_>,
    value: &AValue,
    prototype: &AValue,
) -> Result<Told, Memory>
    ensures { IfOk result (IsTold (spec.inherits (view_of reader.now) (value_of value.now)
        (value_of prototype.now))) }
{
    let alloc = reader.alloc;
    let is_asked = prototype.has_labels(reader.sites);
    if !is_asked {
        return Ok(Told::nothing(alloc));
    }
    let Ancestors {
        all: _,
        proper,
        demands,
    } = reader.ancestors(&value.labels)?;
    let leads = proper.intersects(&prototype.labels, reader.sites);
    let may_fail = value.has_labels(reader.sites) | value.has_atoms();
    Ok(Told {
        value: AValue::of_bools(alloc, leads, may_fail),
        demands,
    })
}

/// Whether a node makes the arguments objects of a site.
fn makes_arguments(info: &NodeInfo, site: Site) -> bool
    ensures { result ≡ makes_arguments site info.now.node }
{
    match &info.node {
        Node::Enter {
            arguments: Some(list),
            ..
        } => list.0 == site.0,
        _ => false,
    }
}

/// Whether a function makes the arguments objects of a site.
fn has_arguments_at(function: &Function, site: Site) -> bool
    ensures { result ≡ list_any (λ info. makes_arguments site info.node) function.now.nodes }
{
    let nodes = function.nodes.as_slice();
    nodes.iter().any(|info| makes_arguments(info, site))
}

/// Whether the objects of a site are the arguments objects of a function.
fn is_arguments(program: &Program, site: Site) -> bool
    ensures { result ≡ is_arguments_site program.now site }
{
    let functions = program.functions.as_slice();
    functions
        .iter()
        .any(|function| has_arguments_at(function, site))
}

/// Whether the objects of a label are arrays or arguments objects.
fn is_list(program: &Program, label: Label) -> bool
    ensures { result ≡ spec.is_list_label program.now label }
{
    is_array(program, label) || is_arguments(program, label.site)
}

/// Whether the objects of one of some labels are arrays or arguments objects.
fn some_list(program: &Program, members: &[Label]) -> bool
    ensures { result ≡ list_any (spec.is_list_label program.now) members.now }
{
    members.iter().any(|label| is_list(program, *label))
}

/// Whether those of one are others.
fn some_other(program: &Program, members: &[Label]) -> bool
    ensures { result ≡ list_any (λ l. not (spec.is_list_label program.now l)) members.now }
{
    members.iter().any(|label| !is_list(program, *label))
}

/// Whether a value may have elements, and whether it may have none.
pub(crate) fn has_elements(reader: &Reader<'_>, value: &AValue) -> Result<Told, Memory>
    ensures { IfOk result (IsTold (spec.has_elements (view_of reader.now) (value_of value.now))) }
{
    let alloc = reader.alloc;
    let members = reader.labels(&value.labels)?;
    let is_list = some_list(reader.program, &members);
    let is_other = value.has_atoms() | some_other(reader.program, &members);
    Ok(Told::value(alloc, AValue::of_bools(alloc, is_list, is_other)))
}
