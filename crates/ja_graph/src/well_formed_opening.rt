//! Whether the objects that are there when a run begins are well formed.

ghost use Rattle.std.specs.Prelude.{◌↔◌, ◌<◌, ◌≤◌, IsTrue, IsSome, length};
ghost use Rattle.ja_graph.specs.code.Parts as spec;
ghost use Rattle.ja_graph.specs.Program.{object_spec};
ghost use Rattle.ja_graph.specs.WellFormed as graph;

use crate::well_formed_sites::runs_function;
use crate::{ObjectSpec, Program, PropertySpec, SpecContent};
use ja_base::{NameId, Site};

/// Whether one of the first `i` objects has the site.
fn stands_before(program: &Program, i: usize, site: Site) -> bool
    requires { i ≤ length program.now.opening }
    ensures { IsTrue result ↔ graph.StandsBefore program.now i site }
{
    let opening = program.opening.as_slice();
    for j in 0..i {
        if opening[j].site.0 == site.0 {
            return true;
        }
    }
    false
}

/// Whether a site, if there is one, is that of one of the first `i` objects.
fn stands_before_if_any(program: &Program, i: usize, site: Option<Site>) -> bool
    requires { i ≤ length program.now.opening }
    ensures { IsTrue result ↔ spec.StandsBeforeIfAny program.now i site }
{
    match site {
        Some(site) => stands_before(program, i, site),
        None => true,
    }
}

/// Whether an object has a scope, if it runs a function.
fn has_scope(program: &Program, object: &ObjectSpec) -> bool
    ensures { IsTrue result ↔ spec.HasScope program.now object.now }
{
    match program.sites.as_slice().get(object.site.0 as usize) {
        Some(info) => object.scope.is_some() || !runs_function(info),
        None => true,
    }
}

/// Whether properties have names of the program.
fn have_names(program: &Program, properties: &[PropertySpec]) -> bool
    ensures { IsTrue result ↔ spec.HaveNames program.now properties.now }
{
    for property in properties {
        if property.name.0 as usize >= program.names.len() {
            return false;
        }
    }
    true
}

/// Whether what a property has is no object or one of the opening heap.
fn is_content(program: &Program, content: &SpecContent) -> bool
    ensures { IsTrue result ↔ graph.IsContent program.now content.now }
{
    match content {
        SpecContent::Object(site) => (site.0 as usize) < program.opening.len(),
        _ => true,
    }
}

/// Whether the objects that properties have are those of the opening heap.
fn have_contents(program: &Program, properties: &[PropertySpec]) -> bool
    ensures { IsTrue result ↔ spec.HaveContents program.now properties.now }
{
    for property in properties {
        if !is_content(program, &property.content) {
            return false;
        }
    }
    true
}

/// Whether one of the first `k` properties has the name.
fn is_property_before(properties: &[PropertySpec], k: usize, name: NameId) -> bool
    requires { k ≤ length properties.now }
    ensures { IsTrue result ↔ spec.IsPropertyBefore properties.now k name }
{
    for j in 0..k {
        if properties[j].name.0 == name.0 {
            return true;
        }
    }
    false
}

/// Whether no two properties have one name. Each is compared with those before it, so the time
/// grows with the square of how many there are.
fn are_once(properties: &[PropertySpec]) -> bool
    ensures { IsTrue result ↔ spec.AreOnce properties.now }
{
    for k in 0..properties.len() {
        if is_property_before(properties, k, properties[k].name) {
            return false;
        }
    }
    true
}

/// Whether the `i`-th object of the opening heap is well formed.
fn is_object_well_formed(program: &Program, i: usize, object: &ObjectSpec) -> bool
    requires { i ≤ length program.now.opening }
    ensures { IsTrue result ↔ graph.IsObjectWellFormed program.now i object.now }
{
    let properties = object.properties.as_slice();
    (object.site.0 as usize) < program.opening.len()
        && stands_before_if_any(program, i, object.prototype)
        && stands_before_if_any(program, i, object.scope)
        && has_scope(program, object)
        && have_names(program, properties)
        && have_contents(program, properties)
        && are_once(properties)
}

/// Whether each object of the opening heap is well formed. A prototype is looked for among the
/// objects before, so the time grows with the square of how many there are.
pub(crate) fn are_objects_well_formed(program: &Program) -> bool
    ensures { IsTrue result ↔ spec.AreObjectsWellFormed program.now }
{
    let opening = program.opening.as_slice();
    for i in 0..opening.len() {
        if !is_object_well_formed(program, i, &opening[i]) {
            return false;
        }
    }
    true
}

/// Whether a site has an object in the opening heap.
fn has_object(program: &Program, site: usize) -> bool
    ensures { IsTrue result ↔ IsSome (object_spec program.now site) }
{
    for object in program.opening.as_slice() {
        if object.site.0 as usize == site {
            return true;
        }
    }
    false
}

/// Whether each site below the number of objects in the opening heap has one of them. The time
/// grows with the square of that number.
pub(crate) fn have_objects(program: &Program) -> bool
    ensures { IsTrue result ↔ spec.HaveObjects program.now }
{
    for site in 0..program.opening.len() {
        if !has_object(program, site) {
            return false;
        }
    }
    true
}
