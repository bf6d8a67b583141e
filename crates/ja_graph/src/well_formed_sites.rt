//! Whether the sites of nodes are numbered in order, and told as what they are.

ghost use Rattle.std.specs.Prelude.{◌≡◌, ◌↔◌, ◌<◌, ◌∷◌, [], IsTrue, length, map};
ghost use Rattle.std.specs.List.{AllByRecursion};
ghost use Rattle.ja_graph.specs.Node.{makings};
ghost use Rattle.ja_graph.specs.Program.{runs_function};
ghost use Rattle.ja_graph.specs.code.Parts as spec;
ghost use Rattle.ja_graph.specs.WellFormed as graph;

use crate::well_formed_nodes::is_function_if_any;
use crate::{BUILTIN_CLASSES, Class, Making, Node, NodeInfo, Program, SiteInfo, makings};

/// Whether the objects of a site run a function, where they are called or where they construct.
pub(crate) fn runs_function(info: &SiteInfo) -> bool
    ensures { result ≡ runs_function info.now }
{
    info.calls.is_some() || info.constructs.is_some()
}

/// Whether the program tells that the function makes objects of the class at the site, and that
/// they run a function only where they are function objects.
fn is_site_told(program: &Program, owner: usize, making: &Making) -> bool
    ensures { IsTrue result ↔ graph.IsSiteTold program.now (graph.owned owner making.now) }
{
    match program.sites.as_slice().get(making.site.0 as usize) {
        Some(info) => {
            info.class == making.class
                && match info.owner {
                    Some(function) => function.0 as usize == owner,
                    None => false,
                }
                && (making.class == Class::Function || !runs_function(info))
        }
        None => false,
    }
}

/// The number behind that of a site, where it is this number and told.
fn after(program: &Program, owner: usize, number: usize, making: &Making) -> Option<usize>
    ensures { spec.EndsAt program.now number (graph.owned owner making.now ∷ []) result }
{
    if making.site.0 as usize == number && is_site_told(program, owner, making) {
        Some(number + 1)
    } else {
        None
    }
}

/// The number behind those of the sites of a node, where they go on from this number and are told.
fn after_node(program: &Program, owner: usize, number: usize, node: &Node) -> Option<usize>
    ensures { spec.EndsAt program.now number (map (graph.owned owner) (makings node.now)) result }
{
    let mut next = number;
    let makings = makings(node);
    for making in makings.as_slice() {
        next = after(program, owner, next, making)?;
    }
    Some(next)
}

/// The number behind those of the sites of nodes, where they go on from this number and are told.
fn after_nodes(program: &Program, owner: usize, number: usize, nodes: &[NodeInfo]) -> Option<usize>
    ensures { spec.EndsAt program.now number (graph.makings_of owner nodes.now) result }
{
    let mut next = number;
    for info in nodes {
        next = after_node(program, owner, next, &info.node)?;
    }
    Some(next)
}

/// The number behind those of the sites of all nodes, where they go on from the objects of the
/// opening heap and are told.
fn after_functions(program: &Program) -> Option<usize>
    ensures { spec.EndsAt program.now (length program.now.opening)
        (graph.makings_from 0 program.now.functions) result }
{
    let mut next = program.opening.len();
    let functions = program.functions.as_slice();
    for f in 0..functions.len() {
        next = after_nodes(program, f, next, functions[f].nodes.as_slice())?;
    }
    Some(next)
}

/// Whether the sites of nodes stand behind those of the opening heap, numbered by function and
/// node, and are told as what they are.
pub(crate) fn are_sites_numbered(program: &Program) -> bool
    ensures { IsTrue result ↔ spec.AreSitesNumbered program.now }
{
    match after_functions(program) {
        Some(last) => last == program.sites.len(),
        None => false,
    }
}

/// Whether the functions that are told of a site are those of the program.
fn names_functions(program: &Program, info: &SiteInfo) -> bool
    ensures { IsTrue result ↔ graph.NamesFunctions program.now info.now }
{
    is_function_if_any(program, info.owner)
        && is_function_if_any(program, info.calls)
        && is_function_if_any(program, info.constructs)
}

/// Whether the functions that are told of sites are those of the program.
pub(crate) fn name_functions(program: &Program, sites: &[SiteInfo]) -> bool
    ensures { IsTrue result ↔ AllByRecursion (graph.NamesFunctions program.now) sites.now }
{
    for info in sites {
        if !names_functions(program, info) {
            return false;
        }
    }
    true
}

/// Whether a site has no owner, or isn't there.
fn is_unowned(program: &Program, site: usize) -> bool
    ensures { IsTrue result ↔ spec.IsUnowned program.now site }
{
    match program.sites.as_slice().get(site) {
        Some(info) => info.owner.is_none(),
        None => true,
    }
}

/// Whether no site without a node has an owner.
pub(crate) fn are_unowned(program: &Program) -> bool
    ensures { IsTrue result ↔ spec.AreUnowned program.now }
{
    for site in 0..program.opening.len() {
        if !is_unowned(program, site) {
            return false;
        }
    }
    true
}

/// Whether the program tells the class of a built-in object.
fn is_builtin(program: &Program, site: usize, class: Class) -> bool
    ensures { IsTrue result ↔ graph.IsBuiltin program.now site class }
{
    match program.sites.as_slice().get(site) {
        Some(info) => info.class == class && site < program.opening.len(),
        None => false,
    }
}

/// Whether the objects of the first sites have these classes.
fn have_classes(program: &Program, classes: &[Class]) -> bool
    ensures { IsTrue result ↔ spec.HaveClasses program.now classes.now }
{
    for site in 0..classes.len() {
        if !is_builtin(program, site, classes[site]) {
            return false;
        }
    }
    true
}

/// Whether the built-in objects have their classes.
pub(crate) fn are_builtins(program: &Program) -> bool
    ensures { IsTrue result ↔ spec.AreBuiltins program.now }
{
    have_classes(program, &BUILTIN_CLASSES)
}
