//! The functions of a text, or those that are built in, each with the sites of its nodes numbered
//! for itself.

ghost use Rattle.std.specs.Prelude.{◌≡◌, ◌≤◌, ◌+◌, ◌++◌, [], length, map, IfOk, IfErr, OnOk};
ghost use Rattle.std.specs.List.{sum_by};
ghost use Rattle.std.specs.Option.{option_map_or};
ghost use Rattle.ja_lower_names.specs.Names.{number};
ghost use Rattle.ja_lower_names.specs.TextOrder as text;
ghost use Rattle.ja_lower_listing.specs.Listing.{assembled};
ghost use Rattle.ja_lower.specs.Limits.{max_size, size_of_body, size_of_bodies};
ghost use Rattle.ja_lower.specs.Lowering as spec;
ghost use Rattle.ja_lower.specs.code.Room.{Exceeds};

use crate::{Body, LowerFault};
use ja_base::{Memory, NameId, Place, Seq};
use ja_graph::NodeInfo;
use ja_lower_draft::{Draft, Scene};
use ja_lower_listing::assembled;
use ja_lower_names::Names;
use ja_lower_statements::{function_listing, program_listing};
use ja_prim::Text16;
use ja_syntax::{FunctionTree, Name, Statement};
use std::alloc::Global;

/// The most nodes that the functions may have, each parameter of a function counted as one more.
const MAX_NODES: usize = 65_536;

/// The nodes of a listing, if there is room for them.
#[tactic(auto, using(ja_lower_listing::proofs::Kept::assembled_counted))]
fn nodes_of(alloc: Global, listing: Draft, room: usize) -> Result<Seq<NodeInfo>, LowerFault>
    requires { room ≤ max_size }
    ensures nodes { IfOk result (λ nodes. nodes ≡ assembled listing.items) }
    ensures within { IfOk result (λ nodes. length nodes ≤ room) }
    ensures fault { IfErr result (Exceeds room (length (assembled listing.items))) }
{
    if listing.nodes() as usize > room {
        return Err(LowerFault::Nodes);
    }
    let items = listing.into_items(alloc)?;
    Ok(assembled(alloc, items)?)
}

/// The name of a function, which is empty where it has none.
fn name_of(alloc: Global, name: &Option<Name>) -> Result<Text16, Memory>
    ensures { IfOk result (λ text. text ≡ option_map_or (λ n. n.text) name.now []) }
{
    match name {
        None => Ok(Text16::from_units(alloc, Vec::new(alloc))?),
        Some(name) => Ok(name.text.copy()?),
    }
}

/// The numbers of the parameters' names.
fn parameters_of(alloc: Global, names: &Names<'_>, list: &[Name]) -> Result<Seq<NameId>, Memory>
    ensures { IfOk result (λ ids. ids ≡ map (λ p. number names.now p.text) list.now) }
{
    let mut ids = Vec::with_capacity(alloc, list.len())?;
    for parameter in list {
        ids.push(names.number(parameter.text.units()))?;
    }
    Ok(Seq::from_vec(ids))
}

/// The program, if there is room for its nodes.
fn program_body(
    scene: &Scene<'_, '_>,
    statements: &[Statement],
    room: usize,
) -> Result<Body, LowerFault>
    requires { room ≤ max_size }
    ensures body { IfOk result (λ body. body ≡ spec.program_body scene.now statements.now) }
    ensures within { IfOk result (λ body. size_of_body body ≤ room) }
    ensures fault { IfErr result (Exceeds room
        (size_of_body (spec.program_body scene.now statements.now))) }
{
    let listing = program_listing(scene, statements)?;
    let nodes = nodes_of(scene.alloc, listing, room)?;
    Ok(Body {
        name: Text16::from_units(scene.alloc, Vec::new(scene.alloc))?,
        parameters: Seq::new(scene.alloc),
        nodes,
    })
}

/// A function of the text, if there is room for its nodes and its parameters.
fn function_body(
    scene: &Scene<'_, '_>,
    function: &FunctionTree,
    room: usize,
) -> Result<Body, LowerFault>
    requires { room ≤ max_size }
    ensures body { IfOk result (λ body. body ≡ spec.function_body scene.now function.now) }
    ensures within { IfOk result (λ body. size_of_body body ≤ room) }
    ensures fault { IfErr result (Exceeds room
        (size_of_body (spec.function_body scene.now function.now))) }
{
    let count = function.parameters.len();
    if count > room {
        return Err(LowerFault::Nodes);
    }
    let listing = function_listing(scene, function)?;
    let nodes = nodes_of(scene.alloc, listing, room - count)?;
    let name = name_of(scene.alloc, &function.name)?;
    let parameters = parameters_of(scene.alloc, scene.names, function.parameters.as_slice())?;
    Ok(Body {
        name,
        parameters,
        nodes,
    })
}

/// Adds functions of the text, if there is room for all of them.
fn add_functions(
    scene: &Scene<'_, '_>,
    functions: &[&FunctionTree],
    room: usize,
    bodies: &mut Vec<Body>,
) -> Result<(), LowerFault>
    requires { room ≤ max_size }
    ensures bodies { OnOk result (bodies.new.items ≡ bodies.old.items
        ++ map (λ f. spec.function_body scene.now f.now) functions.now) }
    ensures within { OnOk result (sum_by (λ f. size_of_body (spec.function_body scene.now f.now))
        functions.now ≤ room) }
    ensures fault { IfErr result (Exceeds room
        (sum_by (λ f. size_of_body (spec.function_body scene.now f.now)) functions.now)) }
{
    let mut left = room;
    for function in functions {
        let body = function_body(scene, function, left)?;
        left -= body.nodes.len() + body.parameters.len();
        bodies.push(body)?;
    }
    Ok(())
}

/// The program and the functions of its text, or `Nodes` exactly where they are too large.
fn all_bodies(
    scene: &Scene<'_, '_>,
    statements: &[Statement],
    functions: &[&FunctionTree],
) -> Result<Vec<Body>, LowerFault>
    requires functions { map (λ f. f.now) functions.now ≡ text.functions_in statements.now }
    ensures bodies { IfOk result (λ bodies. bodies.items ≡ spec.bodies_of scene.now statements.now) }
    ensures within { IfOk result (λ bodies. size_of_bodies (spec.bodies_of scene.now statements.now)
        ≤ max_size) }
    ensures fault { IfErr result (Exceeds max_size
        (size_of_bodies (spec.bodies_of scene.now statements.now))) }
{
    let program = program_body(scene, statements, MAX_NODES)?;
    let room = MAX_NODES - program.nodes.len();
    let mut bodies = Vec::new(scene.alloc);
    bodies.push(program)?;
    add_functions(scene, functions, room, &mut bodies)?;
    Ok(bodies)
}

/// The places of functions.
fn places_of(alloc: Global, functions: &[&FunctionTree]) -> Result<Vec<Place>, Memory>
    ensures { IfOk result (λ places. places.items
        ≡ map (λ f. f.place) (map (λ f. f.now) functions.now)) }
{
    let mut places = Vec::with_capacity(alloc, functions.len())?;
    for function in functions {
        places.push(function.place)?;
    }
    Ok(places)
}

/// The program and the functions of its text, where the program has these names; or `Nodes` exactly
/// where they are too large.
pub(crate) fn bodies_of(
    alloc: Global,
    names: &Names<'_>,
    statements: &[Statement],
    functions: &[&FunctionTree],
) -> Result<Vec<Body>, LowerFault>
    requires functions { map (λ f. f.now) functions.now ≡ text.functions_in statements.now }
    ensures bodies { IfOk result (λ bodies. bodies.items
        ≡ spec.bodies_of (spec.scene_of names.now statements.now) statements.now) }
    ensures within { IfOk result (λ bodies.
        size_of_bodies (spec.bodies_of (spec.scene_of names.now statements.now) statements.now)
        ≤ max_size) }
    ensures fault { IfErr result (Exceeds max_size
        (size_of_bodies (spec.bodies_of (spec.scene_of names.now statements.now) statements.now))) }
{
    let places = places_of(alloc, functions)?;
    let scene = Scene {
        alloc,
        names,
        functions: &places,
        handler: None,
        specials: false,
    };
    all_bodies(&scene, statements, functions)
}

/// Functions by their paths, one for each.
fn at_paths(alloc: Global, paths: &[Text16], bodies: Vec<Body>) -> Result<Vec<Body>, Memory>
    ensures { IfOk result (λ list. list.items ≡ spec.at_paths paths.now bodies.items) }
{
    let mut list = Vec::with_capacity(alloc, paths.len())?;
    let mut left = paths;
    for body in bodies {
        let [path, rest @ ..] = left else {
            return Ok(list);
        };
        list.push(Body {
            name: path.copy()?,
            parameters: body.parameters,
            nodes: body.nodes,
        })?;
        left = rest;
    }
    Ok(list)
}

/// The functions of the texts of built-in functions, each by its path, or `Nodes` exactly where
/// they are too large.
fn all_prelude(
    scene: &Scene<'_, '_>,
    paths: &[Text16],
    statements: &[Statement],
    functions: &[&FunctionTree],
) -> Result<Vec<Body>, LowerFault>
    requires functions { map (λ f. f.now) functions.now ≡ text.functions_in statements.now }
    ensures bodies { IfOk result (λ bodies. bodies.items
        ≡ spec.at_paths paths.now (map (spec.function_body scene.now)
        (text.functions_in statements.now))) }
    ensures within { IfOk result (λ bodies.
        size_of_bodies (map (spec.function_body scene.now) (text.functions_in statements.now))
        ≤ max_size) }
    ensures fault { IfErr result (Exceeds max_size
        (size_of_bodies (map (spec.function_body scene.now) (text.functions_in statements.now)))) }
{
    let mut bodies = Vec::with_capacity(scene.alloc, functions.len())?;
    add_functions(scene, functions, MAX_NODES, &mut bodies)?;
    Ok(at_paths(scene.alloc, paths, bodies)?)
}

/// The functions of the texts of built-in functions, where the program has these names, each by its
/// path; or `Nodes` exactly where they are too large.
#[tactic(auto, unfolding(crate::specs::Lowering::prelude_bodies))]
pub(crate) fn prelude_bodies(
    alloc: Global,
    names: &Names<'_>,
    paths: &[Text16],
    statements: &[Statement],
    functions: &[&FunctionTree],
) -> Result<Vec<Body>, LowerFault>
    requires functions { map (λ f. f.now) functions.now ≡ text.functions_in statements.now }
    ensures bodies { IfOk result (λ bodies. bodies.items
        ≡ spec.at_paths paths.now (spec.prelude_bodies names.now statements.now)) }
    ensures within { IfOk result (λ bodies.
        size_of_bodies (spec.prelude_bodies names.now statements.now) ≤ max_size) }
    ensures fault { IfErr result (Exceeds max_size
        (size_of_bodies (spec.prelude_bodies names.now statements.now))) }
{
    let places = places_of(alloc, functions)?;
    let scene = Scene {
        alloc,
        names,
        functions: &places,
        handler: None,
        specials: true,
    };
    all_prelude(&scene, paths, statements, functions)
}
