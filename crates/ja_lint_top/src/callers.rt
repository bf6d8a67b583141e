//! The places of the text that call a function.

ghost use Rattle.std.specs.Prelude.{◌≡◌, ◌↔◌, IfOk, IsTrue, map};
ghost use Rattle.std.specs.BTreeSet.{IsFromIterResult};
ghost use Rattle.std.specs.List.{filter_map};
ghost use Rattle.ja_table.specs.Tables.{table_of, Fits};
ghost use Rattle.ja_table.specs.declared.table.CallEdge.{CallEdge as Kept};
ghost use Rattle.ja_lint_top.specs.Calls.{AreCallers, IsOfText};
ghost use Rattle.ja_lint_top.specs.code.Calls.{alone, edge_place, is_marked, place_at, spot_cmp, spot_into, spot_of, Adds, AreLeading, Grows};

use ja_base::{FnId, Memory, Place, Seq};
use ja_graph::Program;
use ja_rows::Edge;
use ja_table::ATable;
use std::alloc::{AllocError, Global};
use std::collections::BTreeSet;

/// A place by its numbers: its line and its column.
pub(crate) type Spot = (u32, u32);

/// The numbers of a place.
pub(crate) fn numbers_of(place: Place) -> Spot
    ensures { result ≡ spot_of place }
{
    (place.line, place.column)
}

/// The place of some numbers.
pub(crate) fn place_at(spot: Spot) -> Place
    ensures { result ≡ place_at spot }
{
    Place {
        line: spot.0,
        column: spot.1,
    }
}

/// Whether a function is one of the text.
pub(crate) fn is_of_text(program: &Program, function: FnId) -> bool
    ensures { IsTrue result ↔ IsOfText program.now function }
{
    function.0 < program.text_functions
}

/// The place of the node from which an edge leads.
pub(crate) fn place_of(program: &Program, edge: Edge) -> Option<Place>
    ensures { result ≡ edge_place program.now edge }
{
    let function = program
        .functions
        .as_slice()
        .get(edge.caller.function.0 as usize)?;
    let info = function.nodes.as_slice().get(edge.node.0 as usize)?;
    Some(info.place)
}

// Whether a function is marked.
fn is_marked(marks: &[bool], function: FnId) -> bool
    ensures { result ≡ is_marked marks.now function }
{
    marks.get(function.0 as usize).copied().unwrap_or(false)
}

// Marks the caller of an edge too, where it is built in and the callee is marked, and tells whether
// it wasn't yet.
fn add_caller(program: &Program, edge: Edge, marks: &mut [bool]) -> bool
    ensures { Adds program.now edge marks.old marks.new result }
{
    let caller = edge.caller.function;
    let number = caller.0 as usize;
    let is_next = !is_of_text(program, caller) && is_marked(marks, edge.callee.function);
    let adds = is_next && number < marks.len() && !marks[number];
    if adds {
        marks[number] = true;
    }
    adds
}

// Marks the built-in functions that call one that is marked, and tells whether there are more.
fn add_callers(program: &Program, table: &ATable, marks: &mut [bool]) -> bool
    ensures { Grows program.now (table_of table.now) table.now.edges.items marks.old marks.new
        result }
{
    let mut grows = false;
    for call in &table.edges {
        grows |= add_caller(program, call.edge, marks);
    }
    grows
}

// One function of a program alone, marked by its number.
fn alone(alloc: Global, program: &Program, function: FnId) -> Result<Vec<bool>, AllocError>
    ensures { IfOk result (λ marks. marks.items ≡ alone program.now function) }
{
    (0..program.functions.len())
        .map(|number| number == function.0 as usize)
        .collect(alloc)
}

// The functions from which calls of built-in functions alone lead to one, marked by their numbers.
fn leading_to(
    alloc: Global,
    program: &Program,
    table: &ATable,
    function: FnId,
) -> Result<Vec<bool>, Memory>
    requires { Fits program.now table.now }
    ensures { IfOk result (λ marks. AreLeading program.now (table_of table.now) function
        marks.items) }
{
    let mut marks = alone(alloc, program, function)?;
    while add_callers(program, table, &mut marks) {}
    Ok(marks)
}

// The numbers of the place of the text from which an edge leads to a function that is marked.
fn spot_into(program: &Program, marks: &[bool], edge: Edge) -> Option<Spot>
    ensures { result ≡ spot_into program.now marks.now edge }
{
    if !is_of_text(program, edge.caller.function) || !is_marked(marks, edge.callee.function) {
        return None;
    }
    let place = place_of(program, edge)?;
    Some(numbers_of(place))
}

// Those of all edges.
fn spots_into(
    alloc: Global,
    program: &Program,
    table: &ATable,
    marks: &[bool],
) -> Result<BTreeSet<Spot>, AllocError>
    ensures { IfOk result (IsFromIterResult spot_cmp
        (filter_map (λ (d : Kept). spot_into program.now marks.now d.edge) table.now.edges.items)) }
{
    table
        .edges
        .iter()
        .filter_map(|call| spot_into(program, marks, call.edge))
        .collect(alloc)
}

// The places at some numbers.
fn places_at(alloc: Global, spots: BTreeSet<Spot>) -> Result<Vec<Place>, AllocError>
    ensures { IfOk result (λ places. places.items ≡ map place_at spots.keys) }
{
    spots.into_iter().map(place_at).collect(alloc)
}

/// The places of the text that call a function, itself or through built-in functions, in order.
pub(crate) fn callers(
    alloc: Global,
    program: &Program,
    table: &ATable,
    function: FnId,
) -> Result<Seq<Place>, Memory>
    requires { Fits program.now table.now }
    ensures { IfOk result (AreCallers program.now (table_of table.now) function) }
{
    let marks = leading_to(alloc, program, table, function)?;
    let spots = spots_into(alloc, program, table, &marks)?;
    let places = places_at(alloc, spots)?;
    Ok(Seq::from_vec(places))
}
