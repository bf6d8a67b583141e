//! Whether two tables stand for the same.

ghost use Rattle.std.specs.Prelude.{◌≡◌, ◌↔◌, IfOk, IsTrue, map, All};
ghost use Rattle.ja_graph.specs.WellFormed.{IsWellFormed};
ghost use Rattle.ja_table.specs.Tables.{table_of, Fits, FitsContext, FitsListed};
ghost use Rattle.ja_table.specs.declared.table.CallEdge.{CallEdge as Kept};
ghost use Rattle.ja_check.specs.code.Checking.{meaning_of};

use crate::same_contexts::is_same_context;
use ja_base::Memory;
use ja_graph::Program;
use ja_rows::Edge;
use ja_table::{ATable, CallEdge, ContextTable};
use std::alloc::Global;

// Whether contexts stand for the same, one by one.
fn are_same_contexts(
    alloc: Global,
    program: &Program,
    own: &[ContextTable],
    other: &[ContextTable],
) -> Result<bool, Memory>
    requires program { IsWellFormed program.now }
    requires own { All (FitsContext program.now) own.now }
    requires other { All (FitsContext program.now) other.now }
    ensures { IfOk result (λ b. IsTrue b ↔ (map meaning_of own.now ≡ map meaning_of other.now)) }
{
    if own.len() != other.len() {
        return Ok(false);
    }
    for place in 0..own.len() {
        let same = is_same_context(alloc, program, &own[place], &other[place])?;
        if !same {
            return Ok(false);
        }
    }
    Ok(true)
}

// Whether two edges are the same.
fn is_same_edge(edge: Edge, other: Edge) -> bool
    ensures { IsTrue result ↔ (edge ≡ other) }
{
    edge == other
}

// Whether edges are the same, one by one.
fn are_same_edges(own: &[CallEdge], other: &[CallEdge]) -> bool
    ensures { IsTrue result
        ↔ (map (λ (d : Kept). d.edge) own.now ≡ map (λ (d : Kept). d.edge) other.now) }
{
    if own.len() != other.len() {
        return false;
    }
    for place in 0..own.len() {
        if !is_same_edge(own[place].edge, other[place].edge) {
            return false;
        }
    }
    true
}

/// Whether two tables of a program stand for the same, of which one has the program's own context.
pub(crate) fn is_same_table(
    alloc: Global,
    program: &Program,
    own: &ATable,
    other: &ATable,
) -> Result<bool, Memory>
    requires program { IsWellFormed program.now }
    requires own { Fits program.now own.now }
    requires other { FitsListed program.now other.now }
    ensures { IfOk result (λ b. IsTrue b ↔ (table_of own.now ≡ table_of other.now)) }
{
    let contexts = are_same_contexts(alloc, program, &own.contexts, &other.contexts)?;
    let edges = are_same_edges(&own.edges, &other.edges);
    Ok(contexts & edges)
}
