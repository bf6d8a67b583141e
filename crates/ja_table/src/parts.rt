//! Tables of parts that may come from anywhere.

ghost use Rattle.std.specs.Prelude.{◌≡◌, ◌↔◌, All, IfSome, IsSome, IsTrue};
ghost use Rattle.ja_table.specs.Order.{AreContextsOrdered, AreEdgesOrdered};
ghost use Rattle.ja_table.specs.Parts.{AreParts, HasEnds};

use crate::table::{ATable, CallEdge, ContextTable, is_below, is_edge_below};

// Whether contexts are in order, and none twice.
fn are_contexts_ordered(contexts: &[ContextTable]) -> bool
    ensures { IsTrue result ↔ AreContextsOrdered contexts.now }
{
    for place in 1..contexts.len() {
        if !is_below(contexts[place - 1].context, contexts[place].context) {
            return false;
        }
    }
    true
}

// Whether edges are in order, and none twice.
fn are_edges_ordered(edges: &[CallEdge]) -> bool
    ensures { IsTrue result ↔ AreEdgesOrdered edges.now }
{
    for place in 1..edges.len() {
        if !is_edge_below(edges[place - 1].edge, edges[place].edge) {
            return false;
        }
    }
    true
}

// Whether both ends of an edge are among the contexts of a table.
fn has_ends(table: &ATable, kept: CallEdge) -> bool
    requires { AreContextsOrdered table.now.contexts.items }
    ensures { IsTrue result ↔ HasEnds table.now.contexts.items kept }
{
    let has_caller = table.place_of(kept.edge.caller).is_some();
    let has_callee = table.place_of(kept.edge.callee).is_some();
    has_caller & has_callee
}

// Whether both ends of each edge are.
fn are_ended(table: &ATable, edges: &[CallEdge]) -> bool
    requires { AreContextsOrdered table.now.contexts.items }
    ensures { IsTrue result ↔ All (HasEnds table.now.contexts.items) edges.now }
{
    for kept in edges {
        if !has_ends(table, *kept) {
            return false;
        }
    }
    true
}

impl ATable {
    /// A table of these contexts and call edges. `None` comes exactly where the contexts aren't in
    /// order by function and receiver, or the edges by caller, node and callee, each without
    /// repeats, or where an end of an edge isn't among the contexts.
    pub fn from_parts(contexts: Vec<ContextTable>, edges: Vec<CallEdge>) -> Option<ATable>
        ensures parts { IsSome result ↔ AreParts contexts.items edges.items }
        ensures contexts { IfSome result (λ t. t.contexts.items ≡ contexts.items) }
        ensures edges { IfSome result (λ t. t.edges.items ≡ edges.items) }
    {
        if !are_contexts_ordered(&contexts) {
            return None;
        }
        if !are_edges_ordered(&edges) {
            return None;
        }
        let table = ATable { contexts, edges };
        if !are_ended(&table, &table.edges) {
            return None;
        }
        Some(table)
    }
}
