//! Whether two contexts of a table stand for the same: the states at their nodes, and the values
//! that are demanded at their entry.

ghost use Rattle.std.specs.Prelude.{◌≡◌, ◌↔◌, IfOk, IsTrue};
ghost use Rattle.ja_graph.specs.WellFormed.{IsWellFormed};
ghost use Rattle.ja_aheap.specs.Entries.{entries_of};
ghost use Rattle.ja_table.specs.Tables.{states_in, FitsContext};
ghost use Rattle.ja_check.specs.code.Checking.{meaning_of, AreSameAt};

use crate::states::is_same;
use ja_abstract::Key;
use ja_aheap::DemandedEntries;
use ja_base::{Label, Memory, NodeId};
use ja_graph::Program;
use ja_table::ContextTable;
use std::alloc::Global;

// ---- states

// Whether two tables of a context have the same state at a node, or both none.
fn is_same_at(
    alloc: Global,
    program: &Program,
    own: &ContextTable,
    other: &ContextTable,
    node: NodeId,
) -> Result<bool, Memory>
    requires own { FitsContext program.now own.now }
    requires other { FitsContext program.now other.now }
    requires context { own.now.context ≡ other.now.context }
    ensures { IfOk result (λ b. IsTrue b ↔ (states_in own.now.nodes.items node.0
        ≡ states_in other.now.nodes.items node.0)) }
{
    match (own.state(node), other.state(node)) {
        (Some(state), Some(kept)) => is_same(alloc, state, kept),
        (None, None) => Ok(true),
        _ => Ok(false),
    }
}

// Whether two tables of a context have the same states.
fn are_same_states(
    alloc: Global,
    program: &Program,
    own: &ContextTable,
    other: &ContextTable,
) -> Result<bool, Memory>
    requires program { IsWellFormed program.now }
    requires own { FitsContext program.now own.now }
    requires other { FitsContext program.now other.now }
    requires context { own.now.context ≡ other.now.context }
    ensures { IfOk result (λ b. IsTrue b ↔ (states_in own.now.nodes.items
        ≡ states_in other.now.nodes.items)) }
{
    for node in 0..own.nodes.len() {
        let same = is_same_at(alloc, program, own, other, NodeId(node as u32))?;
        if !same {
            return Ok(false);
        }
    }
    Ok(true)
}

// ---- values at entry

// Whether a pair has the same value in two entries, or is demanded in neither.
fn is_same_value(own: &DemandedEntries, other: &DemandedEntries, label: Label, key: Key) -> bool
    ensures { IsTrue result ↔ (entries_of own.now label key ≡ entries_of other.now label key) }
{
    match (own.get(label, key), other.get(label, key)) {
        (Some(property), Some(kept)) => property.leq(kept) & kept.leq(property),
        (None, None) => true,
        _ => false,
    }
}

// Whether each of some pairs does.
fn are_same_values(own: &DemandedEntries, other: &DemandedEntries, pairs: &[(Label, Key)]) -> bool
    ensures { IsTrue result
        ↔ AreSameAt (entries_of own.now) (entries_of other.now) pairs.now }
{
    for pair in pairs {
        if !is_same_value(own, other, pair.0, pair.1) {
            return false;
        }
    }
    true
}

// Whether the same pairs are demanded in two entries, with the same values.
fn are_same_entries(
    alloc: Global,
    program: &Program,
    own: &ContextTable,
    other: &ContextTable,
) -> Result<bool, Memory>
    requires program { IsWellFormed program.now }
    requires own { FitsContext program.now own.now }
    requires other { FitsContext program.now other.now }
    ensures { IfOk result (λ b. IsTrue b
        ↔ (entries_of own.now.entries ≡ entries_of other.now.entries)) }
{
    let sites = program.sites.len() as u32;
    let names = program.names.len() as u32;
    let pairs = own.entries.pairs(alloc, sites, names)?;
    let others = other.entries.pairs(alloc, sites, names)?;
    let first = are_same_values(&own.entries, &other.entries, &pairs);
    let second = are_same_values(&own.entries, &other.entries, &others);
    Ok(first & second)
}

// ---- both

/// Whether two tables of contexts stand for the same.
pub(crate) fn is_same_context(
    alloc: Global,
    program: &Program,
    own: &ContextTable,
    other: &ContextTable,
) -> Result<bool, Memory>
    requires program { IsWellFormed program.now }
    requires own { FitsContext program.now own.now }
    requires other { FitsContext program.now other.now }
    ensures { IfOk result (λ b. IsTrue b ↔ (meaning_of own.now ≡ meaning_of other.now)) }
{
    if own.context != other.context {
        return Ok(false);
    }
    let states = are_same_states(alloc, program, own, other)?;
    let entries = are_same_entries(alloc, program, own, other)?;
    Ok(states & entries)
}
