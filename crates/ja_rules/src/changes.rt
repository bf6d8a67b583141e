//! What visits tell of themselves: what they changed, and the values at an entry that they read. No
//! clause rests on it.

ghost use Rattle.std.specs.Prelude.{◌≡◌, [], false};

use ja_abstract::Key;
use ja_aheap::DemandList;
use ja_base::{Context, Label, Memory, NodeId};
use ja_flow::EntryValue;
use ja_rows::Edge;
use std::alloc::Global;

/// What a visit changed in a table, and what it read: the nodes with another state, and the new call
/// edges; the pairs whose values are others at the entry that Open or a fill joins into; and at the
/// entry of the context of a step, or of the caller of an edge, the pairs that were read, and
/// whether one of them wasn't demanded before.
#[derive(Drop)]
pub struct Changes {
    pub states: Vec<(Context, NodeId)>,
    pub edges: Vec<Edge>,
    pub values: Vec<(Label, Key)>,
    pub reads: Vec<(Label, Key)>,
    pub is_demanded: bool,
}

impl Changes {
    /// Nothing was changed, and nothing read.
    pub fn new(alloc: Global) -> Changes
        ensures changed { (result.states.items ≡ []) × (result.edges.items ≡ [])
            × (result.values.items ≡ []) }
        ensures read { (result.reads.items ≡ []) × (result.is_demanded ≡ false) }
    {
        Changes {
            states: Vec::new(alloc),
            edges: Vec::new(alloc),
            values: Vec::new(alloc),
            reads: Vec::new(alloc),
            is_demanded: false,
        }
    }

    // Notes that a state was joined in, if that changed it.
    pub(crate) fn note_state(
        &mut self,
        context: Context,
        node: NodeId,
        changed: bool,
    ) -> Result<(), Memory> {
        if changed {
            self.states.push((context, node))?;
        }
        Ok(())
    }

    // Notes an edge, if it is new.
    pub(crate) fn note_edge(&mut self, edge: Edge, is_new: bool) -> Result<(), Memory> {
        if is_new {
            self.edges.push(edge)?;
        }
        Ok(())
    }

    // Notes values that change.
    pub(crate) fn note_values(&mut self, values: &[EntryValue]) -> Result<(), Memory> {
        for value in values {
            self.values.push((value.label, value.key))?;
        }
        Ok(())
    }

    // Notes pairs that were read.
    pub(crate) fn note_reads(&mut self, demands: &DemandList) -> Result<(), Memory> {
        self.reads.extend_from_slice(&demands.pairs)?;
        Ok(())
    }
}
