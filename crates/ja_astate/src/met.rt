ghost use Rattle.std.specs.Prelude.{◌≡◌, IfOk};

use ja_aheap::DemandList;
use ja_base::Memory;
use ja_value::{AProp, LabelSet};
use std::alloc::Global;

/// What a walk meets at the objects of a label, or of several.
#[derive(Drop)]
pub(crate) struct Met {
    /// Where the walk goes on; of a whole walk, what it reached.
    pub labels: LabelSet,
    /// What is found there.
    pub property: AProp,
    /// Whether the walk may end there.
    pub may_end: bool,
    /// The pairs of the entry that this takes.
    pub demands: DemandList,
}

impl Met {
    ghost use Rattle.ja_astate.specs.code.Walks.{met_of, nothing, join_meetings};

    /// Nothing is met.
    pub(crate) fn nothing(alloc: Global) -> Met
        ensures { met_of result ≡ nothing }
    {
        Met {
            labels: LabelSet::new(alloc),
            property: AProp::nothing(alloc),
            may_end: false,
            demands: DemandList::new(alloc),
        }
    }

    /// Adds what is met elsewhere.
    pub(crate) fn join(&mut self, alloc: Global, other: Met) -> Result<(), Memory>
        ensures { IfOk result (λ _. met_of self.new
            ≡ join_meetings (met_of self.old) (met_of other)) }
    {
        let Met {
            labels,
            property,
            may_end,
            demands,
        } = other;
        self.labels.join(&labels)?;
        self.property.join(alloc, &property)?;
        self.may_end = self.may_end | may_end;
        self.demands.join(demands)
    }
}
