ghost use Rattle.std.specs.Prelude.{◌≡◌, ◌≢◌, ◌↔◌, All, IfOk, IsTrue, false, true};
ghost use Rattle.ja_aheap.specs.Entries.{entries_of};
ghost use Rattle.ja_aheap.specs.Objects.{demands_in};
ghost use Rattle.ja_graph.specs.WellFormed.{IsWellFormed};
ghost use Rattle.ja_rules.specs.code.Entries.{demanded, IsDemanded};

use ja_abstract::Key;
use ja_aheap::{DemandList, DemandedEntries};
use ja_base::{Label, Memory};
use ja_flow::Values;
use ja_graph::Program;
use ja_table::opened;
use ja_value::AProp;
use std::alloc::Global;

// Demands each pair of a list, and tells whether one wasn't demanded before. After `Memory` some
// may have been demanded.
pub(crate) fn demand_all(
    alloc: Global,
    entries: &mut DemandedEntries,
    demands: DemandList,
) -> Result<bool, Memory>
    ensures demanded { IfOk result (λ _. entries_of entries.new
        ≡ demanded (entries_of entries.old) (demands_in demands)) }
    ensures changed { IfOk result (λ c. c ≡ true
        → entries_of entries.new ≢ entries_of entries.old) }
    ensures same { IfOk result (λ c. c ≡ false → entries_of entries.new ≡ entries_of entries.old) }
{
    let mut changed = false;
    let mut pairs = demands.pairs;
    'demands: while let Some((label, key)) = pairs.pop() {
        changed |= entries.demand(alloc, label, key)?;
    }
    Ok(changed)
}

// Whether each of some pairs is demanded already.
pub(crate) fn are_demanded(entries: &DemandedEntries, pairs: &[(Label, Key)]) -> bool
    ensures { IsTrue result ↔ All (IsDemanded (entries_of entries.now)) pairs.now }
{
    for pair in pairs {
        if entries.get(pair.0, pair.1).is_none() {
            return false;
        }
    }
    true
}

/// What the opening heap of a program has.
#[derive(Clone, Copy)]
pub(crate) struct OpeningHeap<'a> {
    pub alloc: Global,
    pub program: &'a Program,
    pub ghost well_formed: { ∥ IsWellFormed program.now ∥₁ },
}

impl Values for OpeningHeap<'_> {
    ghost use Rattle.ja_abstract.specs.Contents.{opened};

    ghost program_of = { λ h. h.program.now };

    ghost value_at = { λ h l k. opened h.program.now l k };

    fn value(&self, label: Label, key: Key) -> Result<AProp, Memory> {
        opened(self.alloc, self.program, label, key)
    }
}
