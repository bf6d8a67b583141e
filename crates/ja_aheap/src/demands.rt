ghost use Rattle.std.specs.Prelude.{◌≡◌, ◌||◌, ◌&&◌, IfOk, OnErr};
ghost use Rattle.ja_abstract.specs.AbstractValue.{same_label};
ghost use Rattle.ja_abstract.specs.AbstractState.{same_key};
ghost use Rattle.ja_abstract.specs.Reading.{no_demands, both};

use ja_abstract::Key;
use ja_base::{Label, Memory};
use std::alloc::Global;

/// The pairs of a label and a key whose values at entry are demanded.
#[derive(Drop)]
pub struct DemandList {
    pub pairs: Vec<(Label, Key)>,
}

impl DemandList {
    ghost use Rattle.ja_aheap.specs.Objects.{demands_in};

    /// Nothing is demanded.
    pub fn new(alloc: Global) -> DemandList
        ensures { demands_in result ≡ no_demands }
    {
        DemandList {
            pairs: Vec::new(alloc),
        }
    }

    /// Demands a pair. After `Memory` the same is demanded as before.
    pub fn push(&mut self, label: Label, key: Key) -> Result<(), Memory>
        ensures demanded { IfOk result (λ _. demands_in self.new
            ≡ both (demands_in self.old) (λ l k. same_label label l && same_key key k)) }
        ensures kept { OnErr result (demands_in self.new ≡ demands_in self.old) }
    {
        self.pairs.push((label, key))?;
        Ok(())
    }

    /// Demands the pairs of another list besides. After `Memory` the same is demanded as before.
    pub fn join(&mut self, other: DemandList) -> Result<(), Memory>
        ensures joined { IfOk result (λ _. demands_in self.new
            ≡ both (demands_in self.old) (demands_in other)) }
        ensures kept { OnErr result (demands_in self.new ≡ demands_in self.old) }
    {
        self.pairs.extend_from_slice(&other.pairs)?;
        Ok(())
    }
}
