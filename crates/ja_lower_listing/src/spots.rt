//! Where a run goes on from spots, as far as a pass from the end of a listing knows it.

ghost use Rattle.std.specs.Prelude.{◌≡◌, ◌==◌, ℕ, Some, None, OnOk, if◌then◌else◌};
ghost use Rattle.std.specs.Option.{option_or};
ghost use Rattle.ja_lower_listing.specs.code.Spots.{target_of};

use crate::{Spot, Target};
use ja_base::Memory;
use std::alloc::Global;
use std::collections::BTreeMap;

/// Where a run goes on from each of some spots. Where that is a spot, it stands before what was
/// passed, or nowhere.
#[derive(Drop)]
pub(crate) struct Spots {
    known: BTreeMap<u32, Target>,
}

impl Spots {
    /// No spots.
    pub fn new(alloc: Global) -> Self
        ensures { (q : ℕ) → target_of result q ≡ None }
    {
        Spots {
            known: BTreeMap::new(alloc),
        }
    }

    /// Where a run goes on from a spot, if that is known.
    pub fn get(&self, spot: Spot) -> Option<Target>
        ensures { result ≡ target_of self.now spot.0 }
    {
        self.known.get(&spot.0).copied()
    }

    /// Adds a spot, unless it is known.
    pub fn put(&mut self, spot: Spot, target: Target) -> Result<(), Memory>
        ensures { OnOk result ((q : ℕ) → target_of self.new q
            ≡ option_or (target_of self.old q) (if spot.0 == q then Some target else None)) }
    {
        if self.get(spot).is_some() {
            return Ok(());
        }
        self.known.insert(spot.0, target)?;
        Ok(())
    }
}
