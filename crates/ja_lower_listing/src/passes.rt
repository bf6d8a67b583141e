//! The pass that finds where a run goes on, from the end of a listing.

ghost use Rattle.std.specs.Prelude.{◌≡◌, ◌≤◌, List, [], ◌∷◌, ◌+◌, unwrap_or, IfOk, OnOk};
ghost use Rattle.ja_lower_listing.specs.declared.item.Item.{Item};
ghost use Rattle.ja_lower_listing.specs.declared.item.Target.TheVariants as target;
ghost use Rattle.ja_lower_listing.specs.Listing.{node_count};
ghost use Rattle.ja_lower_listing.specs.code.Passes.{HasPassed};
ghost use Rattle.ja_lower_listing.specs.code.Spots.{target_of};

use crate::facts::{more, node_count, nodes_of};
use crate::spots::Spots;
use crate::{Item, Spot, Target};
use ja_base::Memory;
use std::alloc::Global;

/// A pass from the end of a listing: how many nodes stand before the lines passed, where a run goes
/// on from their beginning and from each of their spots, and where it goes on behind each of their
/// nodes and copies, the last one first.
#[derive(Drop)]
pub(crate) struct Backward {
    pub before: u32,
    pub here: Target,
    pub at: Spots,
    pub ways: Vec<Target>,
}

/// A node of a copy, whose first node has this number. Past the last number of a node memory counts
/// as refused.
pub(crate) fn node_of(first: u32, node: u32) -> Result<Target, Memory>
    ensures { IfOk result (λ t. t ≡ target.Node (first + node)) }
{
    let number = more(first, node as usize)?;
    Ok(Target::Node(number))
}

impl Backward {
    /// The pass before its first line.
    #[tactic(auto, unfolding(crate::specs::Listing::node_count, crate::specs::code::Passes::seen, crate::specs::code::Passes::ways_on))]
    fn new(alloc: Global, items: &[Item]) -> Result<Self, Memory>
        ensures { IfOk result (λ pass. HasPassed pass items.now []) }
    {
        let before = node_count(items)?;
        Ok(Backward {
            before,
            here: Target::Behind,
            at: Spots::new(alloc),
            ways: Vec::new(alloc),
        })
    }

    /// Where a jump leads, as far as it is known.
    fn known(&self, spot: Spot) -> Target
        ensures { result ≡ unwrap_or (target_of self.now.at spot.0) (target.Spot spot) }
    {
        self.at.get(spot).unwrap_or(Target::Spot(spot))
    }

    /// Passes the line before those that it has passed.
    #[tactic(auto, unfolding(crate::specs::Listing::node_count, crate::specs::code::Passes::seen, crate::specs::code::Passes::ways_on))]
    fn pass(&mut self, item: &Item) -> Result<(), Memory>
        requires { node_count (item.now ∷ []) ≤ self.old.before }
        ensures { OnOk result ((whole items : List Item) → HasPassed self.old whole items
            → HasPassed self.new whole (item.now ∷ items)) }
    {
        let nodes = more(0, nodes_of(item))?;
        match item {
            Item::Node { .. } => {
                self.ways.push(self.here)?;
                self.before -= nodes;
                self.here = Target::Node(self.before);
            }
            Item::Spot(spot) => self.at.put(*spot, self.here)?,
            Item::Jump(spot) => self.here = self.known(*spot),
            Item::Copy(block) => {
                self.ways.push(self.here)?;
                self.before -= nodes;
                match block.entry {
                    Target::Node(node) => self.here = node_of(self.before, node)?,
                    Target::Spot(spot) => self.here = self.known(spot),
                    Target::Behind => {}
                    Target::Out => self.here = Target::Out,
                }
            }
        }
        Ok(())
    }
}

/// Passes a whole listing, from its end.
pub(crate) fn passed(alloc: Global, items: &[Item]) -> Result<Backward, Memory>
    ensures { IfOk result (λ pass. HasPassed pass items.now items.now) }
{
    let mut backward = Backward::new(alloc, items)?;
    for done in 0..items.len() {
        backward.pass(&items[items.len() - 1 - done])?;
    }
    Ok(backward)
}
