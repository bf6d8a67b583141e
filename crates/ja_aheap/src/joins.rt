ghost use Rattle.std.specs.Prelude.{◌≡◌, ◌≢◌, ◌*◌, ◌↔◌, ◌<◌, ◌≤◌, ℕ, IfOk, IfSome, OnErr, IsTrue, true, false, length};
ghost use Rattle.ja_aheap.specs.Heap.{join_heaps, LeqHeap, AreAlike};
ghost use Rattle.ja_aheap.specs.code.Own.{LeqOwn, own_below, own_in_place, join_owns};
ghost use Rattle.ja_trie.specs.Join.{kept_or};
ghost use Rattle.ja_trie.specs.Nodes.{ArePaths};

use crate::masks::{joined_masks, leq_masks};
use crate::{AHeap, AObject};
use ja_base::Memory;
use ja_trie::{Shared, Steps};
use std::alloc::Global;
use std::sync::ledger::Ledger;

/// Joins other objects in, each at its place, and tells whether one changed.
fn join_objects<L: Ledger>(
    objects: &mut Shared<AObject>,
    alloc: Global,
    names: u32,
    others: &Shared<AObject>,
    steps: &mut Steps<L>,
) -> Result<bool, Memory>
    requires { length others.now ≡ length objects.old }
    ensures joined { IfOk result (λ _. (n : ℕ) → own_in_place names objects.new n
        ≡ join_owns (own_in_place names objects.old n) (own_in_place names others.now n)) }
    ensures changed { IfOk result (λ c. c ≡ true → (n : ℕ)
        × (own_in_place names objects.new n ≢ own_in_place names objects.old n)) }
    ensures same { IfOk result (λ c. c ≡ false → objects.new ≡ objects.old) }
    ensures none { IfOk result (λ c. c ≡ false → steps.new ≤ steps.old) }
    ensures kept { OnErr result (objects.new ≡ objects.old) }
    ensures long { length objects.new ≡ length objects.old }
    ensures nodes { ArePaths (length objects.old) (length objects.old) steps.old steps.new }
{
    let put = objects.join_with(
        others,
        |mine: &AObject, its: &AObject|
            ensures joined { IfOk result (λ o. own_below names (kept_or mine.now o)
                ≡ join_owns (own_below names mine.now) (own_below names its.now)) }
            ensures changed { IfOk result (λ o.
                IfSome o (λ new. own_below names new ≢ own_below names mine.now)) }
        { mine.joined(alloc, names, its) },
        steps,
    )?;
    Ok(put)
}

impl AHeap {
    ghost use Rattle.ja_aheap.specs.Heap.{heap_of};

    /// Whether each object of another heap has each part of the one of this heap.
    fn leq_objects(&self, other: &AHeap) -> bool
        requires { AreAlike (heap_of self.now) (heap_of other.now) }
        ensures { IsTrue result ↔ ((n : ℕ) → LeqOwn (own_in_place self.now.names self.now.objects n)
            (own_in_place self.now.names other.now.objects n)) }
    {
        let names = self.names;
        self.objects.all_with(
            &other.objects,
            |mine: &AObject, its: &AObject|
                ensures { IsTrue result ↔ LeqOwn (own_below names mine.now) (own_below names its.now) }
            { mine.leq(names, its) },
        )
    }

    /// Whether another heap has each part of this one, so that a join of this one changes nothing
    /// there.
    pub fn leq(&self, other: &AHeap) -> bool
        requires { AreAlike (heap_of self.now) (heap_of other.now) }
        ensures order { IsTrue result ↔ LeqHeap (heap_of self.now) (heap_of other.now) }
    {
        leq_masks(&self.masks, &other.masks) && self.leq_objects(other)
    }

    /// Joins another heap in, and tells whether this one changed. Where it didn't, no node was
    /// made.
    pub fn join<L: Ledger>(
        &mut self,
        alloc: Global,
        other: &AHeap,
        steps: &mut Steps<L>,
    ) -> Result<bool, Memory>
        requires { AreAlike (heap_of self.old) (heap_of other.now) }
        ensures joined { IfOk result (λ _. heap_of self.new
            ≡ join_heaps (heap_of self.old) (heap_of other.now)) }
        ensures changed { IfOk result (λ c. c ≡ true → heap_of self.new ≢ heap_of self.old) }
        ensures same { IfOk result (λ c. c ≡ false → heap_of self.new ≡ heap_of self.old) }
        ensures none { IfOk result (λ c. c ≡ false → steps.new ≤ steps.old) }
        ensures kept { OnErr result (heap_of self.new ≡ heap_of self.old) }
        ensures nodes { ArePaths (2 * (heap_of self.old).sites) (2 * (heap_of self.old).sites)
            steps.old steps.new }
    {
        self.mentioned.join(alloc, &other.mentioned)?;
        let masks = joined_masks(alloc, &self.masks, &other.masks)?;
        let put = join_objects(&mut self.objects, alloc, self.names, &other.objects, steps)?;
        match masks {
            Some(masks) => {
                self.masks = masks;
                Ok(true)
            }
            None => Ok(put),
        }
    }
}
