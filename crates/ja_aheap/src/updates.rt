ghost use Rattle.std.specs.Prelude.{◌≡◌, ◌*◌, ◌<◌, IfOk, OnErr, IsTrue, All};
ghost use Rattle.ja_base.specs.declared.ids.Site.{Site};
ghost use Rattle.ja_abstract.specs.declared.abstraction.Mask.{Mask};
ghost use Rattle.ja_aheap.specs.Heap.{with_masks_in, with_own_in, strongly_in, weakly_in, has_label, has_key};
ghost use Rattle.ja_aheap.specs.Objects.{own_in, writes_of};
ghost use Rattle.ja_aheap.specs.declared.writes.Write.{Write};
ghost use Rattle.ja_trie.specs.Nodes.{ArePaths};

use crate::masks::masks_with;
use crate::mentioned::mention;
use crate::{AHeap, AObject, Made, Writes};
use ja_abstract::Mask;
use ja_base::{Label, Memory, Site};
use ja_trie::Steps;
use ja_value::label_number;
use std::alloc::Global;
use std::sync::ledger::Ledger;

impl AHeap {
    ghost use Rattle.ja_aheap.specs.Heap.{heap_of};

    /// Gives an object these properties, and no others.
    pub fn replace<L: Ledger>(
        &mut self,
        alloc: Global,
        label: Label,
        made: Made,
        steps: &mut Steps<L>,
    ) -> Result<(), Memory>
        requires { IsTrue (has_label (heap_of self.old) label) }
        ensures replaced { IfOk result (λ _. heap_of self.new
            ≡ with_own_in (heap_of self.old) label (own_in made)) }
        ensures kept { OnErr result (heap_of self.new ≡ heap_of self.old) }
        ensures nodes { ArePaths (2 * (heap_of self.old).sites) 1 steps.old steps.new }
    {
        let object = AObject::made(alloc, made)?;
        mention(&mut self.mentioned, alloc, &object)?;
        self.objects.set(label_number(label) as u32, object, steps)?;
        Ok(())
    }

    /// Writes at the one object of a label: what is written replaces what was there, but for the
    /// writes that only join.
    pub fn strongly<L: Ledger>(
        &mut self,
        alloc: Global,
        label: Label,
        writes: Writes,
        steps: &mut Steps<L>,
    ) -> Result<(), Memory>
        requires label { IsTrue (has_label (heap_of self.old) label) }
        requires keys { All (λ (w : Write). IsTrue (has_key (heap_of self.old) w.key))
            writes.list.items }
        ensures written { IfOk result (λ _. heap_of self.new
            ≡ strongly_in (heap_of self.old) label (writes_of writes)) }
        ensures kept { OnErr result (heap_of self.new ≡ heap_of self.old) }
        ensures nodes { ArePaths (2 * (heap_of self.old).sites) 1 steps.old steps.new }
    {
        let number = label_number(label) as u32;
        let mut object = self.objects.get(number).copy(alloc)?;
        object.strongly(alloc, writes)?;
        mention(&mut self.mentioned, alloc, &object)?;
        self.objects.set(number, object, steps)?;
        Ok(())
    }

    /// Writes at the objects of a label, of which there may be several: each write joins.
    pub fn weakly<L: Ledger>(
        &mut self,
        alloc: Global,
        label: Label,
        writes: Writes,
        steps: &mut Steps<L>,
    ) -> Result<(), Memory>
        requires label { IsTrue (has_label (heap_of self.old) label) }
        requires keys { All (λ (w : Write). IsTrue (has_key (heap_of self.old) w.key))
            writes.list.items }
        ensures written { IfOk result (λ _. heap_of self.new
            ≡ weakly_in (heap_of self.old) label (writes_of writes)) }
        ensures kept { OnErr result (heap_of self.new ≡ heap_of self.old) }
        ensures nodes { ArePaths (2 * (heap_of self.old).sites) 1 steps.old steps.new }
    {
        let number = label_number(label) as u32;
        let mut object = self.objects.get(number).copy(alloc)?;
        object.weakly(alloc, writes)?;
        mention(&mut self.mentioned, alloc, &object)?;
        self.objects.set(number, object, steps)?;
        Ok(())
    }

    /// Sets the masks of some sites. Of several of one site the first counts.
    pub fn set_masks(&mut self, alloc: Global, masks: Vec<(Site, Mask)>) -> Result<(), Memory>
        requires { All (λ (m : Site × Mask). m.0.0 < (heap_of self.old).sites) masks.items }
        ensures set { IfOk result (λ _. heap_of self.new
            ≡ with_masks_in (heap_of self.old) masks.items) }
        ensures kept { OnErr result (heap_of self.new ≡ heap_of self.old) }
    {
        self.masks = masks_with(alloc, &self.masks, masks)?;
        Ok(())
    }
}
