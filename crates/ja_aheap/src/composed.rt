ghost use Rattle.std.specs.Prelude.{◌≡◌, ◌==◌, ◌||◌, ◌*◌, ◌++◌, ℕ, ◌<◌, ◌≤◌, ◌+◌, None, true, false, IfOk, IfSome, IsTrue, is_some, length, slice_index_or};
ghost use Rattle.std.specs.Option.{option_map_or};
ghost use Rattle.std.specs.Ordering.{nat_cmp};
ghost use Rattle.std.specs.BTreeMap.{get};
ghost use Rattle.ja_abstract.specs.AbstractValue.{AbstractProperty};
ghost use Rattle.ja_abstract.specs.AbstractState.{label_number};
ghost use Rattle.ja_abstract.specs.Composed.{composed_mask, renamed_value};
ghost use Rattle.ja_value.specs.Labels.{label_at, mask_in};
ghost use Rattle.ja_value.specs.Value.{labels_in, value_of};
ghost use Rattle.ja_aheap.specs.declared.object.AObject.{AObject};
ghost use Rattle.ja_aheap.specs.Heap.{composed_in, AreAlike, AreUntouched, has_label};
ghost use Rattle.ja_aheap.specs.Objects.{at};
ghost use Rattle.ja_aheap.specs.code.Composed.{property_list, read_at, origins_at, HasMoved, AreUnmoved, IsComposed, Composing};
ghost use Rattle.ja_aheap.specs.code.Masks.{AreMasks, both_masks};
ghost use Rattle.ja_trie.specs.Nodes.{ArePaths};

use crate::maps::put;
use crate::mentioned::Mentioned;
use crate::sources::Sources;
use crate::{AHeap, AObject};
use ja_abstract::Mask;
use ja_base::{Label, Memory, Site};
use ja_trie::{Shared, Steps};
use ja_value::{AValue, LabelSet, label_at, label_number, mask_at};
use std::alloc::Global;
use std::collections::BTreeMap;
use std::rc::Rc;
use std::sync::ledger::Ledger;

/// What was made at a site in two times after each other.
fn composed_mask(first: Mask, later: Mask) -> Mask
    ensures { result ≡ composed_mask first later }
{
    Mask {
        none: later.none && first.none,
        some: later.some || (first.some && later.none),
    }
}

/// Keeps the composed mask of a site.
fn keep_mask(
    composed: &mut BTreeMap<u64, Mask>,
    first: &BTreeMap<u64, Mask>,
    later: &BTreeMap<u64, Mask>,
    site: u64,
) -> Result<(), Memory>
    ensures right { IfOk result (λ _. AreMasks (both_masks first.now later.now) composed.old
        → AreMasks (both_masks first.now later.now) composed.new) }
    ensures kept { IfOk result (λ _. (q : ℕ) → is_some (get nat_cmp composed.new q)
        ≡ (site == q || is_some (get nat_cmp composed.old q))) }
{
    let mask = composed_mask(mask_at(first, site), mask_at(later, site));
    put(composed, site, mask)?;
    Ok(())
}

/// Keeps the composed mask of each site that some masks keep.
fn keep_masks(
    composed: &mut BTreeMap<u64, Mask>,
    first: &BTreeMap<u64, Mask>,
    later: &BTreeMap<u64, Mask>,
    masks: &BTreeMap<u64, Mask>,
) -> Result<(), Memory>
    ensures right { IfOk result (λ _. AreMasks (both_masks first.now later.now) composed.old
        → AreMasks (both_masks first.now later.now) composed.new) }
    ensures kept { IfOk result (λ _. (q : ℕ) → is_some (get nat_cmp composed.new q)
        ≡ (is_some (get nat_cmp masks.now q) || is_some (get nat_cmp composed.old q))) }
{
    for (site, _) in masks {
        keep_mask(composed, first, later, *site)?;
    }
    Ok(())
}

/// The composed masks of all sites.
fn composed_masks(
    alloc: Global,
    first: &BTreeMap<u64, Mask>,
    later: &BTreeMap<u64, Mask>,
) -> Result<BTreeMap<u64, Mask>, Memory>
    ensures { IfOk result (λ m. (s : ℕ) → mask_in m s ≡ both_masks first.now later.now s) }
{
    let mut composed = BTreeMap::new(alloc);
    keep_masks(&mut composed, first, later, first)?;
    keep_masks(&mut composed, first, later, later)?;
    Ok(composed)
}

impl AHeap {
    ghost use Rattle.ja_aheap.specs.Heap.{heap_of};

    /// A value at the entry, with the labels that its objects have now.
    pub fn renamed_value(&self, alloc: Global, value: &AValue) -> Result<AValue, Memory>
        ensures { IfOk result (λ v. value_of v
            ≡ renamed_value (heap_of self.now).mask (value_of value.now)) }
    {
        value.renamed(alloc, &self.masks)
    }

    /// What the object of a label is composed of.
    fn sources<'a>(&'a self, later: &'a AHeap, label: Label) -> Sources<'a>
        requires label { IsTrue (has_label (heap_of self.now) label) }
        requires alike { AreAlike (heap_of self.now) (heap_of later.now) }
        ensures later { result.later.now
            ≡ slice_index_or later.now.objects (label_number label) result.later.now }
        ensures masks { result.masks.now ≡ later.now.masks.value }
        ensures first { IfSome result.first (λ o. o.now
            ≡ slice_index_or self.now.objects (label_number label) o.now) }
        ensures origins { (f : AObject → AbstractProperty)
            → (property_list f result.first ++ property_list f result.second)
            ≡ origins_at f self.now.objects (mask_in later.now.masks.value) label }
    {
        let mask = later.mask(label.site);
        let number = label_number(label) as u32;
        let mine = self.objects.get(number);
        let (first, second) = if label.old {
            let new = self.objects.get(number - 1);
            (Some(mine), if mask.some { Some(new) } else { None })
        } else {
            (if mask.none { Some(mine) } else { None }, None)
        };
        Sources {
            later: later.objects.get(number),
            first,
            second,
            masks: &later.masks,
        }
    }

    /// The composed object of a label, or `None` where that is the one of this heap.
    fn composed_object(
        &self,
        alloc: Global,
        later: &AHeap,
        moved: &LabelSet,
        label: Label,
    ) -> Result<Option<AObject>, Memory>
        requires label { IsTrue (has_label (heap_of self.now) label) }
        requires alike { AreAlike (heap_of self.now) (heap_of later.now) }
        requires moved { HasMoved later.now.sites (mask_in later.now.masks.value)
            (labels_in moved.now) }
        ensures { IfOk result (IsComposed self.now.names self.now.objects later.now.objects
            (mask_in later.now.masks.value) label) }
    {
        let sources = self.sources(later, label);
        if sources.is_kept(later.sites, self.names, moved) {
            return Ok(None);
        }
        let object = sources.object(alloc)?;
        Ok(Some(object))
    }

    /// Puts the composed object of the label of a number, if it isn't the one that is there.
    fn put_composed<L: Ledger>(
        &self,
        alloc: Global,
        later: &AHeap,
        moved: &LabelSet,
        number: u32,
        objects: &mut Shared<AObject>,
        steps: &mut Steps<L>,
    ) -> Result<(), Memory>
        requires within { number < 2 * self.now.sites }
        requires alike { AreAlike (heap_of self.now) (heap_of later.now) }
        requires moved { HasMoved later.now.sites (mask_in later.now.masks.value)
            (labels_in moved.now) }
        requires long { length objects.old ≡ length self.now.objects }
        ensures composing { IfOk result (λ _. Composing self.now.names self.now.objects
            later.now.objects (mask_in later.now.masks.value) objects.old number → Composing
            self.now.names self.now.objects later.now.objects (mask_in later.now.masks.value)
            objects.new (number + 1)) }
        ensures nodes { ArePaths (2 * self.now.sites) 1 steps.old steps.new }
    {
        let label = label_at(u64::from(number));
        if let Some(object) = self.composed_object(alloc, later, moved, label)? {
            objects.set(number, object, steps)?;
        }
        Ok(())
    }

    /// The site up to which each label from a site on is as at entry in a later heap, as far as runs
    /// tell it, and in this one too where its objects may name one that moved; the site itself
    /// where one isn't.
    fn untouched_in(&self, later: &AHeap, named: bool, site: Site) -> u32
        ensures first { named ≡ true → AreUntouched (heap_of self.now) site.0 result }
        ensures later { AreUntouched (heap_of later.now) site.0 result }
    {
        let later = later.untouched_to(site);
        if named {
            let first = self.untouched_to(site);
            return first.0.min(later.0);
        }
        later.0
    }

    /// The site up to which the objects of each site from a site on are known to stay as they are,
    /// without a look at them; the site itself where they aren't. `named` tells whether an object of
    /// this heap may name one that moved.
    fn kept_to(&self, later: &AHeap, moved: &LabelSet, named: bool, site: Site) -> u32
        requires alike { AreAlike (heap_of self.now) (heap_of later.now) }
        requires moved { HasMoved later.now.sites (mask_in later.now.masks.value)
            (labels_in moved.now) }
        requires named { named ≡ false → AreUnmoved (mask_in later.now.masks.value)
            (labels_in self.now.mentioned) }
        ensures within { result ≤ self.now.sites }
        ensures kept { (n : ℕ) → 2 * site.0 ≤ n → n < 2 * result → IsComposed self.now.names
            self.now.objects later.now.objects (mask_in later.now.masks.value) (label_at n) None }
    {
        let end = self.untouched_in(later, named, site).min(self.sites);
        match moved.next(label_number(Label { site, old: false })) {
            Some(number) => u64::from(end).min(number / 2) as u32,
            None => end,
        }
    }

    /// The composed objects of all labels, which share with this heap what stays. Where no object
    /// names one that moved, only those are looked at that are touched in the later heap, or moved.
    fn composed_objects<L: Ledger>(
        &self,
        alloc: Global,
        later: &AHeap,
        steps: &mut Steps<L>,
    ) -> Result<Shared<AObject>, Memory>
        requires { AreAlike (heap_of self.now) (heap_of later.now) }
        ensures composed { IfOk result (λ objects. Composing self.now.names self.now.objects
            later.now.objects (mask_in later.now.masks.value) objects (2 * self.now.sites)) }
        ensures nodes { ArePaths (2 * self.now.sites) (2 * self.now.sites) steps.old steps.new }
    {
        let moved = later.moved(alloc)?;
        let named = self.mentioned.intersects(&moved, later.sites);
        let mut objects = self.objects.fork()?;
        let mut site = 0;
        while site < self.sites {
            let kept = self.kept_to(later, &moved, named, Site(site));
            if kept <= site {
                self.put_composed(alloc, later, &moved, 2 * site, &mut objects, steps)?;
                self.put_composed(alloc, later, &moved, 2 * site + 1, &mut objects, steps)?;
            }
            site = kept.max(site + 1);
        }
        Ok(objects)
    }

    /// This heap read through a later one, which describes what came after it (Jensen, Møller and
    /// Thiemann, SAS 2010). An object that stays as it is makes no node.
    pub fn composed<L: Ledger>(
        &self,
        alloc: Global,
        later: &AHeap,
        steps: &mut Steps<L>,
    ) -> Result<AHeap, Memory>
        requires { AreAlike (heap_of self.now) (heap_of later.now) }
        ensures composed { IfOk result (λ h. heap_of h
            ≡ composed_in (heap_of self.now) (heap_of later.now)) }
        ensures nodes { ArePaths (2 * (heap_of self.now).sites) (2 * (heap_of self.now).sites)
            steps.old steps.new }
    {
        let masks = composed_masks(alloc, &self.masks, &later.masks)?;
        let masks = Rc::new(alloc, masks)?;
        let objects = self.composed_objects(alloc, later, steps)?;
        let mut labels = self.mentioned.renamed(alloc, &later.masks)?;
        labels.join(later.mentioned.labels())?;
        let mentioned = Mentioned::new(alloc, labels)?;
        Ok(AHeap {
            sites: self.sites,
            names: self.names,
            objects,
            masks,
            mentioned,
        })
    }
}
