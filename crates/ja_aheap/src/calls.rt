ghost use Rattle.std.specs.Prelude.{◌≡◌, ◌<◌, ◌≤◌, ◌+◌, ◌*◌, ◌↔◌, IfOk, OnErr, IsTrue, false, filter};
ghost use Rattle.ja_abstract.specs.declared.abstraction.Key.{Key};
ghost use Rattle.ja_abstract.specs.AbstractValue.{entry_property, join_properties};
ghost use Rattle.ja_abstract.specs.AbstractState.{sites_below};
ghost use Rattle.ja_abstract.specs.Resolved.{renamed};
ghost use Rattle.ja_aheap.specs.Heap.{entry_heap, with_property_in, IsPropertyAt, has_label, has_key, is_rest, is_masked, AreUntouched};
ghost use Rattle.ja_trie.specs.Nodes.{ArePaths};
ghost use Rattle.ja_value.specs.Value.{property_of};

use crate::keys::is_key_below;
use crate::mentioned::{Mentioned, mention};
use crate::properties::joined;
use crate::{AHeap, AObject};
use ja_abstract::{Key, Mask};
use ja_base::{Label, Memory, Site};
use ja_trie::{Shared, Steps};
use ja_value::{AProp, LabelSet, label_number, mask_at};
use std::alloc::Global;
use std::collections::BTreeMap;
use std::rc::Rc;
use std::sync::ledger::Ledger;

impl AHeap {
    ghost use Rattle.ja_aheap.specs.Heap.{heap_of};

    /// The heap at a function's entry: each property is as it was, and nothing was made.
    pub fn entry<L: Ledger>(
        alloc: Global,
        sites: u32,
        names: u32,
        steps: &mut Steps<L>,
    ) -> Result<AHeap, Memory>
        requires { 2 * sites < 4294967296 }
        ensures heap { IfOk result (λ h. heap_of h ≡ entry_heap sites names) }
        ensures nodes { ArePaths (2 * sites) 1 steps.old steps.new }
    {
        let objects = Shared::new(alloc, 2 * sites, AObject::entry(alloc), steps)?;
        let masks = Rc::new(alloc, BTreeMap::new(alloc))?;
        let mentioned = Mentioned::new(alloc, LabelSet::new(alloc))?;
        Ok(AHeap {
            sites,
            names,
            objects,
            masks,
            mentioned,
        })
    }

    /// How many sites the program has.
    pub fn sites(&self) -> u32
        ensures { result ≡ (heap_of self.now).sites }
    {
        self.sites
    }

    /// How many names the program has.
    pub fn names(&self) -> u32
        ensures { result ≡ (heap_of self.now).names }
    {
        self.names
    }

    /// The property of a label and a key, or `None` where it is known to be as at entry, as it is
    /// for each label and key that the program doesn't have. It takes no memory.
    pub fn property(&self, label: Label, key: Key) -> Option<&AProp>
        ensures { IsPropertyAt (heap_of self.now) label key result }
    {
        if label.site.0 < self.sites && is_key_below(self.names, key) {
            let object = self.objects.get(label_number(label) as u32);
            Some(object.read(key))
        } else {
            None
        }
    }

    /// The mask of a site.
    pub fn mask(&self, site: Site) -> Mask
        ensures { result ≡ (heap_of self.now).mask site.0 }
    {
        mask_at(&self.masks, u64::from(site.0))
    }

    /// A property at the entry, with the labels that its objects have now.
    pub fn renamed(&self, alloc: Global, property: &AProp) -> Result<AProp, Memory>
        ensures { IfOk result (λ q. property_of q
            ≡ renamed (heap_of self.now).mask (property_of property.now)) }
    {
        property.renamed(alloc, &self.masks)
    }

    /// The same heap once more. It makes no node, and takes no memory.
    pub fn fork(&self) -> Result<AHeap, Memory>
        ensures { IfOk result (λ h. heap_of h ≡ heap_of self.now) }
    {
        Ok(AHeap {
            sites: self.sites,
            names: self.names,
            objects: self.objects.fork()?,
            masks: self.masks.clone()?,
            mentioned: self.mentioned.copy()?,
        })
    }

    /// Replaces a property.
    pub fn place<L: Ledger>(
        &mut self,
        alloc: Global,
        label: Label,
        key: Key,
        property: AProp,
        steps: &mut Steps<L>,
    ) -> Result<(), Memory>
        requires label { IsTrue (has_label (heap_of self.old) label) }
        requires key { IsTrue (has_key (heap_of self.old) key) }
        ensures placed { IfOk result (λ _. (heap_of self.new)
            ≡ with_property_in (heap_of self.old) label key (property_of property)) }
        ensures kept { OnErr result (heap_of self.new ≡ heap_of self.old) }
        ensures nodes { ArePaths (2 * (heap_of self.old).sites) 1 steps.old steps.new }
    {
        let number = label_number(label) as u32;
        let mut object = self.objects.get(number).copy(alloc)?;
        object.write(alloc, key, property)?;
        mention(&mut self.mentioned, alloc, &object)?;
        self.objects.set(number, object, steps)?;
        Ok(())
    }

    /// Replaces a property of the one object of a label, at the one key that a name or a slot is.
    pub fn write_strong<L: Ledger>(
        &mut self,
        alloc: Global,
        label: Label,
        key: Key,
        property: AProp,
        steps: &mut Steps<L>,
    ) -> Result<(), Memory>
        requires label { IsTrue (has_label (heap_of self.old) label) }
        requires new { label.old ≡ false }
        requires key { IsTrue (has_key (heap_of self.old) key) }
        requires one { is_rest key ≡ false }
        ensures written { IfOk result (λ _. heap_of self.new
            ≡ with_property_in (heap_of self.old) label key (property_of property)) }
        ensures kept { OnErr result (heap_of self.new ≡ heap_of self.old) }
        ensures nodes { ArePaths (2 * (heap_of self.old).sites) 1 steps.old steps.new }
    {
        self.place(alloc, label, key, property, steps)
    }

    /// Joins a property in at a label and a key.
    pub fn write_weak<L: Ledger>(
        &mut self,
        alloc: Global,
        label: Label,
        key: Key,
        property: &AProp,
        steps: &mut Steps<L>,
    ) -> Result<(), Memory>
        requires label { IsTrue (has_label (heap_of self.old) label) }
        requires key { IsTrue (has_key (heap_of self.old) key) }
        ensures written { IfOk result (λ _. heap_of self.new
            ≡ with_property_in (heap_of self.old) label key
            (join_properties ((heap_of self.old).property label key) (property_of property.now))) }
        ensures kept { OnErr result (heap_of self.new ≡ heap_of self.old) }
        ensures nodes { ArePaths (2 * (heap_of self.old).sites) 1 steps.old steps.new }
    {
        let number = label_number(label) as u32;
        let written = joined(alloc, self.objects.get(number).read(key), property)?;
        self.place(alloc, label, key, written, steps)
    }

    /// Whether each property of a label is exactly as at entry, as it is where nothing was written.
    pub fn is_as_at_entry(&self, label: Label) -> bool
        ensures { IsTrue result
            ↔ ((k : Key) → (heap_of self.now).property label k ≡ entry_property) }
    {
        if label.site.0 >= self.sites {
            return true;
        }
        let number = label_number(label) as u32;
        self.objects.get(number).is_as_at_entry(self.names)
    }

    /// A site at or behind `site`, before which each label from `site` on is as at entry. So far
    /// this tells it in a few steps, however many sites that are. Of a site of the program `site`
    /// itself comes exactly where one of its labels isn't as at entry.
    pub fn untouched_to(&self, site: Site) -> Site
        ensures ahead { site.0 ≤ result.0 }
        ensures untouched { AreUntouched (heap_of self.now) site.0 result.0 }
        ensures further { site.0 < (heap_of self.now).sites
            → AreUntouched (heap_of self.now) site.0 (site.0 + 1) → site.0 < result.0 }
    {
        if site.0 >= self.sites || !self.is_untouched(site) {
            return site;
        }
        let new = label_number(Label { site, old: false });
        let end = self.objects.run_end(new as u32);
        Site((end / 2).max(site.0 + 1))
    }

    /// Whether both labels of a site are as at entry.
    fn is_untouched(&self, site: Site) -> bool
        ensures { IsTrue result ↔ AreUntouched (heap_of self.now) site.0 (site.0 + 1) }
    {
        self.is_as_at_entry(Label { site, old: false })
            && self.is_as_at_entry(Label { site, old: true })
    }

    /// Whether the mask of a site isn't exactly none.
    fn is_masked(&self, site: Site) -> bool
        ensures { result ≡ is_masked (heap_of self.now) site }
    {
        let mask = self.mask(site);
        !(mask.none && !mask.some)
    }

    /// The sites whose mask isn't exactly none, in order.
    pub fn masked(&self, alloc: Global) -> Result<Vec<Site>, Memory>
        ensures { IfOk result (λ v. v.items ≡ filter (is_masked (heap_of self.now))
            (sites_below (heap_of self.now).sites)) }
    {
        let sites = (0..self.sites)
            .map(|site| Site(site))
            .filter(|site| self.is_masked(*site))
            .collect(alloc)?;
        Ok(sites)
    }
}
