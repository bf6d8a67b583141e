ghost use Rattle.std.specs.Prelude.{◌≡◌, ◌||◌, ◌&&◌, ℕ, IfOk, OnErr};
ghost use Rattle.std.specs.List.{list_any};
ghost use Rattle.ja_abstract.specs.AbstractState.{labels_below};
ghost use Rattle.ja_abstract.specs.Resolved.{renamed_labels};
ghost use Rattle.ja_value.specs.Labels.{aged_labels, mask_in};
ghost use Rattle.ja_value.specs.Value.{labels_in};
ghost use Rattle.ja_aheap.specs.Objects.{at};
ghost use Rattle.ja_aheap.specs.code.Mentioned.{AreAmong};

use crate::AObject;
use ja_abstract::Mask;
use ja_base::{Label, Memory, Site};
use ja_value::LabelSet;
use std::alloc::Global;
use std::collections::BTreeMap;
use std::marker::Model;
use std::rc::Rc;

/// The labels that a heap mentions. Contracts see the set; heaps that mention the same share it.
#[derive(Drop)]
pub(crate) struct Mentioned {
    labels: Rc<LabelSet>,
}

impl Model for Mentioned {
    ghost use Rattle.ja_value.specs.declared.label_set.LabelSet.{LabelSet};

    ghost Value = { LabelSet };

    ghost view = { λ m. m.labels.value };
}

impl Mentioned {
    /// These labels.
    pub(crate) fn new(alloc: Global, labels: LabelSet) -> Result<Mentioned, Memory>
        ensures { IfOk result (λ m. m ≡ labels) }
    {
        let labels = Rc::new(alloc, labels)?;
        Ok(Mentioned { labels })
    }

    /// The same labels once more.
    pub(crate) fn copy(&self) -> Result<Mentioned, Memory>
        ensures { IfOk result (λ m. labels_in m ≡ labels_in self.now) }
    {
        Ok(Mentioned {
            labels: self.labels.clone()?,
        })
    }

    /// The labels.
    pub(crate) fn labels(&self) -> &LabelSet
        ensures { result.now ≡ self.now }
    {
        &self.labels
    }

    /// Whether a label is among them.
    pub(crate) fn contains(&self, label: Label) -> bool
        ensures { result ≡ labels_in self.now label }
    {
        self.labels.contains(label)
    }

    /// Whether a label of the first `sites` sites is among them and in a set.
    pub(crate) fn intersects(&self, other: &LabelSet, sites: u32) -> bool
        ensures { result ≡ list_any (λ l. labels_in self.now l && labels_in other.now l)
            (labels_below sites) }
    {
        self.labels.intersects(other, sites)
    }

    /// The labels that the objects of these at the entry may have now, by the masks of their sites.
    pub(crate) fn renamed(
        &self,
        alloc: Global,
        masks: &BTreeMap<u64, Mask>,
    ) -> Result<LabelSet, Memory>
        ensures { IfOk result (λ s. labels_in s
            ≡ renamed_labels (mask_in masks.now) (labels_in self.now)) }
    {
        self.labels.renamed(alloc, masks)
    }

    /// These labels after an object more was made at a site.
    pub(crate) fn made_at(&self, alloc: Global, site: Site) -> Result<Mentioned, Memory>
        ensures { IfOk result (λ m. labels_in m ≡ aged_labels site (labels_in self.now)) }
    {
        if !self.contains(Label { site, old: false }) {
            return self.copy();
        }
        let mut labels = self.labels.copy()?;
        labels.age(site)?;
        Mentioned::new(alloc, labels)
    }

    /// Adds the labels of a set. After `Memory` they are as they were.
    pub(crate) fn add(&mut self, alloc: Global, other: &LabelSet) -> Result<(), Memory>
        ensures joined { IfOk result (λ _. labels_in self.new
            ≡ (λ l. labels_in self.old l || labels_in other.now l)) }
        ensures kept { OnErr result (labels_in self.new ≡ labels_in self.old) }
    {
        if !self.labels.covers(other) {
            let mut joined = self.labels.copy()?;
            joined.join(other)?;
            self.labels = Rc::new(alloc, joined)?;
        }
        Ok(())
    }

    /// Adds those of another heap. After `Memory` they are as they were.
    pub(crate) fn join(&mut self, alloc: Global, other: &Mentioned) -> Result<(), Memory>
        ensures joined { IfOk result (λ _. labels_in self.new
            ≡ (λ l. labels_in self.old l || labels_in other.now l)) }
        ensures kept { OnErr result (labels_in self.new ≡ labels_in self.old) }
    {
        if other.labels.covers(&self.labels) && !self.labels.covers(&other.labels) {
            self.labels = other.labels.clone()?;
            return Ok(());
        }
        self.add(alloc, &other.labels)
    }
}

/// Adds the labels that the properties of an object may be. After `Memory` some of them may have
/// been added.
pub(crate) fn mention(
    mentioned: &mut Mentioned,
    alloc: Global,
    object: &AObject,
) -> Result<(), Memory>
    ensures mentions { IfOk result (λ _. (q : ℕ)
        → AreAmong (at object.now q).value.label (labels_in mentioned.new)) }
    ensures kept { AreAmong (labels_in mentioned.old) (labels_in mentioned.new) }
{
    mentioned.add(alloc, &object.common.value.labels)?;
    for (_, property) in &object.listed {
        mentioned.add(alloc, &property.value.labels)?;
    }
    Ok(())
}
