ghost use Rattle.std.specs.Prelude.{◌≡◌, ◌⊎◌, ℕ, ◌<◌, IfOk, true, false};
ghost use Rattle.ja_base.specs.declared.ids.Site.{Site};
ghost use Rattle.ja_abstract.specs.AbstractState.{exactly_none, new};
ghost use Rattle.ja_abstract.specs.Resolved.{renamed};
ghost use Rattle.ja_value.specs.Labels.{mask_in};
ghost use Rattle.ja_value.specs.Value.{labels_in, property_of};
ghost use Rattle.ja_aheap.specs.Objects.{at};
ghost use Rattle.ja_aheap.specs.code.Composed.{HasMoved};
ghost use Rattle.ja_aheap.specs.code.Masks.{NothingBeyond};

use crate::maps::all_listed;
use crate::{AHeap, AObject};
use ja_abstract::Mask;
use ja_base::{Label, Memory, Site};
use ja_value::{AProp, LabelSet};
use std::alloc::Global;
use std::collections::BTreeMap;
use std::rc::Rc;

/// Adds the new label of the site of a number, if there is one and something may be made there.
fn add_moved(labels: &mut LabelSet, sites: u32, number: u64, mask: Mask) -> Result<(), Memory>
    ensures added { IfOk result (λ _. (s : Site) → s.0 ≡ number → s.0 < sites
        → (mask ≡ exactly_none) ⊎ (labels_in labels.new (new s) ≡ true)) }
    ensures kept { IfOk result (λ _. (s : Site) → labels_in labels.old (new s) ≡ true
        → labels_in labels.new (new s) ≡ true) }
{
    if number < u64::from(sites) && (!mask.none || mask.some) {
        let site = Site(number as u32);
        labels.insert(Label { site, old: false })?;
    }
    Ok(())
}

impl AHeap {
    /// The new labels of the sites at which something may be made.
    pub(crate) fn moved(&self, alloc: Global) -> Result<LabelSet, Memory>
        ensures { IfOk result (λ labels. HasMoved self.now.sites (mask_in self.now.masks.value)
            (labels_in labels)) }
    {
        let mut labels = LabelSet::new(alloc);
        for (site, mask) in &*self.masks {
            add_moved(&mut labels, self.sites, *site, *mask)?;
        }
        Ok(labels)
    }
}

impl AObject {
    /// Whether objects that a property names may have another label, where something is made by
    /// these masks: the new labels that may be another one then are `moved`.
    pub(crate) fn is_renamed(
        &self,
        masks: &BTreeMap<u64, Mask>,
        sites: u32,
        moved: &LabelSet,
    ) -> bool
        requires beyond { NothingBeyond sites (mask_in masks.now) }
        requires moved { HasMoved sites (mask_in masks.now) (labels_in moved.now) }
        ensures { result ≡ false → (q : ℕ) → renamed (mask_in masks.now) (at self.now q)
            ≡ at self.now q }
    {
        self.common.value.labels.intersects(moved, sites)
            || !all_listed(&self.listed, |_number: u64, property: &Rc<AProp>| {
                !property.value.labels.intersects(moved, sites)
            })
    }
}
