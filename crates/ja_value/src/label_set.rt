ghost use Rattle.std.specs.Prelude.{◌≡◌, ◌≢◌, ◌||◌, ◌&&◌, ◌<◌, ◌≤◌, ◌*◌, ◌↔◌, ◌==◌, ◌^◌, ◌/◌, ◌%◌, ℕ, filter, length, not, IfOk, OnErr, IsTrue, true, false};
ghost use Rattle.std.specs.List.{list_any};
ghost use Rattle.ja_base.specs.declared.ids.Label.{Label};
ghost use Rattle.ja_abstract.specs.AbstractValue.{same_label, no_labels};
ghost use Rattle.ja_abstract.specs.AbstractState.{labels_below, label_number, new, old};
ghost use Rattle.ja_abstract.specs.Resolved.{renamed_labels};
ghost use Rattle.ja_value.specs.Labels.{has, IsNext, label_at, aged_labels, mask_in, number_mask, leads};

use crate::ascending::Ascending;
use ja_abstract::Mask;
use ja_base::{Label, Memory, Site};
use std::alloc::Global;
use std::collections::BTreeMap;

/// A set of labels. Sets of one or two are kept without an allocation.
#[derive(Drop)]
pub struct LabelSet {
    numbers: Ascending,
}

/// The number of a label: twice its site, and one more where it is old.
pub fn label_number(label: Label) -> u64
    ensures { result ≡ label_number label }
{
    2 * u64::from(label.site.0) + u64::from(label.old)
}

/// The label of a number.
pub fn label_at(number: u64) -> Label
    requires { number < 2 ^ 33 }
    ensures { result ≡ label_at number }
{
    Label {
        site: Site((number / 2) as u32),
        old: number % 2 == 1,
    }
}

/// The mask of a site.
pub fn mask_at(masks: &BTreeMap<u64, Mask>, site: u64) -> Mask
    ensures { result ≡ mask_in masks.now site }
{
    match masks.get(&site) {
        Some(mask) => *mask,
        None => Mask {
            none: true,
            some: false,
        },
    }
}

/// The mask by which a label is renamed, by its number: an old label stays as it is.
fn number_mask(masks: &BTreeMap<u64, Mask>, number: u64) -> Mask
    ensures { result ≡ number_mask (mask_in masks.now) number }
{
    if number % 2 == 1 {
        Mask {
            none: true,
            some: false,
        }
    } else {
        mask_at(masks, number / 2)
    }
}

/// Adds the labels that the objects of a label may have now, by number.
fn insert_renamed(
    numbers: &mut Ascending,
    masks: &BTreeMap<u64, Mask>,
    number: u64,
) -> Result<(), Memory>
    ensures { IfOk result (λ _. (q : ℕ) → has numbers.new q
        ≡ (has numbers.old q || leads (mask_in masks.now) number q)) }
{
    let mask = number_mask(masks, number);
    if mask.none {
        numbers.insert(number)?;
    }
    if mask.some {
        numbers.insert(number + 1)?;
    }
    Ok(())
}

impl LabelSet {
    ghost use Rattle.ja_value.specs.Value.{labels_in};

    /// No label.
    pub fn new(alloc: Global) -> LabelSet
        ensures { labels_in result ≡ no_labels }
    {
        LabelSet {
            numbers: Ascending::new(alloc),
        }
    }

    /// The same set once more. Up to two labels take no memory.
    pub fn copy(&self) -> Result<LabelSet, Memory>
        ensures { IfOk result (λ s. labels_in s ≡ labels_in self.now) }
    {
        Ok(LabelSet {
            numbers: self.numbers.copy()?,
        })
    }

    /// Adds a label. After `Memory` the set is as it was.
    pub fn insert(&mut self, label: Label) -> Result<(), Memory>
        ensures inserted { IfOk result (λ _. labels_in self.new
            ≡ (λ l. labels_in self.old l || same_label label l)) }
        ensures kept { OnErr result (labels_in self.new ≡ labels_in self.old) }
    {
        self.numbers.insert(label_number(label))?;
        Ok(())
    }

    /// Whether the label is in the set.
    pub fn contains(&self, label: Label) -> bool
        ensures { result ≡ labels_in self.now label }
    {
        self.numbers.contains(label_number(label))
    }

    /// The number of the first label of the set from a number on, if there is one.
    pub fn next(&self, number: u64) -> Option<u64>
        ensures { IsNext (λ q. labels_in self.now (label_at q)) number result }
    {
        self.numbers.next(number)
    }

    /// Whether no label is in the set.
    pub fn is_empty(&self) -> bool
        ensures { IsTrue result ↔ (labels_in self.now ≡ no_labels) }
    {
        self.numbers.as_slice().is_empty()
    }

    /// Whether a label of the first `sites` sites is in the set.
    pub fn has_below(&self, sites: u32) -> bool
        ensures { result ≡ list_any (labels_in self.now) (labels_below sites) }
    {
        match self.numbers.as_slice().first() {
            Some(number) => *number < 2 * u64::from(sites),
            None => false,
        }
    }

    /// The labels of the first `sites` sites that are in the set, in order.
    pub fn list(&self, alloc: Global, sites: u32) -> Result<Vec<Label>, Memory>
        ensures { IfOk result (λ v. v.items ≡ filter (labels_in self.now) (labels_below sites)) }
    {
        let end = 2 * u64::from(sites);
        let mut labels = Vec::new(alloc);
        for number in self.numbers.as_slice() {
            if *number < end {
                labels.push(label_at(*number))?;
            }
        }
        Ok(labels)
    }

    /// Whether each label of another set is in this one.
    pub fn covers(&self, other: &LabelSet) -> bool
        ensures { IsTrue result ↔ ((λ l. labels_in self.now l || labels_in other.now l)
            ≡ labels_in self.now) }
    {
        other.is_subset(self)
    }

    /// Whether each label of this set is in another.
    pub fn is_subset(&self, other: &LabelSet) -> bool
        ensures { IsTrue result ↔ ((l : Label) → IsTrue (labels_in self.now l)
            → IsTrue (labels_in other.now l)) }
    {
        self.numbers.is_subset(&other.numbers)
    }

    /// Whether a label of the first `sites` sites is in this set and in another.
    pub fn intersects(&self, other: &LabelSet, sites: u32) -> bool
        ensures { result ≡ list_any (λ l. labels_in self.now l && labels_in other.now l)
            (labels_below sites) }
    {
        let end = 2 * u64::from(sites);
        for number in self.numbers.as_slice() {
            if *number < end && other.numbers.contains(*number) {
                return true;
            }
        }
        false
    }

    /// How many labels of the first `sites` sites are in the set.
    pub fn count_below(&self, sites: u32) -> u64
        ensures counted { result ≡ length (filter (labels_in self.now) (labels_below sites)) }
        ensures within { result ≤ 2 * sites }
    {
        let end = 2 * u64::from(sites);
        let mut count = 0;
        for number in self.numbers.as_slice() {
            if *number < end {
                count += 1;
            }
        }
        count
    }

    /// Drops a label.
    pub fn remove(&mut self, label: Label)
        ensures { labels_in self.new ≡ (λ l. labels_in self.old l && not (same_label label l)) }
    {
        self.numbers.remove(label_number(label));
    }

    /// Adds the labels of another set one by one, and tells whether one of them is new. After
    /// `Memory` some of them may have been added.
    fn add_all(&mut self, other: &LabelSet) -> Result<bool, Memory>
        ensures joined { IfOk result (λ _. labels_in self.new
            ≡ (λ l. labels_in self.old l || labels_in other.now l)) }
        ensures changed { IfOk result (λ c. c ≡ true → labels_in self.new ≢ labels_in self.old) }
        ensures same { IfOk result (λ c. c ≡ false → labels_in self.new ≡ labels_in self.old) }
    {
        let mut changed = false;
        for number in other.numbers.as_slice() {
            let added = self.numbers.insert(*number)?;
            changed = changed | added;
        }
        Ok(changed)
    }

    /// Adds the labels of another set, and tells whether one of them is new. After `Memory` the set
    /// is as it was.
    pub fn join(&mut self, other: &LabelSet) -> Result<bool, Memory>
        ensures joined { IfOk result (λ _. labels_in self.new
            ≡ (λ l. labels_in self.old l || labels_in other.now l)) }
        ensures changed { IfOk result (λ c. c ≡ true → labels_in self.new ≢ labels_in self.old) }
        ensures same { IfOk result (λ c. c ≡ false → labels_in self.new ≡ labels_in self.old) }
        ensures kept { OnErr result (labels_in self.new ≡ labels_in self.old) }
    {
        if self.covers(other) {
            return Ok(false);
        }
        let mut joined = self.copy()?;
        let changed = joined.add_all(other)?;
        *self = joined;
        Ok(changed)
    }

    /// An object more was made at a site: its new label becomes its old one. After `Memory` the set
    /// is as it was.
    pub fn age(&mut self, site: Site) -> Result<(), Memory>
        ensures aged { IfOk result (λ _. labels_in self.new ≡ aged_labels site (labels_in self.old)) }
        ensures kept { OnErr result (labels_in self.new ≡ labels_in self.old) }
    {
        let new = label_number(Label { site, old: false });
        if self.numbers.contains(new) {
            let old = label_number(Label { site, old: true });
            self.numbers.insert(old)?;
            self.numbers.remove(new);
        }
        Ok(())
    }

    /// The labels that the objects of these labels at the entry may have now, by the masks of their
    /// sites.
    pub fn renamed(&self, alloc: Global, masks: &BTreeMap<u64, Mask>) -> Result<LabelSet, Memory>
        ensures { IfOk result (λ s. labels_in s
            ≡ renamed_labels (mask_in masks.now) (labels_in self.now)) }
    {
        let mut numbers = Ascending::new(alloc);
        for number in self.numbers.as_slice() {
            insert_renamed(&mut numbers, masks, *number)?;
        }
        Ok(LabelSet { numbers })
    }
}
