ghost use Rattle.std.specs.Prelude.{◌≡◌, ◌&&◌, IfOk, if◌then◌else◌};
ghost use Rattle.ja_abstract.specs.Reading.{get, demands_of_get, prototype_walk, present_property, slot, both, demands_if};
ghost use Rattle.ja_abstract.specs.Resolved.{demands_of};
ghost use Rattle.ja_aheap.specs.Objects.{demands_in};
ghost use Rattle.ja_value.specs.Value.{labels_in, property_of};
ghost use Rattle.ja_astate.specs.code.Asked.{object_met};

use crate::Reader;
use crate::met::Met;
use crate::walks::Asks;
use ja_abstract::{Key, Slot};
use ja_aheap::DemandList;
use ja_base::{Label, Memory};
use ja_value::{AProp, LabelSet};
use std::mem;

/// A property that was read, and the pairs of the entry that the reading demands.
#[derive(Drop)]
pub struct Looked {
    pub property: AProp,
    pub demands: DemandList,
}

/// Where a slot leads: to which labels, and whether it may be empty.
#[derive(Drop)]
pub(crate) struct Links {
    pub labels: LabelSet,
    pub may_end: bool,
}

/// Asks objects for some keys, and leads from those that may lack them to their prototypes.
#[derive(Clone, Copy)]
struct Objects<'a> {
    reader: Reader<'a>,
    keys: &'a [Key],
}

impl Asks for Objects<'_> {
    ghost use Rattle.ja_astate.specs.Looks.{view_of};

    ghost meets = { λ s. object_met (view_of s.reader) s.keys.now };

    fn ask(&self, label: Label) -> Result<Met, Memory> {
        let reader = self.reader;
        let property = reader.own(label, self.keys)?;
        let lacks = property.value.flags.absent;
        let mut demands = DemandList::new(reader.alloc);
        reader.demand_own(label, self.keys, &mut demands)?;
        let next = reader.links(label, Key::Slot(Slot::Prototype), lacks, &mut demands)?;
        Ok(Met {
            labels: next.labels,
            property: reader.present(property),
            may_end: next.may_end,
            demands,
        })
    }
}

impl Reader<'_> {
    ghost use Rattle.ja_astate.specs.Looks.{view_of, IsLooked};

    /// The present part of a property, or nothing where it has no such part.
    fn present(&self, property: AProp) -> AProp
        ensures { property_of result ≡ present_property (view_of self.now) (property_of property) }
    {
        if !property.value.is_present(self.sites) {
            return AProp::nothing(self.alloc);
        }
        let AProp { value, attrs } = property;
        AProp {
            value: value.present_part(),
            attrs,
        }
    }

    /// Where a slot of an object leads, if the object leads on, and demands what that takes from
    /// the entry.
    pub(crate) fn links(
        &self,
        label: Label,
        link: Key,
        leads: bool,
        demands: &mut DemandList,
    ) -> Result<Links, Memory>
        ensures labels { IfOk result (λ links. labels_in links.labels
            ≡ (λ m. leads && (slot (view_of self.now) label link).label m)) }
        ensures may_end { IfOk result (λ links. links.may_end
            ≡ (leads && (slot (view_of self.now) label link).flags.absent)) }
        ensures demands { IfOk result (λ _. demands_in demands.new ≡ both (demands_in demands.old)
            (demands_if leads (demands_of (view_of self.now).state label link))) }
    {
        if !leads {
            return Ok(Links {
                labels: LabelSet::new(self.alloc),
                may_end: false,
            });
        }
        self.demand(label, link, demands)?;
        let mut next = self.resolved(label, link)?;
        Ok(Links {
            labels: mem::replace(&mut next.value.labels, LabelSet::new(self.alloc)),
            may_end: next.value.flags.absent,
        })
    }

    /// The objects that are asked for some keys, from those of some labels on along prototypes.
    pub fn prototype_walk(&self, start: &LabelSet, keys: &[Key]) -> Result<LabelSet, Memory>
        ensures { IfOk result (λ s. labels_in s
            ≡ prototype_walk (view_of self.now) (labels_in start.now) keys.now) }
    {
        let objects = Objects {
            reader: *self,
            keys,
        };
        let met = self.walk(&objects, start)?;
        Ok(met.labels)
    }

    /// What [[Get]] may find at some keys, from the objects of some labels on (ES3 8.6.2.1).
    pub fn get(&self, start: &LabelSet, keys: &[Key]) -> Result<Looked, Memory>
        ensures { IfOk result (IsLooked (get (view_of self.now) (labels_in start.now) keys.now)
            (demands_of_get (view_of self.now) (labels_in start.now) keys.now)) }
    {
        let objects = Objects {
            reader: *self,
            keys,
        };
        let Met {
            labels: _,
            mut property,
            may_end,
            demands,
        } = self.walk(&objects, start)?;
        if may_end {
            let absent = AProp::absent(self.alloc);
            property.join(self.alloc, &absent)?;
        }
        Ok(Looked { property, demands })
    }
}
