ghost use Rattle.std.specs.Prelude.{◌≡◌, IfOk, filter};
ghost use Rattle.std.specs.Option.{option_map_or};
ghost use Rattle.ja_graph.specs.WellFormed.{IsWellFormed};
ghost use Rattle.ja_abstract.specs.AbstractState.{labels_of};
ghost use Rattle.ja_abstract.specs.AbstractValue.{no_property};
ghost use Rattle.ja_abstract.specs.Keys.{keys_of_value};
ghost use Rattle.ja_abstract.specs.Reading.{own, demands_of_own, both};
ghost use Rattle.ja_abstract.specs.Resolved.{resolved, demands_of, origins, renamed, from_entry};
ghost use Rattle.ja_aheap.specs.Heap.{heap_of, IsHeapOf};
ghost use Rattle.ja_aheap.specs.Objects.{demands_in};
ghost use Rattle.ja_astate.specs.Keys.{IsKeysOf};
ghost use Rattle.ja_value.specs.Value.{value_of, property_of, labels_in};
ghost use Rattle.ja_astate.specs.code.Pairs.{demands_for};

use crate::Reader;
use crate::names::ProgramKeys;
use crate::state::AState;
use ja_abstract::Key;
use ja_aheap::{DemandList, DemandedEntries};
use ja_base::{Label, Memory};
use ja_graph::Program;
use ja_value::{AProp, AValue, LabelSet};
use std::alloc::Global;

/// Demands a key of each of these labels.
fn demand_each(labels: &[Label], key: Key, demands: &mut DemandList) -> Result<(), Memory>
    ensures { IfOk result (λ _. demands_in demands.new
        ≡ both (demands_in demands.old) (demands_for key labels.now)) }
{
    for label in labels {
        demands.push(*label, key)?;
    }
    Ok(())
}

impl<'a> Reader<'a> {
    ghost use Rattle.ja_astate.specs.Looks.{view_of};

    /// Reads this state with these values at entry.
    pub fn new(
        alloc: Global,
        program: &'a Program,
        keys: &'a ProgramKeys,
        state: &'a AState,
        entries: &'a DemandedEntries,
    ) -> Reader<'a>
        requires program { IsWellFormed program.now }
        requires keys { IsKeysOf program.now keys.now }
        requires heap { IsHeapOf program.now (heap_of state.now.heap) }
        ensures program { result.program.now ≡ program.now }
        ensures state { result.state.now ≡ state.now }
        ensures entries { result.entries.now ≡ entries.now }
    {
        Reader {
            alloc,
            program,
            keys,
            sites: program.sites.len() as u32,
            state,
            entries,
        }
    }

    /// The labels of the program in a set, in order.
    pub fn labels(&self, set: &LabelSet) -> Result<Vec<Label>, Memory>
        ensures { IfOk result (λ v. v.items
            ≡ filter (labels_in set.now) (labels_of self.now.program.now)) }
    {
        set.list(self.alloc, self.sites)
    }

    /// The keys of a value, in the program's order.
    pub fn keys_of_value(&self, value: &AValue) -> Result<Vec<Key>, Memory>
        ensures { IfOk result (λ v. v.items
            ≡ keys_of_value self.now.program.now (value_of value.now)) }
    {
        self.keys.keys_of_value(self.alloc, value)
    }

    /// The property of a label and a key now.
    fn property(&self, label: Label, key: Key) -> Result<AProp, Memory>
        ensures { IfOk result (λ q. property_of q ≡ (view_of self.now).state.property label key) }
    {
        match self.state.heap.property(label, key) {
            Some(property) => property.copy(self.alloc),
            None => Ok(AProp::entry(self.alloc)),
        }
    }

    /// Whether a property may be as at entry.
    fn may_be_as_at_entry(&self, label: Label, key: Key) -> bool
        ensures { result ≡ ((view_of self.now).state.property label key).value.flags.entry }
    {
        match self.state.heap.property(label, key) {
            Some(property) => property.value.flags.entry,
            None => true,
        }
    }

    /// The labels at entry of the objects that have this label now.
    fn origins(&self, label: Label) -> Result<Vec<Label>, Memory>
        ensures { IfOk result (λ v. v.items ≡ origins (view_of self.now).state.mask label) }
    {
        let mask = self.state.heap.mask(label.site);
        let mut origins = Vec::new(self.alloc);
        if label.old {
            origins.push(label)?;
        }
        let was_new = if label.old { mask.some } else { mask.none };
        if was_new {
            origins.push(Label {
                site: label.site,
                old: false,
            })?;
        }
        Ok(origins)
    }

    /// What the objects of a label of the entry had then, with the labels that are theirs now.
    fn at_entry(&self, label: Label, key: Key) -> Result<AProp, Memory>
        ensures { IfOk result (λ q. property_of q
            ≡ option_map_or (renamed (view_of self.now).state.mask)
            ((view_of self.now).entries label key) no_property) }
    {
        match self.entries.get(label, key) {
            Some(property) => self.state.heap.renamed(self.alloc, property),
            None => Ok(AProp::nothing(self.alloc)),
        }
    }

    /// What the objects of a label now had at entry.
    fn from_entry(&self, label: Label, key: Key) -> Result<AProp, Memory>
        ensures { IfOk result (λ q. property_of q
            ≡ from_entry (view_of self.now).state (view_of self.now).entries label key) }
    {
        let origins = self.origins(label)?;
        let mut sum = AProp::nothing(self.alloc);
        for origin in &origins {
            let property = self.at_entry(*origin, key)?;
            sum.join(self.alloc, &property)?;
        }
        Ok(sum)
    }

    /// The property of a label and a key now, with what was there at entry in the place of `entry`.
    pub fn resolved(&self, label: Label, key: Key) -> Result<AProp, Memory>
        ensures { IfOk result (λ q. property_of q
            ≡ resolved (view_of self.now).state (view_of self.now).entries label key) }
    {
        let mut property = self.property(label, key)?;
        if property.value.flags.entry {
            property.value.flags.entry = false;
            let at_entry = self.from_entry(label, key)?;
            property.join(self.alloc, &at_entry)?;
        }
        Ok(property)
    }

    /// Demands what that reading takes from the entry.
    pub fn demand(&self, label: Label, key: Key, demands: &mut DemandList) -> Result<(), Memory>
        ensures { IfOk result (λ _. demands_in demands.new
            ≡ both (demands_in demands.old) (demands_of (view_of self.now).state label key)) }
    {
        if self.may_be_as_at_entry(label, key) {
            let origins = self.origins(label)?;
            demand_each(&origins, key, demands)?;
        }
        Ok(())
    }

    /// The join of those properties over some keys.
    pub fn own(&self, label: Label, keys: &[Key]) -> Result<AProp, Memory>
        ensures { IfOk result (λ q. property_of q ≡ own (view_of self.now) label keys.now) }
    {
        let mut sum = AProp::nothing(self.alloc);
        for key in keys {
            let property = self.resolved(label, *key)?;
            sum.join(self.alloc, &property)?;
        }
        Ok(sum)
    }

    /// Demands what that reading takes from the entry.
    pub fn demand_own(
        &self,
        label: Label,
        keys: &[Key],
        demands: &mut DemandList,
    ) -> Result<(), Memory>
        ensures { IfOk result (λ _. demands_in demands.new
            ≡ both (demands_in demands.old) (demands_of_own (view_of self.now) label keys.now)) }
    {
        for key in keys {
            self.demand(label, *key, demands)?;
        }
        Ok(())
    }
}
