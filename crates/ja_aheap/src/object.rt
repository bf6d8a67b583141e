ghost use Rattle.std.specs.Prelude.{◌≡◌, ◌≢◌, ◌⊎◌, ◌↔◌, ◌<◌, ◌≤◌, ◌+◌, ℕ, IfOk, IfSome, OnErr, IsSome, IsTrue, true, false, if◌then◌else◌, None};
ghost use Rattle.std.specs.Option.{option_map};
ghost use Rattle.std.specs.Ordering.{nat_cmp};
ghost use Rattle.std.specs.BTreeMap.{get};
ghost use Rattle.ja_abstract.specs.declared.abstraction.Key.{Key};
ghost use Rattle.ja_abstract.specs.AbstractValue.{absent_property, entry_property, join_properties};
ghost use Rattle.ja_abstract.specs.AbstractState.{new, same_key, aged_property};
ghost use Rattle.ja_abstract.specs.Order.{LeqProperty};
ghost use Rattle.ja_value.specs.Value.{property_of};
ghost use Rattle.ja_trie.specs.Join.{kept_or};
ghost use Rattle.ja_aheap.specs.code.Own.{own_below, join_owns, LeqOwn};

use crate::keys::key_number;
use crate::maps::{all_beside, all_listed, fill, put};
use crate::properties::{aged_shared, has_entry, has_new_label, is_entry, joined, joined_shared};
use ja_abstract::Key;
use ja_base::{Memory, Site};
use ja_value::AProp;
use std::alloc::Global;
use std::collections::BTreeMap;
use std::rc::Rc;

/// The properties of an abstract object by key: those that are listed, and one common to all other
/// keys. Objects share the listed ones that they have in common.
#[derive(Drop)]
pub struct AObject {
    pub common: AProp,
    pub(crate) listed: BTreeMap<u64, Rc<AProp>>,
}

impl AObject {
    ghost use Rattle.ja_aheap.specs.Objects.{object_of, at};

    /// Each property is exactly as at entry.
    pub fn entry(alloc: Global) -> AObject
        ensures { object_of result ≡ (λ k. entry_property) }
    {
        AObject {
            common: AProp::entry(alloc),
            listed: BTreeMap::new(alloc),
        }
    }

    /// Each property is exactly absent.
    pub fn absent(alloc: Global) -> AObject
        ensures { object_of result ≡ (λ k. absent_property) }
    {
        AObject {
            common: AProp::absent(alloc),
            listed: BTreeMap::new(alloc),
        }
    }

    /// The property at a key.
    pub fn read(&self, key: Key) -> &AProp
        ensures { property_of result.now ≡ object_of self.now key }
    {
        self.at(key_number(key))
    }

    /// The property at the number of a key.
    pub(crate) fn at(&self, number: u64) -> &AProp
        ensures { property_of result.now ≡ at self.now number }
    {
        match self.listed.get(&number) {
            Some(property) => property,
            None => &self.common,
        }
    }

    /// Replaces the property at a key. After `Memory` the object is as it was.
    pub fn write(&mut self, alloc: Global, key: Key, property: AProp) -> Result<(), Memory>
        ensures kept { OnErr result (object_of self.new ≡ object_of self.old) }
        ensures written { IfOk result (λ _. object_of self.new
            ≡ (λ k. if same_key key k then property_of property else object_of self.old k)) }
    {
        let property = Rc::new(alloc, property)?;
        put(&mut self.listed, key_number(key), property)?;
        Ok(())
    }

    /// The same object once more, which shares the listed properties.
    pub fn copy(&self, alloc: Global) -> Result<AObject, Memory>
        ensures { IfOk result (λ o. object_of o ≡ object_of self.now) }
    {
        Ok(AObject {
            common: self.common.copy(alloc)?,
            listed: self.listed.clone()?,
        })
    }

    /// Whether another object has each part of this one at the numbers below an end that this one
    /// lists.
    fn leq_at_listed(&self, end: u64, other: &AObject) -> bool
        ensures { IsTrue result ↔ ((q : ℕ) → IsSome (get nat_cmp self.now.listed q)
            → q < end → LeqProperty (at self.now q) (at other.now q)) }
    {
        all_listed(&self.listed, |number: u64, property: &Rc<AProp>| {
            number >= end || property.leq(other.at(number))
        })
    }

    /// Whether another object has each part of this one at the numbers below an end that the other
    /// lists.
    fn leq_at_listed_of(&self, end: u64, other: &AObject) -> bool
        ensures { IsTrue result ↔ ((q : ℕ) → IsSome (get nat_cmp other.now.listed q)
            → q < end → LeqProperty (at self.now q) (at other.now q)) }
    {
        let plain = self.is_plain();
        all_listed(&other.listed, |number: u64, property: &Rc<AProp>| {
            number >= end
                || if plain {
                    has_entry(property)
                } else {
                    self.at(number).leq(property)
                }
        })
    }

    /// Whether this object and another list the same numbers, and the other has each part of this
    /// one at those. It goes over the two lists once, and says nothing where it answers false.
    fn leq_beside(&self, other: &AObject) -> bool
        ensures { result ≡ true → (q : ℕ) → IsSome (get nat_cmp self.now.listed q)
            ⊎ IsSome (get nat_cmp other.now.listed q)
            → LeqProperty (at self.now q) (at other.now q) }
    {
        all_beside(
            &self.listed,
            &other.listed,
            |property: &Rc<AProp>, its: &Rc<AProp>| { property.leq(its) },
        )
    }

    /// Whether another object has each part of this one at the numbers below an end that one of
    /// the two lists.
    fn leq_at_all_listed(&self, end: u64, other: &AObject) -> bool
        ensures { IsTrue result ↔ ((q : ℕ) → IsSome (get nat_cmp self.now.listed q)
            ⊎ IsSome (get nat_cmp other.now.listed q) → q < end
            → LeqProperty (at self.now q) (at other.now q)) }
    {
        self.leq_beside(other)
            || (self.leq_at_listed(end, other) && self.leq_at_listed_of(end, other))
    }

    /// Whether this object or another lists each number below an end.
    fn lists_all(&self, end: u64, other: &AObject) -> bool
        ensures { IsTrue result ↔ ((q : ℕ) → get nat_cmp self.now.listed q ≡ None
            → get nat_cmp other.now.listed q ≡ None → end ≤ q) }
    {
        for number in 0..end {
            if !self.listed.contains_key(&number) && !other.listed.contains_key(&number) {
                return false;
            }
        }
        true
    }

    /// Whether another object has each part of this one at the numbers below an end that neither
    /// lists.
    fn leq_at_others(&self, end: u64, other: &AObject) -> bool
        ensures { IsTrue result ↔ ((q : ℕ) → get nat_cmp self.now.listed q ≡ None
            → get nat_cmp other.now.listed q ≡ None → q < end
            → LeqProperty (property_of self.now.common) (property_of other.now.common)) }
    {
        self.common.leq(&other.common) || self.lists_all(end, other)
    }

    /// Whether none is listed, and the common one is exactly as at entry.
    fn is_plain(&self) -> bool
        ensures { result ≡ true → (q : ℕ) → at self.now q ≡ entry_property }
    {
        self.listed.is_empty() && is_entry(&self.common)
    }

    /// Whether another object has each part of this one, at the keys of the first names.
    pub fn leq(&self, names: u32, other: &AObject) -> bool
        ensures { IsTrue result ↔ LeqOwn (own_below names self.now) (own_below names other.now) }
    {
        if self.is_plain() && other.is_plain() {
            return true;
        }
        let end = 6 + u64::from(names);
        self.leq_at_all_listed(end, other) && self.leq_at_others(end, other)
    }

    /// This object with another one joined in, or `None` where that changes nothing at the keys of
    /// the first names; nothing is built then.
    pub fn joined(
        &self,
        alloc: Global,
        names: u32,
        other: &AObject,
    ) -> Result<Option<AObject>, Memory>
        ensures joined { IfOk result (λ o. own_below names (kept_or self.now o)
            ≡ join_owns (own_below names self.now) (own_below names other.now)) }
        ensures changed { IfOk result (λ o.
            IfSome o (λ new. own_below names new ≢ own_below names self.now)) }
    {
        if other.leq(names, self) {
            return Ok(None);
        }
        let mut listed = BTreeMap::new(alloc);
        fill(
            &mut listed,
            &self.listed,
            |number: u64, property: &Rc<AProp>| {
                joined_shared(alloc, property, other.at(number))
            },
        )?;
        fill(
            &mut listed,
            &other.listed,
            |number: u64, property: &Rc<AProp>| { joined_shared(alloc, property, self.at(number)) },
        )?;
        let common = joined(alloc, &self.common, &other.common)?;
        Ok(Some(AObject { common, listed }))
    }

    /// Whether some property may be the new label of a site.
    fn mentions(&self, site: Site) -> bool
        ensures { result ≡ false → (q : ℕ) → (at self.now q).value.label (new site) ≡ false }
    {
        has_new_label(&self.common, site)
            || !all_listed(&self.listed, |_number: u64, property: &Rc<AProp>| {
                !has_new_label(property, site)
            })
    }

    /// The object after an object more was made at a site, or `None` where that changes nothing:
    /// no property may be the new label of the site.
    pub fn aged(&self, alloc: Global, site: Site) -> Result<Option<AObject>, Memory>
        ensures { IfOk result (λ o. object_of (kept_or self.now o)
            ≡ (λ k. aged_property site (object_of self.now k))) }
    {
        if !self.mentions(site) {
            return Ok(None);
        }
        let mut listed = BTreeMap::new(alloc);
        fill(
            &mut listed,
            &self.listed,
            |_number: u64, property: &Rc<AProp>| { aged_shared(alloc, property, site) },
        )?;
        let common = self.common.aged(alloc, site)?;
        Ok(Some(AObject { common, listed }))
    }

    /// Whether each property that is listed at a number below an end is exactly as at entry.
    fn lists_entries(&self, end: u64) -> bool
        ensures { IsTrue result ↔ ((q : ℕ) → IsSome (get nat_cmp self.now.listed q)
            → q < end → at self.now q ≡ entry_property) }
    {
        all_listed(&self.listed, |number: u64, property: &Rc<AProp>| {
            number >= end || is_entry(property)
        })
    }

    /// Whether each property is exactly as at entry, at the keys of the first names.
    pub fn is_as_at_entry(&self, names: u32) -> bool
        ensures { IsTrue result ↔ ((k : Key) → own_below names self.now k ≡ entry_property) }
    {
        if self.is_plain() {
            return true;
        }
        let end = 6 + u64::from(names);
        self.lists_entries(end) && (is_entry(&self.common) || self.lists_all(end, self))
    }
}
