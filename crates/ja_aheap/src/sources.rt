ghost use Rattle.std.specs.Prelude.{◌≡◌, ◌≤◌, ◌||◌, ◌==◌, ℕ, [], ◌∷◌, ◌++◌, IfOk, true, false, is_some, Some};
ghost use Rattle.std.specs.Option.{option_map, option_map_or};
ghost use Rattle.std.specs.Ordering.{nat_cmp};
ghost use Rattle.std.specs.BTreeMap.{get};
ghost use denote.Ref.{Bor};
ghost use Rattle.ja_abstract.specs.AbstractValue.{join_properties, entry_property, no_property};
ghost use Rattle.ja_abstract.specs.AbstractState.{exactly_none};
ghost use Rattle.ja_abstract.specs.Resolved.{renamed};
ghost use Rattle.ja_value.specs.Labels.{mask_in};
ghost use Rattle.ja_value.specs.Value.{labels_in, property_of};
ghost use Rattle.ja_aheap.specs.Objects.{at};
ghost use Rattle.ja_aheap.specs.code.Composed.{composed_property, property_list, AreAt, composed_by, composed_at, lists, HasMoved, IsKept};
ghost use Rattle.ja_aheap.specs.code.Masks.{NothingBeyond};

use crate::AObject;
use crate::maps::put;
use ja_abstract::Mask;
use ja_base::Memory;
use ja_value::{AProp, AValue, LabelSet, unknown_attrs};
use std::alloc::Global;
use std::collections::BTreeMap;
use std::rc::Rc;

/// Joins an earlier property, if there is one, to the rest, with the labels of now.
fn with_earlier(
    alloc: Global,
    property: Option<&AProp>,
    rest: AProp,
    masks: &BTreeMap<u64, Mask>,
) -> Result<AProp, Memory>
    ensures { IfOk result (λ q. property_of q
        ≡ option_map_or (λ (p : Bor _). join_properties (renamed (mask_in masks.now)
        (property_of p.now)) (property_of rest)) property.entry (property_of rest)) }
{
    match property {
        Some(property) => {
            let mut joined = property.renamed(alloc, masks)?;
            joined.join(alloc, &rest)?;
            Ok(joined)
        }
        None => Ok(rest),
    }
}

/// A property read through a later one: where the later one may be as at entry, the earlier ones
/// stand in the place of that, with the labels of now.
fn composed(
    alloc: Global,
    later: &AProp,
    first: Option<&AProp>,
    second: Option<&AProp>,
    masks: &BTreeMap<u64, Mask>,
) -> Result<AProp, Memory>
    ensures { IfOk result (λ q. property_of q ≡ composed_property (mask_in masks.now)
        (property_of later.now)
        (property_list property_of first.entry ++ property_list property_of second.entry)) }
{
    let mut known = later.copy(alloc)?;
    if !known.value.flags.entry {
        return Ok(known);
    }
    let nothing = AProp {
        value: AValue::empty(alloc),
        attrs: unknown_attrs(),
    };
    let rest = with_earlier(alloc, second, nothing, masks)?;
    let earlier = with_earlier(alloc, first, rest, masks)?;
    known.value.flags.entry = false;
    known.join(alloc, &earlier)?;
    Ok(known)
}

/// The property at the number of a key of an object that may be there.
fn property_at<'a>(object: Option<&'a AObject>, number: u64) -> Option<&'a AProp>
    ensures { property_list property_of result
        ≡ property_list (λ (o : _). at o number) object.entry }
{
    match object {
        Some(object) => Some(object.at(number)),
        None => None,
    }
}

/// The property common to all keys that an object doesn't list, if the object is there.
fn common_of<'a>(object: Option<&'a AObject>) -> Option<&'a AProp>
    ensures { property_list property_of result
        ≡ property_list (λ (o : _). property_of o.common) object.entry }
{
    match object {
        Some(object) => Some(&object.common),
        None => None,
    }
}

/// What the object of a label is composed of: the one of the later heap, those of the first heap
/// whose objects may have that label now, and the masks of the later heap.
#[derive(Clone, Copy)]
pub struct Sources<'a> {
    pub later: &'a AObject,
    pub first: Option<&'a AObject>,
    pub second: Option<&'a AObject>,
    pub masks: &'a BTreeMap<u64, Mask>,
}

impl<'a> Sources<'a> {
    /// The composed property at the number of a key.
    fn at(&self, alloc: Global, number: u64) -> Result<AProp, Memory>
        ensures { IfOk result (λ q. property_of q ≡ composed_at self.now number) }
    {
        composed(
            alloc,
            self.later.at(number),
            property_at(self.first, number),
            property_at(self.second, number),
            self.masks,
        )
    }

    /// The composed property of all keys that no object lists.
    fn common(&self, alloc: Global) -> Result<AProp, Memory>
        ensures { IfOk result (λ q. property_of q
            ≡ composed_by self.now (λ (o : _). property_of o.common)) }
    {
        composed(
            alloc,
            &self.later.common,
            common_of(self.first),
            common_of(self.second),
            self.masks,
        )
    }

    /// Lists the composed property at the number of a key, if it isn't listed yet.
    fn list_one(
        &self,
        alloc: Global,
        listed: &mut BTreeMap<u64, Rc<AProp>>,
        number: u64,
    ) -> Result<(), Memory>
        ensures right { IfOk result (λ _. AreAt (composed_at self.now) listed.old
            → AreAt (composed_at self.now) listed.new) }
        ensures listed { IfOk result (λ _. (q : ℕ) → is_some (get nat_cmp listed.new q)
            ≡ (number == q || is_some (get nat_cmp listed.old q))) }
    {
        if !listed.contains_key(&number) {
            let property = Rc::new(alloc, self.at(alloc, number)?)?;
            put(listed, number, property)?;
        }
        Ok(())
    }

    /// Lists the composed property at each key that an object lists.
    fn list(
        &self,
        alloc: Global,
        listed: &mut BTreeMap<u64, Rc<AProp>>,
        object: &AObject,
    ) -> Result<(), Memory>
        ensures right { IfOk result (λ _. AreAt (composed_at self.now) listed.old
            → AreAt (composed_at self.now) listed.new) }
        ensures listed { IfOk result (λ _. (q : ℕ) → is_some (get nat_cmp listed.new q)
            ≡ (is_some (get nat_cmp object.now.listed q) || is_some (get nat_cmp listed.old q))) }
    {
        for (number, _) in &object.listed {
            self.list_one(alloc, listed, *number)?;
        }
        Ok(())
    }

    /// .. that an object lists which may be there.
    fn list_if_there(
        &self,
        alloc: Global,
        listed: &mut BTreeMap<u64, Rc<AProp>>,
        object: Option<&AObject>,
    ) -> Result<(), Memory>
        ensures right { IfOk result (λ _. AreAt (composed_at self.now) listed.old
            → AreAt (composed_at self.now) listed.new) }
        ensures listed { IfOk result (λ _. (q : ℕ) → is_some (get nat_cmp listed.new q)
            ≡ (lists object.entry q || is_some (get nat_cmp listed.old q))) }
    {
        if let Some(object) = object {
            self.list(alloc, listed, object)?;
        }
        Ok(())
    }

    /// The composed object.
    pub fn object(&self, alloc: Global) -> Result<AObject, Memory>
        ensures { IfOk result (λ o. (q : ℕ) → at o q ≡ composed_at self.now q) }
    {
        let mut listed = BTreeMap::new(alloc);
        self.list(alloc, &mut listed, self.later)?;
        self.list_if_there(alloc, &mut listed, self.first)?;
        self.list_if_there(alloc, &mut listed, self.second)?;
        Ok(AObject {
            common: self.common(alloc)?,
            listed,
        })
    }

    /// Whether the first object stays as it is: each property of the later one is as at entry, no
    /// other object may have the label now, and no object that it names may have another one.
    pub fn is_kept(&self, sites: u32, names: u32, moved: &LabelSet) -> bool
        requires beyond { NothingBeyond sites (mask_in self.now.masks.now) }
        requires moved { HasMoved sites (mask_in self.now.masks.now) (labels_in moved.now) }
        ensures { result ≡ true → IsKept names self.now }
    {
        match (self.first, self.second) {
            (Some(first), None) => {
                self.later.is_as_at_entry(names) && !first.is_renamed(self.masks, sites, moved)
            }
            _ => false,
        }
    }
}
