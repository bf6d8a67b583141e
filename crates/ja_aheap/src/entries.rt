ghost use Rattle.std.specs.Prelude.{◌≡◌, ◌≢◌, ◌==◌, ◌&&◌, ◌+◌, ◌-◌, ◌*◌, ℕ, nat_lt, nat_le, [], ◌∷◌, ◌++◌, map, filter, IfOk, OnErr, IsSome, Option, Some, None, true, false, if◌then◌else◌, unwrap_or};
ghost use Rattle.std.specs.Option.{option_map};
ghost use Rattle.std.specs.Ordering.{nat_cmp};
ghost use Rattle.std.specs.BTreeMap.{get};
ghost use Rattle.ja_abstract.specs.AbstractValue.{same_label, no_property};
ghost use Rattle.ja_abstract.specs.AbstractState.{same_key, labels_below, keys_below, name_key};
ghost use Rattle.ja_value.specs.Labels.{label_at};
ghost use Rattle.ja_value.specs.Value.{property_of};
ghost use Rattle.ja_aheap.specs.Numbers.{property_in, entry_in, is_demanded, keys_in};

use crate::keys::{key_number, label_among};
use crate::maps::{exchange, fill, put};
use ja_abstract::{Key, Slot};
use ja_base::{Label, Memory, NameId};
use ja_value::{AProp, AValue, label_number, unknown_attrs};
use std::alloc::Global;
use std::collections::BTreeMap;

/// The values at entry that were demanded, by label and key.
#[derive(Drop)]
pub struct DemandedEntries {
    objects: BTreeMap<u64, BTreeMap<u64, AProp>>,
}

impl DemandedEntries {
    ghost use Rattle.ja_aheap.specs.Entries.{entries_of, IsEntryAt, pairs_of};

    /// Nothing is demanded.
    pub fn new(alloc: Global) -> DemandedEntries
        ensures { entries_of result ≡ (λ l k. None) }
    {
        DemandedEntries {
            objects: BTreeMap::new(alloc),
        }
    }

    /// The value of a pair, or `None` where it was not demanded.
    pub fn get(&self, label: Label, key: Key) -> Option<&AProp>
        ensures { IsEntryAt self.now label key result }
    {
        match self.objects.get(&label_number(label)) {
            Some(properties) => properties.get(&key_number(key)),
            None => None,
        }
    }

    /// Demands a pair, which has no value yet if it wasn't demanded before, and tells whether it
    /// wasn't. After `Memory` the entries are as they were.
    pub fn demand(&mut self, alloc: Global, label: Label, key: Key) -> Result<bool, Memory>
        ensures demanded { IfOk result (λ _. entries_of self.new
            ≡ (λ l k. if same_label label l && same_key key k
            then Some (unwrap_or (entries_of self.old l k) no_property)
            else entries_of self.old l k)) }
        ensures changed { IfOk result (λ c. c ≡ true → entries_of self.new ≢ entries_of self.old) }
        ensures same { IfOk result (λ c. c ≡ false → entries_of self.new ≡ entries_of self.old) }
        ensures kept { OnErr result (entries_of self.new ≡ entries_of self.old) }
    {
        let number = label_number(label);
        let mut properties = take_out(&mut self.objects, alloc, number)?;
        let changed = demand_key(&mut properties, alloc, key_number(key));
        exchange(&mut self.objects, number, properties);
        changed
    }

    /// Sets the value of a pair, which is demanded then. After `Memory` the
    /// entries are as they were.
    pub fn set(
        &mut self,
        alloc: Global,
        label: Label,
        key: Key,
        property: AProp,
    ) -> Result<(), Memory>
        ensures set { IfOk result (λ _. entries_of self.new
            ≡ (λ l k. if same_label label l && same_key key k then Some (property_of property)
            else entries_of self.old l k)) }
        ensures kept { OnErr result (entries_of self.new ≡ entries_of self.old) }
    {
        let number = label_number(label);
        let mut properties = take_out(&mut self.objects, alloc, number)?;
        let set = set_key(&mut properties, key_number(key), property);
        exchange(&mut self.objects, number, properties);
        set
    }

    /// The same entries once more.
    pub fn copy(&self, alloc: Global) -> Result<DemandedEntries, Memory>
        ensures { IfOk result (λ e. entries_of e ≡ entries_of self.now) }
    {
        let mut objects = BTreeMap::new(alloc);
        fill(
            &mut objects,
            &self.objects,
            |_number: u64, properties: &BTreeMap<u64, AProp>| copy_properties(alloc, properties),
        )?;
        Ok(DemandedEntries { objects })
    }

    /// The pairs that were demanded of the first `sites` sites and the first `names` names, by
    /// label and key.
    pub fn pairs(&self, alloc: Global, sites: u32, names: u32) -> Result<Vec<(Label, Key)>, Memory>
        ensures { IfOk result (λ v. v.items ≡ pairs_of (entries_of self.now) (labels_below sites)
            (keys_below names)) }
    {
        let mut pairs = Vec::new(alloc);
        for (number, properties) in &self.objects {
            push_label(&mut pairs, alloc, *number, properties, sites, names)?;
        }
        Ok(pairs)
    }
}

/// The same properties once more.
fn copy_properties(
    alloc: Global,
    listed: &BTreeMap<u64, AProp>,
) -> Result<BTreeMap<u64, AProp>, Memory>
    ensures { IfOk result (λ m. (q : ℕ) → option_map property_of (get nat_cmp m q)
        ≡ option_map property_of (get nat_cmp listed.now q)) }
{
    let mut copies = BTreeMap::new(alloc);
    fill(
        &mut copies,
        listed,
        |_number: u64, property: &AProp| property.copy(alloc),
    )?;
    Ok(copies)
}

/// Takes out the demanded properties at the number of a label, and leaves some in their place.
/// After `Memory` the entries are as they were.
fn take_out(
    objects: &mut BTreeMap<u64, BTreeMap<u64, AProp>>,
    alloc: Global,
    number: u64,
) -> Result<BTreeMap<u64, AProp>, Memory>
    ensures taken { IfOk result (λ m. (q : ℕ) → property_in m q ≡ entry_in objects.old number q) }
    ensures place { IfOk result (λ _. IsSome (get nat_cmp objects.new number)) }
    ensures others { IfOk result (λ _. (q : ℕ) → (number == q) ≡ false
        → get nat_cmp objects.new q ≡ get nat_cmp objects.old q) }
    ensures kept { OnErr result ((p q : ℕ) → entry_in objects.new p q ≡ entry_in objects.old p q) }
{
    if objects.contains_key(&number) {
        return Ok(exchange(objects, number, BTreeMap::new(alloc)));
    }
    put(objects, number, BTreeMap::new(alloc))?;
    Ok(BTreeMap::new(alloc))
}

/// Demands the number of a key, and tells whether it wasn't demanded. After `Memory` the properties
/// are as they were.
fn demand_key(
    properties: &mut BTreeMap<u64, AProp>,
    alloc: Global,
    number: u64,
) -> Result<bool, Memory>
    ensures demanded { IfOk result (λ _. (q : ℕ)
        → property_in properties.new q ≡ (if number == q
        then Some (unwrap_or (property_in properties.old q) no_property)
        else property_in properties.old q)) }
    ensures changed { IfOk result (λ c. c ≡ true
        → property_in properties.new number ≢ property_in properties.old number) }
    ensures same { IfOk result (λ c. c ≡ false
        → property_in properties.new number ≡ property_in properties.old number) }
    ensures kept { OnErr result ((q : ℕ) → property_in properties.new q
        ≡ property_in properties.old q) }
{
    if properties.contains_key(&number) {
        return Ok(false);
    }
    let property = AProp {
        value: AValue::empty(alloc),
        attrs: unknown_attrs(),
    };
    put(properties, number, property)?;
    Ok(true)
}

/// Sets the property at the number of a key. After `Memory` the properties are as they were.
fn set_key(
    properties: &mut BTreeMap<u64, AProp>,
    number: u64,
    property: AProp,
) -> Result<(), Memory>
    ensures set { IfOk result (λ _. (q : ℕ)
        → property_in properties.new q ≡ (if number == q then Some (property_of property)
        else property_in properties.old q)) }
    ensures kept { OnErr result ((q : ℕ) → property_in properties.new q
        ≡ property_in properties.old q) }
{
    put(properties, number, property)?;
    Ok(())
}

/// Adds the demanded pairs of the label of a number, if it is of the first sites.
fn push_label(
    pairs: &mut Vec<(Label, Key)>,
    alloc: Global,
    number: u64,
    properties: &BTreeMap<u64, AProp>,
    sites: u32,
    names: u32,
) -> Result<(), Memory>
    ensures { IfOk result (λ _. pairs.new.items ≡ pairs.old.items
        ++ (if nat_lt number (2 * sites) then map (λ k. (label_at number, k))
        (keys_in properties.now names) else [])) }
{
    if let Some(label) = label_among(number, sites) {
        let keys = demanded_keys(alloc, properties, names)?;
        push_pairs(pairs, label, &keys)?;
    }
    Ok(())
}

/// Adds the pairs of a label with keys.
fn push_pairs(pairs: &mut Vec<(Label, Key)>, label: Label, keys: &[Key]) -> Result<(), Memory>
    ensures { IfOk result (λ _. pairs.new.items ≡ pairs.old.items
        ++ map (λ k. (label, k)) keys.now) }
{
    for key in keys {
        pairs.push((label, *key))?;
    }
    Ok(())
}

/// The keys of the first names that are demanded, in order.
fn demanded_keys(
    alloc: Global,
    properties: &BTreeMap<u64, AProp>,
    names: u32,
) -> Result<Vec<Key>, Memory>
    ensures { IfOk result (λ v. v.items ≡ keys_in properties.now names) }
{
    let mut keys = Vec::new(alloc);
    for (number, _) in properties {
        push_name(&mut keys, *number, names)?;
    }
    let others = [
        Key::OtherIndex,
        Key::OtherName,
        Key::Slot(Slot::Prototype),
        Key::Slot(Slot::Outer),
        Key::Slot(Slot::Scope),
        Key::Slot(Slot::Value),
    ];
    push_keys(&mut keys, properties, &others)?;
    Ok(keys)
}

/// Adds the key of a number, if it is of the first names.
fn push_name(keys: &mut Vec<Key>, number: u64, names: u32) -> Result<(), Memory>
    ensures { IfOk result (λ _. keys.new.items ≡ keys.old.items
        ++ (if nat_le 6 number && nat_lt number (6 + names) then name_key (number - 6) ∷ []
        else [])) }
{
    if 6 <= number && number < 6 + u64::from(names) {
        keys.push(Key::Name(NameId((number - 6) as u32)))?;
    }
    Ok(())
}

/// Adds those keys that are demanded.
fn push_keys(
    keys: &mut Vec<Key>,
    properties: &BTreeMap<u64, AProp>,
    others: &[Key],
) -> Result<(), Memory>
    ensures { IfOk result (λ _. keys.new.items ≡ keys.old.items
        ++ filter (is_demanded properties.now) others.now) }
{
    for key in others {
        push_key(keys, properties, *key)?;
    }
    Ok(())
}

/// Adds a key if it is demanded.
fn push_key(keys: &mut Vec<Key>, properties: &BTreeMap<u64, AProp>, key: Key) -> Result<(), Memory>
    ensures { IfOk result (λ _. keys.new.items ≡ keys.old.items
        ++ (if is_demanded properties.now key then key ∷ [] else [])) }
{
    if properties.contains_key(&key_number(key)) {
        keys.push(key)?;
    }
    Ok(())
}
