//! Properties in order of insertion. Each stays in its slot, so that none is moved where another is
//! deleted.
ghost use Rattle.std.specs.Prelude.{◌≡◌, ◌<◌, ◌≤◌, ◌++◌, ◌∷◌, [], true, not, if◌then◌else◌};
ghost use Rattle.std.specs.Prelude.{Some, IfSome, OnOk, OnErr, is_some};
ghost use Rattle.std.specs.Prelude.{ℕ, ◌-◌, List, nat_eq, ◌||◌, length, take, find, filter, map};
ghost use Rattle.std.specs.Cmp.Lexicographic.{pointwise};
ghost use Rattle.std.specs.HashSet.{contains};
ghost use Rattle.std.specs.Option.{option_map};
ghost use Rattle.ja_prim.specs.Texts.{same_text};
ghost use Rattle.ja_machine.specs.declared.machine.Content.TheVariants as contents;
ghost use Rattle.ja_machine.specs.declared.machine.Property.{Property};
ghost use Rattle.ja_machine.specs.Enumeration.{is_enumerable};
ghost use Rattle.ja_machine.specs.Objects.{with_property};
ghost use Rattle.ja_machine.specs.Writes as spec;
ghost use Rattle.ja_machine.specs.code.Writes as code;
ghost use Rattle.ja_heap.specs.code.Slots as kept;

use ja_base::Memory;
use ja_graph::{Attrs, NO_ATTRS};
use ja_machine::{Content, Property, Value};
use ja_prim::{Text16, array_index};
use std::alloc::Global;
use std::collections::{HashMap, HashSet};
use std::marker::Model;

/// How many slots are looked through one after another. Where there are more, a table has the slot
/// of each name.
const FEW: usize = 8;

/// How many slots an object begins with. Most objects of a run have one or two properties.
const FIRST: usize = 2;

/// The properties of an object, in order of insertion. One that is deleted leaves its slot empty,
/// until more than half of the slots are. Contracts see the list of properties.
#[derive(Drop)]
pub(crate) struct Properties {
    slots: Vec<Option<Property>>,
    /// The slot of each name. Where there is none, the slots are looked through.
    places: Option<Box<HashMap<Text16, usize>>>,
}

impl Model for Properties {
    ghost use Rattle.std.specs.Prelude.{List};
    ghost use Rattle.ja_machine.specs.declared.machine.Property.{Property};
    ghost use Rattle.ja_heap.specs.code.Slots.{live, IsApart, IsPlaced};

    ghost Value = { List Property };

    ghost view = { λ p. live p.slots.items };

    ghost invariant = { λ p. IsApart p.slots.items × IsPlaced p.places p.slots.items };
}

/// Whether a slot has the property of a name.
fn has_name(slot: &Option<Property>, name: &Text16) -> bool
    ensures { result ≡ kept.has_name name.now slot.now }
{
    match slot {
        Some(property) => property.name == *name,
        None => false,
    }
}

/// The first slot that has the property of a name: the slots are looked through one after another.
fn looked_through(slots: &[Option<Property>], name: &Text16) -> Option<usize>
    ensures { result ≡ kept.slot_of name.now slots.now }
{
    for i in 0..slots.len() {
        if has_name(&slots[i], name) {
            return Some(i);
        }
    }
    None
}

/// The slot of a name.
fn slot_of(
    slots: &[Option<Property>],
    places: &Option<Box<HashMap<Text16, usize>>>,
    name: &Text16,
) -> Option<usize>
    requires { kept.IsPlaced places.now slots.now }
    ensures slot { result ≡ kept.slot_of name.now slots.now }
    ensures within { IfSome result (λ i. i < length slots.now) }
{
    match places {
        Some(table) => table.get(name).copied(),
        None => looked_through(slots, name),
    }
}

/// What is in a slot.
fn slot_at(slots: &[Option<Property>], i: usize) -> Option<&Property>
    ensures { option_map (λ q. q.now) result ≡ kept.slot_at slots.now i }
{
    match slots.get(i) {
        Some(Some(property)) => Some(property),
        _ => None,
    }
}

/// Puts a property into a slot behind the others. The first one makes room for one more.
fn push_slot(slots: &mut Vec<Option<Property>>, property: Property) -> Result<(), Memory>
    ensures pushed { OnOk result (slots.new.items ≡ slots.old.items ++ Some property ∷ []) }
    ensures kept { OnErr result (slots.new.items ≡ slots.old.items) }
{
    if slots.is_empty() {
        slots.reserve_exact(FIRST)?;
    }
    slots.push(Some(property))?;
    Ok(())
}

/// Sets the value of the property in a slot.
fn set_value(slot: &mut Option<Property>, v: Value)
    ensures { slot.new
        ≡ option_map (λ (q : Property). record q { content = contents.Value v }) slot.old }
{
    match slot {
        None => return,
        Some(property) => property.content = Content::Value(v),
    }
}

/// Sets the content and the attributes of the property in a slot.
fn define(slot: &mut Option<Property>, content: Content, attrs: Attrs)
    ensures { slot.new ≡ option_map
        (λ (q : Property). record q { content = content; attrs = attrs }) slot.old }
{
    match slot {
        None => return,
        Some(property) => {
            property.content = content;
            property.attrs = attrs;
        }
    }
}

/// Sets all but the name of the property in a slot.
fn put(slot: &mut Option<Property>, content: Content, attrs: Attrs, shared: bool)
    ensures { slot.new ≡ option_map
        (λ (q : Property). record q { content = content; attrs = attrs; shared = shared })
        slot.old }
{
    match slot {
        None => return,
        Some(property) => {
            property.content = content;
            property.attrs = attrs;
            property.shared = shared;
        }
    }
}

/// Shares the property in a slot from now on.
fn share(slot: &mut Option<Property>)
    ensures { slot.new ≡ option_map (λ (q : Property). record q { shared = true }) slot.old }
{
    match slot {
        None => return,
        Some(property) => property.shared = true,
    }
}

/// A table with the name that is in a slot as well. There is no table where memory is refused.
fn with_slot(
    mut table: Box<HashMap<Text16, usize>>,
    slot: &Option<Property>,
    i: usize,
) -> Option<Box<HashMap<Text16, usize>>>
    ensures { IfSome result (λ new. kept.HasSlot table.value new.value slot.now i) }
{
    let name = match slot {
        None => return Some(table),
        Some(property) => property.name.copy(),
    };
    match name {
        Err(_) => None,
        Ok(name) => match table.insert(name, i) {
            Ok(_) => Some(table),
            Err(_) => None,
        },
    }
}

/// Fills an empty table with the slot of each name. There is no table where memory is refused.
fn filled(
    mut table: Box<HashMap<Text16, usize>>,
    slots: &[Option<Property>],
) -> Option<Box<HashMap<Text16, usize>>>
    requires none { table.value.entries ≡ [] }
    requires apart { kept.IsApart slots.now }
    ensures { kept.IsPlaced result slots.now }
{
    for i in 0..slots.len() {
        match with_slot(table, &slots[i], i) {
            None => return None,
            Some(longer) => table = longer,
        }
    }
    Some(table)
}

/// The table with the name in the last slot as well, or a first table where the slots are no longer
/// few. There is no table where memory is refused.
fn with_last(
    alloc: Global,
    places: Option<Box<HashMap<Text16, usize>>>,
    slots: &[Option<Property>],
) -> Option<Box<HashMap<Text16, usize>>>
    requires some { 0 < length slots.now }
    requires apart { kept.IsApart slots.now }
    requires placed { kept.IsPlaced places (take (length slots.now - 1) slots.now) }
    ensures { kept.IsPlaced result slots.now }
{
    match places {
        Some(table) => {
            let last = slots.len() - 1;
            with_slot(table, &slots[last], last)
        }
        None => {
            if slots.len() <= FEW {
                return None;
            }
            match Box::new(alloc, HashMap::new(alloc)) {
                Ok(table) => filled(table, slots),
                Err(_) => None,
            }
        }
    }
}

/// The table of slots of which some were left out.
fn placed_anew(
    places: Option<Box<HashMap<Text16, usize>>>,
    slots: &[Option<Property>],
) -> Option<Box<HashMap<Text16, usize>>>
    requires apart { kept.IsApart slots.now }
    ensures { kept.IsPlaced result slots.now }
{
    match places {
        Some(mut table) => {
            table.clear();
            filled(table, slots)
        }
        None => None,
    }
}

/// The table without a name.
fn without_name(
    places: Option<Box<HashMap<Text16, usize>>>,
    name: &Text16,
) -> Option<Box<HashMap<Text16, usize>>>
    ensures { kept.IsWithout places name.now result }
{
    match places {
        Some(mut table) => {
            table.remove(name);
            Some(table)
        }
        None => None,
    }
}

/// How many slots are empty: those that no name of the table has, where there is one.
fn empty_slots(slots: &[Option<Property>], places: &Option<Box<HashMap<Text16, usize>>>) -> usize
    ensures { result ≤ length slots.now }
{
    match places {
        Some(table) => slots.len().saturating_sub(table.len()),
        None => slots.iter().filter(|slot| slot.is_none()).count(),
    }
}

/// Whether what is in a slot isn't an element from a new length of an array on, below the old one.
fn stays(new: u32, old: i64, slot: &Option<Property>) -> bool
    ensures { result ≡ kept.stays new old slot.now }
{
    match slot {
        Some(property) => match array_index(&property.name) {
            Some(index) => index < new || old <= i64::from(index),
            None => true,
        },
        None => false,
    }
}

/// Appends the name in a slot, if it is enumerable and not in a set.
fn push_shown(
    names: &mut Vec<Text16>,
    hidden: &HashSet<Text16>,
    slot: &Option<Property>,
) -> Result<(), Memory>
    ensures { OnOk result (names.new.items ≡ names.old.items
        ++ kept.shown (λ name. not (contains (pointwise nat_eq) hidden.now name)) (slot.now ∷ [])) }
{
    if let Some(property) = slot {
        if !property.attrs.dont_enum && !hidden.contains(&property.name) {
            names.push(property.name.copy()?)?;
            return Ok(());
        }
    }
    Ok(())
}

/// Adds the name in a slot to a set.
fn add_name(names: &mut HashSet<Text16>, slot: &Option<Property>) -> Result<(), Memory>
    ensures { OnOk result ((name : List ℕ) → contains (pointwise nat_eq) names.new name
        ≡ (contains (pointwise nat_eq) names.old name || kept.has_name name slot.now)) }
{
    if let Some(property) = slot {
        names.insert(property.name.copy()?)?;
        return Ok(());
    }
    Ok(())
}

impl Properties {
    /// No properties.
    pub(crate) fn new(alloc: Global) -> Properties
        ensures { result ≡ [] }
    {
        Properties {
            slots: Vec::new(alloc),
            places: None,
        }
    }

    /// The property of a name.
    pub(crate) fn get(&self, name: &Text16) -> Option<&Property>
        ensures { option_map (λ q. q.now) result
            ≡ find (λ (q : Property). same_text q.name name.now) self.now }
    {
        match slot_of(self.slots.as_slice(), &self.places, name) {
            Some(i) => slot_at(self.slots.as_slice(), i),
            None => None,
        }
    }

    /// Puts a property behind the others, of which none has its name. After `Memory` the properties
    /// are as they were.
    fn push(&mut self, alloc: Global, property: Property) -> Result<(), Memory>
        requires { find (λ (q : Property). same_text q.name property.name) self.old ≡ None }
        ensures pushed { OnOk result (self.new ≡ self.old ++ property ∷ []) }
        ensures kept { OnErr result (self.new ≡ self.old) }
    {
        push_slot(&mut self.slots, property)?;
        let places = self.places.take();
        self.places = with_last(alloc, places, self.slots.as_slice());
        Ok(())
    }

    /// Sets the value of a property: its attributes stay, and a new property comes last and has
    /// none. After `Memory` the properties are as they were.
    pub(crate) fn set_value(&mut self, alloc: Global, name: &Text16, v: Value) -> Result<(), Memory>
        ensures written { OnOk result (self.new ≡ spec.with_value self.old name.now v) }
        ensures kept { OnErr result (self.new ≡ self.old) }
    {
        match slot_of(self.slots.as_slice(), &self.places, name) {
            Some(i) => {
                set_value(&mut self.slots[i], v);
                Ok(())
            }
            None => {
                let name = name.copy()?;
                self.push(
                    alloc,
                    Property {
                        name,
                        content: Content::Value(v),
                        attrs: NO_ATTRS,
                        shared: false,
                    },
                )
            }
        }
    }

    /// Sets the value of a property that is there: its attributes stay. It takes no memory.
    pub(crate) fn replace_value(&mut self, name: &Text16, v: Value)
        ensures { self.new
            ≡ (if is_some (find (λ (q : Property). same_text q.name name.now) self.old)
            then spec.with_value self.old name.now v
            else self.old) }
    {
        match slot_of(self.slots.as_slice(), &self.places, name) {
            None => return,
            Some(i) => set_value(&mut self.slots[i], v),
        }
    }

    /// Sets the content and the attributes of a property, which comes last where it is new. After
    /// `Memory` the properties are as they were.
    pub(crate) fn define(
        &mut self,
        alloc: Global,
        name: &Text16,
        content: Content,
        attrs: Attrs,
    ) -> Result<(), Memory>
        ensures defined { OnOk result (self.new
            ≡ spec.with_definition self.old name.now content attrs) }
        ensures kept { OnErr result (self.new ≡ self.old) }
    {
        match slot_of(self.slots.as_slice(), &self.places, name) {
            Some(i) => {
                define(&mut self.slots[i], content, attrs);
                Ok(())
            }
            None => {
                let name = name.copy()?;
                self.push(
                    alloc,
                    Property {
                        name,
                        content,
                        attrs,
                        shared: false,
                    },
                )
            }
        }
    }

    /// Puts a property in place of the one of its name, or behind the others. After `Memory` the
    /// properties are as they were.
    pub(crate) fn put(
        &mut self,
        alloc: Global,
        name: &Text16,
        content: Content,
        attrs: Attrs,
        shared: bool,
    ) -> Result<(), Memory>
        ensures put { OnOk result (self.new ≡ with_property self.old
            (record { name = name.now; content = content; attrs = attrs; shared = shared })) }
        ensures kept { OnErr result (self.new ≡ self.old) }
    {
        match slot_of(self.slots.as_slice(), &self.places, name) {
            Some(i) => {
                put(&mut self.slots[i], content, attrs, shared);
                Ok(())
            }
            None => {
                let name = name.copy()?;
                self.push(
                    alloc,
                    Property {
                        name,
                        content,
                        attrs,
                        shared,
                    },
                )
            }
        }
    }

    /// Removes a property, if it is there.
    pub(crate) fn remove(&mut self, name: &Text16)
        ensures { self.new ≡ spec.without self.old name.now }
    {
        match slot_of(self.slots.as_slice(), &self.places, name) {
            None => return,
            Some(i) => {
                self.slots[i] = None;
                let places = self.places.take();
                self.places = without_name(places, name);
                let empty = empty_slots(self.slots.as_slice(), &self.places);
                if empty > self.slots.len() / 2 {
                    self.close_gaps();
                }
            }
        }
    }

    /// Leaves out the slots that are empty.
    fn close_gaps(&mut self)
        ensures { self.new ≡ self.old }
    {
        self.slots.retain(
            |slot: &Option<Property>| -> bool
                ensures { result ≡ is_some slot.now }
            { slot.is_some() },
        );
        let places = self.places.take();
        self.places = placed_anew(places, self.slots.as_slice());
    }

    /// Shares a property from now on, if it is there.
    pub(crate) fn share(&mut self, name: &Text16)
        ensures { self.new ≡ map (code.shared_from_now name.now) self.old }
    {
        match slot_of(self.slots.as_slice(), &self.places, name) {
            None => return,
            Some(i) => share(&mut self.slots[i]),
        }
    }

    /// Removes the elements from a new length of an array on, below the old one (ES3 15.4.5.1).
    pub(crate) fn cut(&mut self, new: u32, old: i64)
        ensures { self.new
            ≡ filter (λ (q : Property). not (spec.is_cut new (Some old) q)) self.old }
    {
        self.slots.retain(
            |slot: &Option<Property>| -> bool
                ensures { result ≡ kept.stays new old slot.now }
            { stays(new, old, slot) },
        );
        let places = self.places.take();
        self.places = placed_anew(places, self.slots.as_slice());
    }

    /// Appends the names that are enumerable, but those of a set.
    pub(crate) fn push_shown(
        &self,
        names: &mut Vec<Text16>,
        hidden: &HashSet<Text16>,
    ) -> Result<(), Memory>
        ensures { OnOk result (names.new.items ≡ names.old.items
            ++ filter (λ name. not (contains (pointwise nat_eq) hidden.now name))
            (map (λ (q : Property). q.name) (filter is_enumerable self.now))) }
    {
        for i in 0..self.slots.len() {
            push_shown(names, hidden, &self.slots[i])?;
        }
        Ok(())
    }

    /// Adds all names to a set.
    pub(crate) fn add_names(&self, names: &mut HashSet<Text16>) -> Result<(), Memory>
        ensures { OnOk result ((name : List ℕ) → contains (pointwise nat_eq) names.new name
            ≡ (contains (pointwise nat_eq) names.old name
            || is_some (find (λ (q : Property). same_text q.name name) self.now))) }
    {
        for i in 0..self.slots.len() {
            add_name(names, &self.slots[i])?;
        }
        Ok(())
    }
}
