//! The properties of states, object by object.

ghost use Rattle.std.specs.Prelude.{◌≡◌, ◌<◌, ◌++◌, [], ◌∷◌, All, IfOk, IsTrue, MatchOption, map};
ghost use Rattle.std.specs.List.{AllByRecursion};
ghost use Rattle.ja_abstract.specs.AbstractValue.{absent_property};
ghost use Rattle.ja_abstract.specs.Writes.{strong_update};
ghost use Rattle.ja_aheap.specs.Heap.{has_key, has_label, heap_of, with_own_in};
ghost use Rattle.ja_aheap.specs.Objects.{listed_of, own_in, write_of, writes_of};
ghost use Rattle.ja_aheap.specs.declared.writes.Write.{Write as Kept};
ghost use Rattle.ja_value.specs.Value.{property_of};
ghost use Rattle.ja_astate.specs.State.{state_of, HaveOneShape};
ghost use Rattle.ja_cert_read.specs.code.Building.{number_at, property_in, setting, with_properties, AreApart, AreTaken, IsPlaced, IsWhole, LeavesOut};

use crate::starts::same_label;
use ja_aheap::{AHeap, Made, Write, Writes, key_number};
use ja_astate::AState;
use ja_base::{Label, Memory};
use ja_cert_parts::PropertyAt;
use ja_trie::Steps;
use ja_value::AProp;
use std::alloc::Global;
use std::marker::Brand;
use std::sync::ledger::{Blank, Ledger};

// ---- what differs

/// Whether two properties are the same.
fn is_same(property: &AProp, other: &AProp) -> bool
    ensures { IsTrue result → property_of property.now ≡ property_of other.now }
{
    property.leq(other) && other.leq(property)
}

/// Whether a state is told to have a property already.
fn has_property(state: &AState, listed: &PropertyAt) -> bool
    ensures { IsTrue result
        → (state_of state.now).property listed.now.label listed.now.key ≡ property_in listed.now }
{
    match state.heap.property(listed.label, listed.key) {
        Some(property) => is_same(property, &listed.property),
        None => false,
    }
}

/// The properties that are to be set in a state, of which no two are of one label and key, without
/// those that it has already.
fn changing(alloc: Global, state: &AState, heap: Vec<PropertyAt>) -> Result<Vec<PropertyAt>, Memory>
    requires placed { AllByRecursion (IsPlaced (heap_of state.now.heap).sites
        (heap_of state.now.heap).names) heap.items }
    requires apart { AreApart heap.items }
    ensures same { IfOk result (λ left. with_properties left.items (state_of state.now)
        ≡ with_properties heap.items (state_of state.now)) }
    ensures placed { IfOk result (λ left. AllByRecursion (IsPlaced (heap_of state.now.heap).sites
        (heap_of state.now.heap).names) left.items) }
{
    let mut left = Vec::new(alloc);
    for listed in heap {
        if !has_property(state, &listed) {
            left.push(listed)?;
        }
    }
    Ok(left)
}

// ---- the properties of one label

/// Takes the last property out of a list, if it is of this label.
fn pop_of(heap: &mut Vec<PropertyAt>, label: Label) -> Option<PropertyAt>
    ensures { MatchOption result (heap.new.items ≡ heap.old.items)
        (λ x. (heap.old.items ≡ heap.new.items ++ x ∷ []) × (x.label ≡ label)) }
{
    match heap.last() {
        Some(last) if same_label(last.label, label) => heap.pop(),
        _ => None,
    }
}

/// The write that sets a property.
fn setting(listed: PropertyAt) -> Write
    ensures { write_of result ≡ setting listed }
{
    Write {
        key: listed.key,
        property: listed.property,
        joins: false,
    }
}

/// Takes the properties of the label of the last one out of a list, of which that one is taken
/// already, as writes.
fn take_object(
    alloc: Global,
    heap: &mut Vec<PropertyAt>,
    last: PropertyAt,
) -> Result<Writes, Memory>
    ensures { IfOk result (λ w. AreTaken (heap.old.items ++ last ∷ []) heap.new.items last.label
        w.list.items) }
{
    let label = last.label;
    let mut list = Vec::new(alloc);
    let first = setting(last);
    list.push(first)?;
    while let Some(listed) = pop_of(heap, label) {
        let write = setting(listed);
        list.push(write)?;
    }
    list.reverse();
    Ok(Writes { list })
}

// ---- objects of which each key is listed

/// The number of the key at a place in the order of keys, in a program with so many names.
fn number_at(place: u64, names: u32) -> u64
    ensures { result ≡ number_at names place }
{
    let names = u64::from(names);
    if place < names {
        6 + place
    } else if place < names + 2 {
        4 + (place - names)
    } else {
        place - names - 2
    }
}

/// Whether writes set each key of a program with so many names, in their order.
fn is_whole(writes: &[Write], names: u32) -> bool
    ensures { IsTrue result → IsWhole names 0 (map write_of writes.now) }
{
    if writes.len() as u64 != u64::from(names) + 6 {
        return false;
    }
    for place in 0..writes.len() {
        let write = &writes[place];
        if write.joins || key_number(write.key) != number_at(place as u64, names) {
            return false;
        }
    }
    true
}

/// Whether a property is exactly absent.
fn is_absent(alloc: Global, property: &AProp) -> bool
    ensures { IsTrue result → property_of property.now ≡ absent_property }
{
    is_same(property, &AProp::absent(alloc))
}

/// What is written, without what is exactly absent.
fn present(alloc: Global, writes: Writes) -> Result<Made, Memory>
    ensures { IfOk result (λ made. LeavesOut (writes_of writes)
        (map listed_of made.listed.items)) }
{
    let mut listed = Vec::new(alloc);
    for write in writes.list {
        if !is_absent(alloc, &write.property) {
            listed.push((write.key, write.property))?;
        }
    }
    Ok(Made { listed })
}

/// Gives an object these properties, and no others.
fn replace<L: Ledger>(
    heap: &mut AHeap,
    alloc: Global,
    label: Label,
    made: Made,
    blank: Blank,
) -> Result<(), Memory>
    requires name { blank.name ≡ L.name }
    requires parts { blank.parts ≡ L.parts }
    requires some { 0 < blank.parts }
    requires label { IsTrue (has_label (heap_of heap.old) label) }
    ensures { IfOk result (λ _. heap_of heap.new
        ≡ with_own_in (heap_of heap.old) label (own_in made)) }
{
    let mut steps = Steps::<L>::new(blank);
    heap.replace(alloc, label, made, &mut steps)
}

/// Writes at the one object of a label. Where each key is written, the object is built anew, so
/// that it lists nothing that is absent.
fn write_object(
    state: &mut AState,
    alloc: Global,
    label: Label,
    writes: Writes,
) -> Result<(), Memory>
    requires label { IsTrue (has_label (heap_of state.old.heap) label) }
    requires keys { All (λ (w : Kept). IsTrue (has_key (heap_of state.old.heap) w.key))
        writes.list.items }
    ensures state { IfOk result (λ _. state_of state.new
        ≡ strong_update (state_of state.old) label (writes_of writes)) }
    ensures shape { IfOk result (λ _. HaveOneShape state.old state.new) }
{
    if is_whole(&writes.list, state.heap.names()) {
        let made = present(alloc, writes)?;
        replace::<Brand>(&mut state.heap, alloc, label, made, Blank::new(1))
    } else {
        state.strongly(alloc, label, writes)
    }
}

// ---- all

/// Sets properties of a state, those of one label behind one another together, so that each object
/// is written to once.
fn set_each(state: &mut AState, alloc: Global, heap: Vec<PropertyAt>) -> Result<(), Memory>
    requires { AllByRecursion (IsPlaced (heap_of state.old.heap).sites
        (heap_of state.old.heap).names) heap.items }
    ensures state { IfOk result (λ _. state_of state.new
        ≡ with_properties heap.items (state_of state.old)) }
    ensures shape { IfOk result (λ _. HaveOneShape state.old state.new) }
{
    let mut heap = heap;
    while let Some(last) = heap.pop() {
        let label = last.label;
        let writes = take_object(alloc, &mut heap, last)?;
        write_object(state, alloc, label, writes)?;
    }
    Ok(())
}

/// Sets properties of a state, of which no two are of one label and key.
pub(crate) fn set_properties(
    state: &mut AState,
    alloc: Global,
    heap: Vec<PropertyAt>,
) -> Result<(), Memory>
    requires placed { AllByRecursion (IsPlaced (heap_of state.old.heap).sites
        (heap_of state.old.heap).names) heap.items }
    requires apart { AreApart heap.items }
    ensures state { IfOk result (λ _. state_of state.new
        ≡ with_properties heap.items (state_of state.old)) }
    ensures shape { IfOk result (λ _. HaveOneShape state.old state.new) }
{
    let left = changing(alloc, state, heap)?;
    set_each(state, alloc, left)
}
