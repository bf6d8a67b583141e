//! The calls of heaps, each with a counter of its own for the nodes that it makes.
ghost use Rattle.std.specs.Prelude.{◌≡◌, ◌≢◌, ◌<◌, ◌*◌, IfOk, OnErr, IsTrue, All, true, false};
ghost use Rattle.ja_abstract.specs.AbstractState.{new};
ghost use Rattle.ja_aheap.specs.Heap.{heap_of, entry_heap, made_in, with_own_in, strongly_in, weakly_in, join_heaps, composed_in, AreAlike, has_label, has_key};
ghost use Rattle.ja_aheap.specs.Objects.{own_in, writes_of};
ghost use Rattle.ja_aheap.specs.declared.writes.Write.{Write};

use ja_aheap::{AHeap, Made, Writes};
use ja_base::{Label, Memory, Site};
use ja_trie::Steps;
use std::alloc::Global;
use std::sync::ledger::{Blank, Ledger};

/// The heap at a function's entry.
pub fn entry<L: Ledger>(
    alloc: Global,
    sites: u32,
    names: u32,
    blank: Blank,
) -> Result<AHeap, Memory>
    requires name { blank.name ≡ L.name }
    requires parts { blank.parts ≡ L.parts }
    requires some { 0 < blank.parts }
    requires few { 2 * sites < 4294967296 }
    ensures { IfOk result (λ h. heap_of h ≡ entry_heap sites names) }
{
    let mut steps = Steps::<L>::new(blank);
    AHeap::entry(alloc, sites, names, &mut steps)
}

/// Joins another heap in.
pub fn join<L: Ledger>(
    heap: &mut AHeap,
    alloc: Global,
    other: &AHeap,
    blank: Blank,
) -> Result<bool, Memory>
    requires name { blank.name ≡ L.name }
    requires parts { blank.parts ≡ L.parts }
    requires some { 0 < blank.parts }
    requires alike { AreAlike (heap_of heap.old) (heap_of other.now) }
    ensures joined { IfOk result (λ _. heap_of heap.new
        ≡ join_heaps (heap_of heap.old) (heap_of other.now)) }
    ensures changed { IfOk result (λ c. c ≡ true → heap_of heap.new ≢ heap_of heap.old) }
    ensures same { IfOk result (λ c. c ≡ false → heap_of heap.new ≡ heap_of heap.old) }
    ensures kept { OnErr result (heap_of heap.new ≡ heap_of heap.old) }
{
    let mut steps = Steps::<L>::new(blank);
    heap.join(alloc, other, &mut steps)
}

/// Makes an object with these properties at a site. After `Memory` it may have been made without
/// them.
pub fn make<L: Ledger>(
    heap: &mut AHeap,
    alloc: Global,
    site: Site,
    made: Made,
    blank: Blank,
) -> Result<(), Memory>
    requires name { blank.name ≡ L.name }
    requires parts { blank.parts ≡ L.parts }
    requires some { 0 < blank.parts }
    requires site { site.0 < (heap_of heap.old).sites }
    ensures { IfOk result (λ _. heap_of heap.new
        ≡ with_own_in (made_in (heap_of heap.old) site) (new site) (own_in made)) }
{
    let mut steps = Steps::<L>::new(blank);
    heap.allocate(alloc, site, &mut steps)?;
    heap.replace(alloc, Label { site, old: false }, made, &mut steps)
}

/// Makes objects with these properties at two sites, both before either has its properties. After
/// `Memory` they may have been made without them.
pub fn make_two<L: Ledger>(
    heap: &mut AHeap,
    alloc: Global,
    first: Site,
    made: Made,
    second: Site,
    other: Made,
    blank: Blank,
) -> Result<(), Memory>
    requires name { blank.name ≡ L.name }
    requires parts { blank.parts ≡ L.parts }
    requires some { 0 < blank.parts }
    requires first { first.0 < (heap_of heap.old).sites }
    requires second { second.0 < (heap_of heap.old).sites }
    ensures { IfOk result (λ _. heap_of heap.new
        ≡ with_own_in (with_own_in (made_in (made_in (heap_of heap.old) first) second) (new first)
        (own_in made)) (new second) (own_in other)) }
{
    let mut steps = Steps::<L>::new(blank);
    heap.allocate(alloc, first, &mut steps)?;
    heap.allocate(alloc, second, &mut steps)?;
    let label = Label {
        site: first,
        old: false,
    };
    heap.replace(alloc, label, made, &mut steps)?;
    let label = Label {
        site: second,
        old: false,
    };
    heap.replace(alloc, label, other, &mut steps)?;
    Ok(())
}

/// Writes at the one object of a label.
pub fn strongly<L: Ledger>(
    heap: &mut AHeap,
    alloc: Global,
    label: Label,
    writes: Writes,
    blank: Blank,
) -> Result<(), Memory>
    requires name { blank.name ≡ L.name }
    requires parts { blank.parts ≡ L.parts }
    requires some { 0 < blank.parts }
    requires label { IsTrue (has_label (heap_of heap.old) label) }
    requires keys { All (λ (w : Write). IsTrue (has_key (heap_of heap.old) w.key))
        writes.list.items }
    ensures written { IfOk result (λ _. heap_of heap.new
        ≡ strongly_in (heap_of heap.old) label (writes_of writes)) }
    ensures kept { OnErr result (heap_of heap.new ≡ heap_of heap.old) }
{
    let mut steps = Steps::<L>::new(blank);
    heap.strongly(alloc, label, writes, &mut steps)
}

/// Writes at all objects of a label.
pub fn weakly<L: Ledger>(
    heap: &mut AHeap,
    alloc: Global,
    label: Label,
    writes: Writes,
    blank: Blank,
) -> Result<(), Memory>
    requires name { blank.name ≡ L.name }
    requires parts { blank.parts ≡ L.parts }
    requires some { 0 < blank.parts }
    requires label { IsTrue (has_label (heap_of heap.old) label) }
    requires keys { All (λ (w : Write). IsTrue (has_key (heap_of heap.old) w.key))
        writes.list.items }
    ensures written { IfOk result (λ _. heap_of heap.new
        ≡ weakly_in (heap_of heap.old) label (writes_of writes)) }
    ensures kept { OnErr result (heap_of heap.new ≡ heap_of heap.old) }
{
    let mut steps = Steps::<L>::new(blank);
    heap.weakly(alloc, label, writes, &mut steps)
}

/// A heap read through a later one.
pub fn composed<L: Ledger>(
    heap: &AHeap,
    alloc: Global,
    later: &AHeap,
    blank: Blank,
) -> Result<AHeap, Memory>
    requires name { blank.name ≡ L.name }
    requires parts { blank.parts ≡ L.parts }
    requires some { 0 < blank.parts }
    requires alike { AreAlike (heap_of heap.now) (heap_of later.now) }
    ensures { IfOk result (λ h. heap_of h
        ≡ composed_in (heap_of heap.now) (heap_of later.now)) }
{
    let mut steps = Steps::<L>::new(blank);
    heap.composed(alloc, later, &mut steps)
}
