ghost use Rattle.std.specs.Prelude.{◌≡◌, ◌≢◌, ◌<◌, ◌*◌, ◌↔◌, IfOk, OnErr, IsTrue, All, true, false, vec_len};
ghost use Rattle.ja_base.specs.declared.ids.Label.{Label};
ghost use Rattle.ja_graph.specs.declared.program.Program.{Program};
ghost use Rattle.ja_abstract.specs.AbstractValue.{same_label};
ghost use Rattle.ja_abstract.specs.AbstractState.{AbstractState, join_states, with_register};
ghost use Rattle.ja_abstract.specs.Composed.{composed};
ghost use Rattle.ja_abstract.specs.Made.{with_object, with_objects};
ghost use Rattle.ja_abstract.specs.Order.{LeqState};
ghost use Rattle.ja_abstract.specs.Resolved.{renamed};
ghost use Rattle.ja_abstract.specs.Writes.{strong_update, weak_update};
ghost use Rattle.ja_aheap.specs.Heap.{heap_of, IsHeapOf, has_label, has_key};
ghost use Rattle.ja_aheap.specs.Objects.{own_in, writes_of};
ghost use Rattle.ja_aheap.specs.declared.writes.Write.{Write};
ghost use Rattle.ja_value.specs.Value.{value_of};

use crate::heaps::{composed, entry, join, make, make_two, strongly, weakly};
use crate::registers::{aged_values, copy_values, joined_values, renamed_values};
use ja_aheap::{AHeap, Made, Writes};
use ja_base::{Label, Memory, Reg, Site};
use ja_value::AValue;
use std::alloc::Global;
use std::marker::Brand;
use std::sync::ledger::Blank;

/// An abstract state: the values of the registers, and the heap.
pub struct AState {
    pub registers: Vec<AValue>,
    pub heap: AHeap,
}

impl Drop for AState {
    fn drop(self) {
        let AState {
            registers: _,
            heap: _,
        } = self;
    }
}

impl AState {
    ghost use Rattle.ja_astate.specs.State.{state_of, entry_with, HaveOneShape};

    /// The state at a function's entry with these registers, of a program with so many sites and
    /// names: each property is as it was, and nothing was made.
    pub fn entry(
        alloc: Global,
        registers: Vec<AValue>,
        sites: u32,
        names: u32,
    ) -> Result<AState, Memory>
        requires { 2 * sites < 4294967296 }
        ensures state { IfOk result (λ a. state_of a ≡ entry_with registers.items) }
        ensures sites { IfOk result (λ a. (heap_of a.heap).sites ≡ sites) }
        ensures names { IfOk result (λ a. (heap_of a.heap).names ≡ names) }
        ensures registers { IfOk result (λ a. vec_len a.registers ≡ vec_len registers) }
    {
        let heap = entry::<Brand>(alloc, sites, names, Blank::new(1))?;
        Ok(AState { registers, heap })
    }

    /// The value of a register.
    pub fn register(&self, register: Reg) -> &AValue
        requires { register.0 < vec_len self.now.registers }
        ensures { value_of result.now ≡ (state_of self.now).register register.0 }
    {
        &self.registers[register.0 as usize]
    }

    /// Sets a register.
    pub fn set_register(&mut self, register: Reg, value: AValue)
        requires { register.0 < vec_len self.old.registers }
        ensures state { state_of self.new ≡ with_register (state_of self.old) register
            (value_of value) }
        ensures shape { HaveOneShape self.old self.new }
    {
        self.registers[register.0 as usize] = value;
    }

    /// The same state once more.
    pub fn fork(&self, alloc: Global) -> Result<AState, Memory>
        ensures state { IfOk result (λ a. state_of a ≡ state_of self.now) }
        ensures shape { IfOk result (HaveOneShape self.now) }
    {
        let registers = copy_values(alloc, &self.registers)?;
        let heap = self.heap.fork()?;
        Ok(AState { registers, heap })
    }

    /// Joins another state in, and tells whether this one changed. After `Memory` it is as it was.
    pub fn join(&mut self, alloc: Global, other: &AState) -> Result<bool, Memory>
        requires { HaveOneShape self.old other.now }
        ensures joined { IfOk result (λ _. state_of self.new
            ≡ join_states (state_of self.old) (state_of other.now)) }
        ensures changed { IfOk result (λ c. c ≡ true → state_of self.new ≢ state_of self.old) }
        ensures same { IfOk result (λ c. c ≡ false → state_of self.new ≡ state_of self.old) }
        ensures shape { HaveOneShape self.old self.new }
        ensures kept { OnErr result (state_of self.new ≡ state_of self.old) }
    {
        let joined = joined_values(alloc, &self.registers, &other.registers)?;
        let changed = join::<Brand>(&mut self.heap, alloc, &other.heap, Blank::new(1))?;
        match joined {
            Some(registers) => {
                self.registers = registers;
                Ok(true)
            }
            None => Ok(changed),
        }
    }

    /// The state after an object with these properties was made at a site: the object that was new
    /// is old (Balakrishnan and Reps, SAS 2006).
    pub fn with_object(&self, alloc: Global, site: Site, made: Made) -> Result<AState, Memory>
        requires { site.0 < (heap_of self.now.heap).sites }
        ensures state { IfOk result (λ a. (p : Program) → IsHeapOf p (heap_of self.now.heap)
            → state_of a ≡ with_object p (state_of self.now) site (λ b. own_in made)) }
        ensures shape { IfOk result (HaveOneShape self.now) }
    {
        let registers = aged_values(alloc, &self.registers, site)?;
        let mut heap = self.heap.fork()?;
        make::<Brand>(&mut heap, alloc, site, made, Blank::new(1))?;
        Ok(AState { registers, heap })
    }

    /// .. after two objects were made at two sites, both before either had its properties.
    pub fn with_objects(
        &self,
        alloc: Global,
        first: Site,
        made: Made,
        second: Site,
        other: Made,
    ) -> Result<AState, Memory>
        requires first { first.0 < (heap_of self.now.heap).sites }
        requires second { second.0 < (heap_of self.now.heap).sites }
        requires apart { first.0 ≢ second.0 }
        ensures state { IfOk result (λ a. (p : Program) → IsHeapOf p (heap_of self.now.heap)
            → state_of a ≡ with_objects p (state_of self.now) first (λ b. own_in made) second
            (λ b. own_in other)) }
        ensures shape { IfOk result (HaveOneShape self.now) }
    {
        let once = aged_values(alloc, &self.registers, first)?;
        let registers = aged_values(alloc, &once, second)?;
        let mut heap = self.heap.fork()?;
        make_two::<Brand>(&mut heap, alloc, first, made, second, other, Blank::new(1))?;
        Ok(AState { registers, heap })
    }

    /// Writes at the one object of a label. After `Memory` the state is as it was.
    pub fn strongly(&mut self, alloc: Global, label: Label, writes: Writes) -> Result<(), Memory>
        requires label { IsTrue (has_label (heap_of self.old.heap) label) }
        requires keys { All (λ (w : Write). IsTrue (has_key (heap_of self.old.heap) w.key))
            writes.list.items }
        ensures state { IfOk result (λ _. state_of self.new
            ≡ strong_update (state_of self.old) label (writes_of writes)) }
        ensures shape { HaveOneShape self.old self.new }
        ensures kept { OnErr result (state_of self.new ≡ state_of self.old) }
    {
        strongly::<Brand>(&mut self.heap, alloc, label, writes, Blank::new(1))?;
        Ok(())
    }

    /// Writes at all objects of a label: each write joins. After `Memory` the state is as it was.
    pub fn weakly(&mut self, alloc: Global, label: Label, writes: Writes) -> Result<(), Memory>
        requires label { IsTrue (has_label (heap_of self.old.heap) label) }
        requires keys { All (λ (w : Write). IsTrue (has_key (heap_of self.old.heap) w.key))
            writes.list.items }
        ensures state { IfOk result (λ _. (p : Program) → IsHeapOf p (heap_of self.old.heap)
            → state_of self.new
            ≡ weak_update p (state_of self.old) (same_label label) (λ m. writes_of writes)) }
        ensures shape { HaveOneShape self.old self.new }
        ensures kept { OnErr result (state_of self.new ≡ state_of self.old) }
    {
        weakly::<Brand>(&mut self.heap, alloc, label, writes, Blank::new(1))?;
        Ok(())
    }

    /// This state read through a later one, which describes what came after it (Jensen, Møller and
    /// Thiemann, SAS 2010).
    pub fn composed(&self, alloc: Global, later: &AState) -> Result<AState, Memory>
        requires sites { (heap_of self.now.heap).sites ≡ (heap_of later.now.heap).sites }
        requires names { (heap_of self.now.heap).names ≡ (heap_of later.now.heap).names }
        ensures state { IfOk result (λ a. (p : Program) → IsHeapOf p (heap_of self.now.heap)
            → state_of a ≡ composed p (state_of self.now) (state_of later.now)) }
        ensures shape { IfOk result (HaveOneShape self.now) }
    {
        let registers = renamed_values(alloc, &self.registers, &later.heap)?;
        let heap = composed::<Brand>(&self.heap, alloc, &later.heap, Blank::new(1))?;
        Ok(AState { registers, heap })
    }
}
