ghost use Rattle.std.specs.Prelude.{◌≡◌, length};
ghost use Rattle.std.proofs.Props.{props};
ghost use Rattle.ja_aheap.specs.Heap.{heap_of, IsHeapOf};
ghost use Rattle.ja_astate.specs.Keys.{IsKeysOf};

use crate::names::ProgramKeys;
use crate::state::AState;
use ja_aheap::DemandedEntries;
use ja_graph::Program;
use std::alloc::Global;

/// Reads an abstract state of a program, with the values at the entry of its context.
#[derive(Clone, Copy)]
pub struct Reader<'a> {
    pub alloc: Global,
    pub program: &'a Program,
    /// The keys of the program.
    pub keys: &'a ProgramKeys,
    /// How many sites the program has.
    pub sites: u32,
    pub state: &'a AState,
    pub entries: &'a DemandedEntries,
    pub ghost keys_are: { IsKeysOf program.now keys.now } by { Prim.hlevel props },
    pub ghost sites_are: { sites ≡ length program.now.sites },
    pub ghost heap_is: { IsHeapOf program.now (heap_of state.now.heap) },
}
