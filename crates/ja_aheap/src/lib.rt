//! Abstract heaps with two labels a site, one for the object that was made last there and one for
//! all others (Balakrishnan and Reps, SAS 2006), and the values at entry that were demanded. Heaps
//! share what they have in common: a fork makes no node, and a write a path of new ones.
//!
//! Contracts see a heap as the map that it stands for, from labels and keys to properties and from
//! sites to masks (`HeapMap`); each call is one clause on that map, and one on the nodes that it
//! makes. After want of memory a heap is as it was (the clauses `kept`).
#![tactic(auto)]

mod allocation;
mod calls;
mod composed;
mod demands;
mod entries;
mod heap;
mod joins;
mod kept;
mod keys;
mod made;
mod maps;
mod masks;
mod mentioned;
mod object;
mod object_updates;
mod properties;
mod sources;
mod updates;
mod writes;

pub use demands::DemandList;
pub use entries::DemandedEntries;
pub use heap::AHeap;
pub use keys::key_number;
pub use made::Made;
pub use object::AObject;
pub use writes::{Write, Writes};
