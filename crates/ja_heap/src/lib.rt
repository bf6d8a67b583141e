//! Concrete heaps, as a run changes them: each call is exactly the definition of its name in
//! `ja_machine`.
//!
//! Contracts see its objects and heaps as those of the machine. Each call is the machine's
//! definition of its name, of any address (`alloc`, `own`, `get`, `has`, `can_put`, `find_name`,
//! `inherits_from`, `names`, `shows`, `put`, `define`, `can_delete`, `delete`, and so on). After
//! want of memory the heap is as it was where a site or an object was to be added, or a name
//! defined (the clauses `kept`).
#![tactic(auto)]

mod chains;
mod heap;
mod names;
mod object;
mod properties;
mod writes;

pub use heap::Heap;
pub use object::Object;
