//! Abstract states as the analyser keeps them, what is read of them, and what [[Put]] and
//! [[Delete]] write. Contracts see a state as the abstract state of the definitions, a reader as
//! the view that it reads (`view_of`), and each call is the operation, the reading or the writes of
//! that name there. What is left free is want of memory, after which what was lent is as it was
//! (the clauses `kept`).
//!
//! A state is the registers of a frame and an abstract heap (`state.rt`). The keys of the texts and
//! numbers of a program (ES3 11.2.1, 15.4) are made once for it (`ProgramKeys`): the lists of all
//! classes of texts and numbers, from which the keys that a computed name may be are taken in the
//! program's order (`lists.rt`, `insertion.rt`). A reading gives what a label has at some keys now,
//! along prototypes ([[Get]], 8.6.2), names along scope chains (10.1.4), and the names that
//! `for`-`in` shows (12.6.4); each with the pairs of the entry that it demands (Jensen, Møller and
//! Thiemann, SAS 2010, lazy propagation), and a walk asks each object that it meets once. What is
//! written (8.6.2.2, 8.6.2.5), at arrays too, whose elements and length go together (15.4.5.1), is
//! a list (`writes.rt`), which is applied to a state object by object.
#![tactic(auto)]

mod arrays;
mod class_lists;
mod gets;
mod heaps;
mod indices;
mod insertion;
mod lengths;
mod lists;
mod lookup;
mod met;
mod names;
mod opening;
mod properties;
mod puts;
mod reader;
mod readings;
mod registers;
mod scopes;
mod shown;
mod sites;
mod state;
mod tests_of_texts;
mod walks;
mod writes;

pub use gets::Looked;
pub use indices::{index_of_key, is_index_key};
pub use lookup::same_key;
pub use names::ProgramKeys;
pub use properties::{asked_at, put_property};
pub use puts::{demand_length, put_may_throw, put_writes};
pub use reader::Reader;
pub use scopes::Found;
pub use shown::{Ancestors, Shown};
pub use sites::{class_at, is_array};
pub use state::AState;
pub use writes::one_write;
