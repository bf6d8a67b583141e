//! The abstract step of each kind of node, by its row (Jensen, Møller and Thiemann, SAS 2009, over
//! the recency abstraction).
//!
//! `transfer` goes by the kind of the node: to the rows of names, operators and edges, which stand
//! in `ja_transfer`, to those of functions, of the built-in ones and of devices, which stand in
//! `ja_functions`, and to those of objects, which stand here: reads, writes and deletions of
//! properties (`properties.rt`), `instanceof` (`instances.rt`), the objects that nodes make
//! (`made.rt`, `objects.rt`), scopes (`scopes.rt`), `for`-`in` (`enumeration.rt`) and
//! constructions (`constructs.rt`). Contracts see what a row gives as that of the definitions
//! (`ja_rows/specs`), exactly. What is left free is want of memory.
#![tactic(auto)]

mod constructs;
mod enumeration;
mod instances;
mod made;
mod objects;
mod properties;
mod scopes;
mod step;

pub use step::transfer;
