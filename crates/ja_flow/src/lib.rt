//! What goes along call edges (Jensen, Møller and Thiemann, SAS 2010): the state with which a
//! function is entered (`enter`), the values that a callee demands of its entry, by the caller's
//! state at the node (`fill`), and what an exit of the callee gives the caller (`give_back`).
//!
//! A `Caller` is an edge as its caller sees it. `calling.rt` has the caller's state at the node,
//! after the object of a construction is made, and `arguments.rt` the three ways in which arguments
//! are given. Values that are joined into those of an entry are `values.rt`. Contracts are by the
//! definitions of calls (`ja_rows/specs/Calls.antt`), exactly. What is left free is want of memory.
#![tactic(auto)]

mod arguments;
mod back;
mod caller;
mod calling;
mod entering;
mod filling;
mod values;

pub use back::give_back;
pub use caller::Caller;
pub use calling::{Calling, calling_of};
pub use entering::{Entered, enter};
pub use filling::{Filled, fill};
pub use values::{EntryValue, Values, set_values, values_for};
