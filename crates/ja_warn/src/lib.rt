//! The warnings of a table: the operations that one of its states allows to go wrong.
//!
//! Each node with a test is looked at in each state that the table has there (`nodes.rt`): what the
//! state allows (`reached.rt`) is put with what was found of the same operation (`found.rt`), in
//! the order in which warnings are told. Nothing is demanded of a context's entry, only read.
//!
//! With each warning goes the value of what it is about, and that of its name (`names.rt`): the
//! least ones above all that the states have there. `name_of` is the text of a name.
#![tactic(auto)]

mod faults;
mod found;
mod names;
mod nodes;
mod reached;

pub use faults::{told, warnings};
pub use names::name_of;
pub use reached::Told;
