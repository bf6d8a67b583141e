//! The visits that build tables of abstract states.
//!
//! A visit is that of its definition (`Analysis::visit`): the values of the opening heap, the step
//! of a node with the functions that it enters, the values that fill a callee's entry, and what a
//! callee's exits give back. `Analysis::settled` tells whether one would change a table, and leaves
//! the table alone. What visits join in is in `joins.rt`. What a visit changed and read it tells to
//! whoever asks (`changes.rt`), without a clause.
#![tactic(auto)]

mod analysis;
mod changes;
mod entries;
mod joins;
mod settled;
mod visits;

pub use analysis::Analysis;
pub use changes::Changes;
