//! The abstract step of the nodes of names, operators and edges, each by its row (Jensen, Møller and
//! Thiemann, SAS 2009, over the recency abstraction), and what the rows of all nodes are made of;
//! those of objects, and the step by the kind of the node, are in `ja_nodes`. What a row gives are
//! states with the nodes that they go to, the values at entry that it demands, and call edges
//! (`Outcome`).
//!
//! A row is a method on a `Stepper`, which knows the node, its context and the state, and contracts
//! see what it gives as the row of the definitions (`ja_rows/specs`), exactly. `given.rt` has what
//! rows are made of: a state that goes on, has a register set, or throws an error (`errors.rt`).
//! `puts.rt`, `deletes.rt` and `declares.rt` have what is put, deleted and defined at some labels:
//! in place where the spot allows it (`spots.rt`), and joined in elsewhere (`writing.rt`).
//! `operators.rt` has the nodes that compute on registers, over the operators on values of
//! `values.rt`; `names.rt` those that go along scope chains; `edges.rt` those that enter functions,
//! over the functions that callees run, each once and in order (`callees.rt`), and the receivers
//! (`receivers.rt`). What is left free is want of memory.
#![tactic(auto)]

mod callees;
mod declares;
mod deletes;
mod edges;
mod errors;
mod given;
mod names;
mod operators;
mod outcome;
mod puts;
mod receivers;
mod sites;
mod spots;
mod stepper;
mod values;
mod writing;

pub use given::States;
pub use outcome::Outcome;
pub use sites::{Entry, entry_at, is_function, some_function, some_other, some_without};
pub use stepper::Stepper;
