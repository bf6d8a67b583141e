//! Certificates: a JSON object (RFC 8259) of a program's text and devices, a table of its abstract
//! states, and visits. Whoever has one can test by itself that the table is closed.
#![tactic(auto)]

mod data;
mod pieces;
mod strings;
mod whole;
mod write_contexts;
mod write_states;

pub use whole::write;
