//! JSON (RFC 8259) as certificates are read from it. A value is read beside one that stood near by,
//! and shares with it what both have, since the states of a program repeat nearly all that they
//! list.
//!
//! Contracts see the data that a value is (`view`), which is that of the toolchain's `serde_json`:
//! a text is read to exactly the data that it has there (`read`).
#![tactic(auto)]

mod numbers;
mod places;
mod reading;
mod value;

pub use reading::{JsonFault, read};
pub use value::Json;
