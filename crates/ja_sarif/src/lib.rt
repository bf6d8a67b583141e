//! Messages about files as SARIF 2.1.0, the form in which build servers take what a static analysis
//! tells (`sarif_text`).
//!
//! The text is exactly that of its definition (`specs/Sarif.antt`): a JSON value with a result for
//! each message, in the order in which they are given, with its rule, its level, its words and its
//! file and place.
#![tactic(auto)]

mod places;
mod results;
mod rules;
mod sarif;
mod uris;

pub use sarif::sarif_text;
pub use uris::ESCAPED;
