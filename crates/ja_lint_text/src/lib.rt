//! The words of messages: what may go wrong at an operation, what it is called, and what the value
//! there is, as people say it.
//!
//! `warning_words` writes exactly the text of its definition (`specs/Words.antt`,
//! `specs/Values.antt`). Laws (`laws.rt`): worked examples of each kind of warning and of each part
//! of a value.
#![tactic(auto)]

mod laws;
mod listing;
mod sites;
mod source;
mod values;
mod words;

pub use laws::{
    examples_of_lists, examples_of_names, examples_of_objects, examples_of_values,
    examples_of_warnings, sites_are_told_once,
};
pub use source::Source;
pub use values::value_words;
pub use words::warning_words;
