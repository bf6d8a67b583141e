//! How numbers, places, strings, classes and kinds of scope are written. Writers add to what was
//! written.
//!
//! Each writer appends exactly the text of its definition (`specs/Texts.antt`): `push_number`,
//! `push_signed`, `push_place`, `push_plain`, `push_units`, `push_quoted`; `class_text` and
//! `scope_name` give the names of classes and of kinds of scope.
#![tactic(auto)]

mod names;
mod texts;

pub use names::{class_text, scope_name};
pub use texts::{push_number, push_place, push_plain, push_quoted, push_signed, push_units};
