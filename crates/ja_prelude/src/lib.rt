//! The built-in objects and functions (ES3 section 15): the table of the objects that are there
//! when a run begins, and the functions as texts, with the special forms that begin with `$`.
//!
//! The built-in objects are exactly those of the table, with their sites (`opening_objects`,
//! `builtin_sites`), and the built-in functions those of their texts: trees, paths and names
//! (`Prelude::read`), and nodes (`Prelude::functions`).
//!
//! Laws of the table (`table_laws.rt`, `opening_laws.rt`): each property, site and function has its
//! name, each object its prototype and each property its attributes as they are told in
//! `specs/Table.antt`; each object has the value and the properties, in order and with what they
//! hold, that `specs/Described.antt` writes out, and names are numbered in this order; the objects
//! are well formed. Laws of the texts (`laws.rt`): each is in the language, has one tree by the
//! grammar, and is one function of the table, with as many parameters as its `length` says; its
//! nodes are allowed in any program; it stops only where that is told; a default value comes of
//! both methods in the order of its hint; and the functions of errors have one text, but for the
//! name of their kind. What else a text does is compared with the section of ES3
//! that stands beside it.
#![tactic(auto)]

pub mod laws;
mod objects;
pub mod opening_laws;
mod prelude;
mod reading;
mod table;
pub mod table_laws;
mod texts;

pub use objects::{builtin_names, builtin_sites, opening_objects};
pub use prelude::Prelude;
pub use table::{
    BuiltinObject, Constant, Content, Entry, FUNCTION_OBJECTS, OBJECTS, Role, TableRow,
};
pub use texts::{
    BuiltinFunction, CONSTRUCTORS, FUNCTION_COUNT, OBJECT_FUNCTIONS, TEXT_FIRST, VALUE_FIRST,
    VALUE_FUNCTIONS,
};
