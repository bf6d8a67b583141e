//! What abstract values, properties and states say of two heaps, the one at the entry of a function
//! and the one now (`Meaning`): definitions and laws.
//!
//! Laws: the abstract operators cover the machine's and are exact on constants, and what they give
//! of objects is told by their labels (`operator_laws.rt`); the abstract operations of the built-in
//! functions take as many values as the machine's, give no other kind of results and are exact on
//! constants (`operation_laws.rt`); renaming is what origins say (`renaming_laws.rt`); two moments
//! that follow each other compose (`laws.rt`).
//!
//! Proved, as lemmas, of any two heaps of a run: a resolved reading knows what an object has, so do
//! [[Get]] along prototypes, the search of a scope chain and the names that `for`-`in` shows; a
//! state with objects more holds of the heap with them; a put, a definition and a deletion lead to
//! states one of which holds of the heap after them; a state read through a later one holds of both
//! moments together.
#![tactic(auto)]

mod laws;
mod operation_laws;
mod operator_laws;
mod renaming_laws;

pub use laws::moments_compose;
pub use operation_laws::{
    abstract_operations_are_listed, objects_are_told, operations_are_exact,
    operations_keep_their_kinds,
};
pub use operator_laws::{
    inequality_is_turned, labels_are_told, operators_are_exact, operators_cover,
    unsigned_numbers_are_told,
};
pub use renaming_laws::renaming_is_by_origins;
