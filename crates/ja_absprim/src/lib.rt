//! The operators on primitives, of abstract values (Jensen, Møller and Thiemann, SAS 2009): what
//! an operation gives of the primitives that its operands may be, and whether it may leave the
//! profile.
//!
//! A call has the name of the one of `ja_prim` that it stands for, and gives exactly what the
//! definition of that operation says (`ja_abstract/specs/Primitives.antt`): the conversions
//! `to_num`, `to_bool`, `to_text` and `to_uint32`, `neg` and `not`, and each binary operator by
//! [`binary`], whose result [`finished`] turns into the operator's. That they cover the operations
//! on primitives is a law of those definitions (`operators_cover` of `ja_meaning`). What is left
//! free is want of memory.
//!
//! A value is taken apart into its atoms, constants and classes of numbers and texts (`atoms.rt`).
//! An operation is said of one atom (`convert.rt`) or of two (`comparison.rt`, `equality.rt`), or
//! of the numbers that they are converted to (`operands.rt`, `arithmetic.rt`), and is joined over
//! all of them from the last to the first (`pairs.rt`), as the definitions do.
#![tactic(auto)]

mod abstracted;
mod arithmetic;
mod atoms;
mod comparison;
mod convert;
mod equality;
mod made;
mod operands;
mod operators;
mod pairs;

pub use abstracted::Abstracted;
pub use atoms::{Atom, atoms_of};
pub use convert::{neg, not, to_bool, to_num, to_text, to_uint32};
pub use operators::{binary, finished};
