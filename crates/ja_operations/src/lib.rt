//! What nodes compute of values and heaps: the operators, the operations of the built-in functions,
//! the objects that nodes make, and the messages of errors. Contracts are by the definitions of the
//! machine.
//!
//! Each function is the machine's definition of what it computes: what an operator gives (`unary`,
//! `binary`), what an operation of the built-in functions gives (`of_values`, and of texts and
//! numbers alone `of_primitives`), the objects that nodes make (`empty_object`, `function_object`,
//! `arguments_object`, and so on), and the messages of the errors that they throw (`unbound`,
//! `nothing`, and so on).
#![tactic(auto)]

pub mod activations;
pub mod arguments;
pub mod copies;
mod digits;
pub mod intrinsics;
mod letters;
pub mod made;
pub mod messages;
pub mod operators;
mod texts;

pub use texts::{of_primitives, text_operation};
