//! The trees of programs, and the symbols that the grammar sees (ES3 sections 7 and 11 to 14).
//!
//! Which symbol of the grammar a token is (`symbol_of`), whether an expression is a reference
//! (`is_reference`), what a function declares before its statements run (`hoist`,
//! `hoisted_variables`, ES3 10.1.3), and whether it looks `arguments` up (`mentions_arguments`):
//! each by its definition. Laws: the punctuators of the grammar are the marks that are read, each
//! symbol of a word or mark has one text, and no word or mark stands twice (`symbols_are_spelt`).
//! What a tree keeps beside the grammar is in `specs/Rules.antt`.
#![tactic(auto)]

mod arguments;
mod hoisting;
mod laws;
mod names;
mod references;
mod symbol;
mod symbols;
mod tree;

pub use arguments::mentions_arguments;
pub use hoisting::{Hoisted, hoist, hoisted_functions, hoisted_variables, is_function};
pub use laws::symbols_are_spelt;
pub use names::Names;
pub use references::is_reference;
pub use symbol::{Symbol, same_symbol};
pub use symbols::{is_arguments, names_arguments, scope_of, symbol_of};
pub use tree::{
    BinaryOperator, Case, CatchOf, Declaration, Expression, ForFirst, ForTarget, FunctionOf,
    FunctionTree, Initialiser, Name, Operation, Property, PropertyName, Statement, Suffix, Tree,
    UnaryOperator, UpdateOperator,
};
