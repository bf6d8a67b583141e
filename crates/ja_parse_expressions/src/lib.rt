//! Reads the tokens of an expression into its tree (ES3 sections 11 and 13), by recursive descent.
//! How the statements within a function are read comes in as a function value.
//!
//! Expressions and functions are read by the reading functions of `ja_grammar` (`expression_at`,
//! `function`), where the function value that is given reads statements by them.
#![tactic(auto)]

mod body;
mod expression;
mod grammar;
mod list;
mod primary;
mod reading;

pub use body::{ListEnd, function, statement_below, statements_below};
pub use grammar::Piece;
pub use reading::expression_at;
