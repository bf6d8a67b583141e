//! Reads the tokens of a program into its statements (ES3 sections 12 to 14), by recursive descent.
//!
//! A program's tokens are read by the reading function of programs of `ja_grammar`, with 200 levels
//! (`read_program`).
#![tactic(auto)]

mod block;
mod choice;
mod grammar;
mod iteration;
mod jump;
mod program;
mod statement;

pub use program::read_program;
