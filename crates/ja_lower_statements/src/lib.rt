//! The listing of each statement of the language, of a whole function, and of the program.
//!
//! Each statement is listed exactly as its definition says, one row per form (`statement`), with
//! what jumps leave on their way, and a copy of the block of a `finally` on each way out; and so
//! are a whole function and the program (`function_listing`, `program_listing`).
#![tactic(auto)]

mod around;
mod blocks;
mod body;
mod choices;
mod clauses;
mod loops;
mod statement_list;
mod statement_parts;
mod trials;
mod way;

pub use around::Around;
pub use body::{function_listing, program_listing};
pub use statement_list::{statement, statements};
pub use way::{Step, Way};
