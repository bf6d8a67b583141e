//! The listing of each expression of the language.
//!
//! Each expression of the language is listed exactly as its definition says, one row per form
//! (`form`, `value`). So are calls of special forms (`SPECIALS`), which the texts of built-in
//! functions have, each by its name with its node, the operations of `ja_graph` among them
//! (`special_forms_list_their_nodes`).
#![tactic(auto)]

mod call;
mod choice;
mod expression;
pub mod literal;
mod operator;
mod outcome;
pub mod reference;
mod special;
mod special_call;

pub use expression::{assign, form, value};
pub use outcome::Outcome;
pub use special::{SPECIALS, Special, special_forms_list_their_nodes, special_of};
