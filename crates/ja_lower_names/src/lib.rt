//! The functions and the names of a text, in its order.
//!
//! The functions and the names of a text, in its order (`functions_in`, `names_in`), and the number
//! of a name (`Names`), by their definitions.
#![tactic(auto)]

mod names;
mod text_order;
mod text_order_parts;

pub use names::Names;
pub use text_order::{functions_in, names_in};
pub use text_order_parts::Named;
