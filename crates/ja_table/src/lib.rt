//! Tables of abstract states: for each context that is reached the states at the nodes of its
//! function and the values at its entry, and the call edges between them; and what the opening heap
//! of a program has (`opening_heap.rt`). Contexts and edges are kept in order (`table.rt`); a table
//! of parts that come from anywhere is tested for it (`parts.rt`). Visits, and what they join in,
//! are in `ja_rules`.
#![tactic(auto)]

mod opening_heap;
mod parts;
mod states;
mod table;

pub use opening_heap::opened;
pub use states::is_leq;
pub use table::{ATable, CallEdge, ContextTable, NodeTable, node_info, opening, own_context};
