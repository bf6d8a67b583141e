//! Listings: the nodes of a function in order, with jumps and the spots to which they lead and
//! copies of blocks, and the graph that they come to.
//!
//! Lines come to exactly the block of their definition (`block_of`), and a listing to its graph
//! (`assembled`). Laws (`laws.rt`): nodes, their places and their order are kept; a jump leads to
//! what stands behind its spot, also back, and also to a jump; the nodes of a copy lead as those of
//! its block: to one another, to a spot around it, or behind it; where a listing ends with Escape
//! so does the graph, and each edge leads to a node.
#![tactic(auto)]

mod edges;
mod facts;
mod item;
pub mod laws;
mod passes;
mod spots;

pub use edges::{assembled, block_of};
pub use facts::goes_on;
pub use item::{Block, BlockNode, Item, Spot, Target};
