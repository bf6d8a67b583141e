//! Lists of chosen length that share what they have in common: the heaps of the analyser stand on
//! them (`ja_aheap`).
//!
//! Contracts see a `Shared` as the list of its values. A fork is equal to its list, and after a
//! change of one of the two the other reads as before. A write changes one place; a join has at
//! each place what the join of its two values answered there, or what stood there (`Joined`), and
//! `all_with` tells whether a test holds of the values at each place of two lists (`SaysOfPlaces`).
//! After want of memory the list is as it was.
//!
//! A node that has one kid eight times knows it: a join and a test of two such nodes go through
//! that kid alone, so what both lists still have from when they were made costs a few steps a
//! level, however long it is. No contract says so.
//!
//! The nodes that are made are counted (`Steps`, `ArePaths`). Where d is the least number with
//! 8^(d + 1) at least the length, `new` and `set` make at most d + 1, `fork` none, and `join_with`
//! at most d + 1 for each place that it put, or after want of memory for each place of the list. No
//! contract says that nodes are shared: those that are made are counted, and no more.
#![tactic(auto)]

mod laws;
mod node;
mod shared;
mod steps;

pub use laws::nodes_by_length;
pub use shared::Shared;
pub use steps::Steps;
