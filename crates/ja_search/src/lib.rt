//! Where a text stands in another, in steps linear in both (Knuth, Morris and Pratt, 1977).
//!
//! `first_in` and `last_in` are their definitions (`ja_prim/specs/Search.antt`), which look at each
//! place in turn. Want of memory alone is free.
#![tactic(auto)]

mod search;

pub use search::{first_in, last_in};
