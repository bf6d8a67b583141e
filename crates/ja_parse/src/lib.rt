//! Reads a text into its tree (ES3 sections 7 and 11 to 14), or says where and why it is refused.
//!
//! `parse` gives a tree exactly where the text has one: the one tree that the grammar relates to
//! its tokens, which keeps the rules on trees. Any other text is refused as its definition
//! determines: with one kind and one place. Want of memory is the one free answer.
#![tactic(auto)]

mod reader;

pub use reader::{parse, read};
