//! The tokens of a program's text (ES3 section 7).
//!
//! `tokens` gives exactly the tokens of a text, with their places, as `specs/Tokens.antt` defines
//! them. Laws (`laws.rt`): a mark that is read is the longest of ES3 7.7 that the text begins with;
//! a decimal literal that is read is the longest that stands there; the spans of tokens stand in
//! order; and the list ends once, with the end of the text or a refusal.
#![tactic(auto)]

mod blanks;
mod characters;
mod cursor;
mod element;
mod item;
mod kept;
mod laws;
mod lexer;
mod marks;
mod numbers;
mod spot;
mod strings;
mod token;
mod words;

pub use laws::{decimals_are_longest, marks_are_longest, spans_are_in_order, texts_end_once};
pub use lexer::tokens;
pub use spot::Spot;
pub use token::{Token, TokenFault, TokenKind};
