//! The grammar of programs (ES3 sections 11 to 14, with semicolons inserted by 7.9): what a text of
//! the language is, and where any other text is refused.
//!
//! Definitions and laws alone. The public laws (`laws.rt`): two refusals of one text that say why
//! are the same, one kind and one place (`refused_once`); no text that is refused is of the
//! language (`refused_is_none`); and of nine texts which refusal it is (`these_are_right`), and of
//! some that it is no other (`others_are_wrong`).
//!
//! The laws that the parser cites are in `proofs/`: what is read is related and what is related is
//! read, so a text has one tree; a text is refused at the first token with which none goes on, and
//! by the rule that stands in the way; trees keep the rules.
#![tactic(auto)]

mod context;
mod fault;
mod laws;
mod part;

pub use context::{Context, Label};
pub use fault::{ParseFault, Refusal, Stop};
pub use laws::{others_are_wrong, refused_is_none, refused_once, these_are_right};
pub use part::{ExpressionPart, StatementPart};
