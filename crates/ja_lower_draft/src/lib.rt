//! The listing of a function as it is written: its lines, its registers and spots, and copies of
//! blocks.
//!
//! The lines of a listing are those of its definition as they are added (`Draft`), with copies of
//! blocks, which are written out last. A copy of the block of a `finally` has its nodes at the same
//! places, with the block's temporaries moved up behind a register, every other register as it was,
//! and the block's edges; a block that does nothing has no copies, and lines come to the same graph
//! as with them (`laws.rt`).
#![tactic(auto)]

pub mod conversion;
mod draft;
pub mod laws;
mod listed;
mod moves;
mod moving;
mod part;
mod scene;
mod template;

pub use draft::Draft;
pub use scene::Scene;
pub use template::Template;
