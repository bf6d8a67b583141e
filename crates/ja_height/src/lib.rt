//! The height of a program: how many visits can change a table of it.
//!
//! Proved: `height` is the number of the definition (`specs/Height.antt`), without memory; and a
//! list of visits that builds a table is at most that long, and where it is as long, has closed it
//! (`built_lists_are_short`). So a budget of that many visits is never spent.
//!
//! How: a table has a rank, the sum of the ranks of what it has (`Tables`, over `States`, `More`
//! and `Sums`). A visit that changes a table raises it (`Counted`): a table grows (`Grows`), and
//! where its rank doesn't rise, it had before all that it has then. No rank is above the height,
//! since visits speak of labels, keys and registers of the program alone (`OfVisits`, over the
//! rows).
#![tactic(auto)]

mod bound;
mod heights;

pub use bound::height;
pub use heights::{built_lists_are_short, heights_of_small_programs};
