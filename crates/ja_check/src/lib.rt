//! Tables that were read, as from a certificate: whether one is closed, and whether visits built
//! it.
//!
//! `check` tests each item of a table, in the order of `items`. Where each is settled the table is
//! closed, so that it covers every run of its program; else it tells the first item whose visit
//! would change it. The table stays as it is. `built` follows the visits of a list from the opening
//! table, and compares what they come to with a table. A table need only be in order and of its
//! program (`FitsListed`): what stands in it is tested, and nothing of it is believed.
#![tactic(auto)]

mod checking;
mod fault;
mod following;
mod same_contexts;
mod same_tables;
mod states;
mod table_items;

pub use checking::check;
pub use fault::CheckFault;
pub use following::built;
pub use table_items::items;
