//! Reading certificates: from bytes to the program, the table and the visits that they have, or to
//! why they are none.
#![tactic(auto)]

mod certificate;
mod contexts;
mod devices;
mod edges;
mod items;
mod objects;
mod places;
mod points;
mod reading;
mod starts;
mod states;
mod tables;

pub use certificate::{CertFault, Certificate};
pub use reading::read;
