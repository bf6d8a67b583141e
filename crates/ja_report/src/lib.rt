//! What the program prints: reports, the visits of a spent budget, the summary of a generated
//! program, and refusals, of certificates too, as texts to the byte.
//!
//! Exactly the report, the visits, the summary and the refusals of their definitions, to the byte
//! (`report`, `spent_text`, `summary_text`, `refusal_text`, `cert_refusal_text`, `open_text`), and
//! parts of a report by themselves (`value_text`, `kind_text`, `certainty_text`).
#![tactic(auto)]

mod certificates;
mod lines;
mod naming;
mod output;
mod refusals;
mod sections;
mod table;
mod texts;
mod values;
mod whole;

pub use certificates::{CertRefusal, cert_refusal_text, open_text};
pub use lines::{is_entry, is_undefined, register_count};
pub use refusals::{Refusal, refusal_text};
pub use sections::{certainty_text, kind_text};
pub use table::{all_keys, name_count};
pub use values::{site_count, value_text};
pub use whole::{report, spent_text, summary_text};
