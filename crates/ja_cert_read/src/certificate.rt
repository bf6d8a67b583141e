//! What a certificate has, and why bytes are none.

ghost use Rattle.std.specs.Prelude.{◌≡◌};
ghost use Rattle.ja_cert_read.specs.declared.certificate.CertFault.TheVariants as fault;

use ja_base::Memory;
use ja_graph::Program;
use ja_load::LoadFault;
use ja_rows::Item;
use ja_table::ATable;
use thiserror::Error;

/// A program with a table and visits, as they stand in a certificate. Nothing says that the table
/// is closed, or that the visits build it.
#[derive(Drop)]
pub struct Certificate {
    pub program: Program,
    pub table: ATable,
    pub visits: Vec<Item>,
}

/// Why bytes are no certificate.
#[derive(Debug, Drop, Error)]
pub enum CertFault {
    /// They are no JSON (RFC 8259) of at most 127 levels.
    #[error("no JSON")]
    Json,
    /// The shape is wrong at this place first: names of members and positions of lists from 0, with
    /// points between them, or `all` for the whole.
    #[error("wrong shape")]
    Shape { item: Vec<u8> },
    /// The text in it has no program.
    #[error("no program")]
    Load(LoadFault),
    /// Memory was refused.
    #[error("memory was refused")]
    Memory,
}

impl From<Memory> for CertFault {
    ghost from_gives = { λ _ e. e ≡ fault.Memory };

    fn from(_: Memory) -> Self {
        CertFault::Memory
    }
}
