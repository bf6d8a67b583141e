//! What the analysis finds, as it is, without a text.

ghost use Rattle.std.specs.Prelude.{◌≡◌, ◌≤◌, IfErr, IfOk, length};
ghost use Rattle.ja_lex.specs.Spots.{max_bytes};
ghost use Rattle.ja_device.specs.Signatures.{AreSignatures};
ghost use Rattle.ja_graph.specs.WellFormed.{IsWellFormed};
ghost use Rattle.ja_top.specs.Findings.{Finds, IsFoundIn, IsUnfoundIn, IsUnfound};
ghost use Rattle.ja_top.specs.Runs.{signatures_of};
ghost use Rattle.ja_top.specs.code.Solutions.{IsSolved};
ghost use Rattle.ja_top.specs.declared.finding.FindFault.TheVariants as fault;
ghost use Rattle.ja_words.specs.Words.{default_budget};

use ja_base::{Memory, Seq};
use ja_device::{Device, Devices};
use ja_graph::Program;
use ja_load::{LoadFault, load};
use ja_machine::never_stuck;
use ja_prim::Signature;
use ja_rows::Item;
use ja_solve::{SolveFault, Solved, solve};
use ja_table::ATable;
use ja_warn::{Told, told};
use ja_words::DEFAULT_BUDGET;
use std::alloc::Global;
use std::str;
use thiserror::Error;

/// What the analysis of a text finds: its program, the closed table, the visits that built it, and
/// its warnings, those of the text by line, column and kind, and those of the built-in functions
/// behind them, each with the values of what it is about and of its name.
#[derive(Drop)]
pub struct Findings {
    pub program: Program,
    pub table: ATable,
    pub visits: Seq<Item>,
    pub warnings: Seq<Told>,
}

/// Why a text isn't analysed.
#[derive(Clone, Copy, Debug, PartialEq, Eq, Error)]
pub enum FindFault {
    /// The bytes are no UTF-8: at this offset begins no character.
    #[error("no character begins at byte {offset}")]
    NotText { offset: usize },
    /// The text has no program, or memory was refused where it was read.
    #[error(transparent)]
    Load(LoadFault),
    /// 1,000,000 visits didn't close the table.
    #[error("1,000,000 visits are spent")]
    Spent,
    /// Memory was refused.
    #[error("memory was refused")]
    Memory,
}

impl From<Memory> for FindFault {
    ghost from_gives = { λ _ e. e ≡ fault.Memory };

    fn from(_: Memory) -> Self {
        FindFault::Memory
    }
}

impl From<LoadFault> for FindFault {
    ghost from_gives = { λ f e. e ≡ fault.Load f };

    fn from(fault: LoadFault) -> Self {
        FindFault::Load(fault)
    }
}

// What is found of a solved program.
fn findings_of(alloc: Global, program: Program, solved: Solved) -> Result<Findings, Memory>
    requires program { IsWellFormed program }
    requires solved { IsSolved program default_budget solved }
    ensures { IfOk result (IsFoundIn program) }
{
    let warnings = told(alloc, &program, &solved.table)?;
    never_stuck();
    let Solved { table, visits } = solved;
    Ok(Findings {
        program,
        table,
        visits,
        warnings,
    })
}

// Solves a program.
fn find_in(alloc: Global, program: Program) -> Result<Findings, FindFault>
    requires { IsWellFormed program }
    ensures found { IfOk result (IsFoundIn program) }
    ensures fault { IfErr result (IsUnfoundIn program) }
{
    match solve(alloc, &program, DEFAULT_BUDGET) {
        Ok(solved) => {
            let findings = findings_of(alloc, program, solved)?;
            Ok(findings)
        }
        Err(SolveFault::Spent { .. }) => Err(FindFault::Spent),
        Err(SolveFault::Memory) => Err(FindFault::Memory),
    }
}

// Analyses a text.
fn find_in_text(alloc: Global, text: &str, signatures: &[Signature]) -> Result<Findings, FindFault>
    requires text { length text.now ≤ max_bytes }
    requires devices { AreSignatures signatures.now }
    ensures found { IfOk result (Finds text.now signatures.now) }
    ensures fault { IfErr result (IsUnfound text.now signatures.now) }
{
    let program = load(alloc, text, signatures)?;
    find_in(alloc, program)
}

/// Analyses the bytes of a text, at most [`MAX_BYTES`](crate::MAX_BYTES) of them, as a program that
/// may call these devices, and says what is found, without a report. None of the devices is asked.
///
/// The warnings are those that the report would have: an operation that goes wrong in some run is
/// among them, and after any steps of a run its state is in the meaning of the table's.
///
/// # Errors
///
/// `NotText` exactly where the bytes aren't UTF-8, `Load` where they have no program, `Spent` where
/// 1,000,000 visits didn't close the table, and `Memory` where memory is refused.
pub fn find<D: Device>(
    alloc: Global,
    bytes: &[u8],
    devices: &Devices<D>,
) -> Result<Findings, FindFault>
    requires { length bytes.now ≤ max_bytes }
    ensures found { IfOk result (Finds bytes.now (signatures_of devices.now)) }
    ensures fault { IfErr result (IsUnfound bytes.now (signatures_of devices.now)) }
{
    match str::from_utf8(bytes) {
        Ok(text) => {
            let signatures = devices.signatures(alloc)?;
            find_in_text(alloc, text, signatures.as_slice())
        }
        Err(error) => Err(FindFault::NotText {
            offset: error.valid_up_to(),
        }),
    }
}
