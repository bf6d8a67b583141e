//! The answer of the check of a certificate to bytes.

ghost use Rattle.std.specs.Prelude.{◌≤◌, IfOk, length};
ghost use Rattle.ja_graph.specs.WellFormed.{IsWellFormed};
ghost use Rattle.ja_lex.specs.Spots.{max_bytes};
ghost use Rattle.ja_table.specs.Tables.{table_of, Fits, FitsListed};
ghost use Rattle.ja_rows.specs.Table.{IsClosed};
ghost use Rattle.ja_top.specs.Checks.{Checks};
ghost use Rattle.ja_top.specs.code.Checking.{IsAcceptance, IsJudgement};

use crate::analysis::judged;
use crate::answer::Answer;
use crate::refusing::{explain_certificate, explain_item, explain_opening, refuse};
use ja_base::Memory;
use ja_cert_read::{Certificate, read};
use ja_check::{CheckFault, built, check as check_table};
use ja_graph::Program;
use ja_machine::never_stuck;
use ja_report::{Refusal, report};
use ja_rows::Item;
use ja_sound::closed_covers;
use ja_table::ATable;
use ja_warn::warnings;
use std::alloc::Global;
use std::str;

// The report of a closed table.
fn accept(
    alloc: Global,
    program: &Program,
    table: &ATable,
    visits: &[Item],
) -> Result<Answer, Memory>
    requires program { IsWellFormed program.now }
    requires fits { Fits program.now table.now }
    requires closed { IsClosed program.now (table_of table.now) }
    ensures { IfOk result (IsAcceptance program.now (table_of table.now) visits.now) }
{
    let is_built = built(alloc, program, visits, table)?;
    let warnings = warnings(alloc, program, table)?;
    let text = report(alloc, program, table, visits, is_built, warnings.as_slice())?;
    let status = judged(warnings.as_slice());
    closed_covers();
    never_stuck();
    Ok(Answer { status, text })
}

// The answer to a certificate.
fn judge(alloc: Global, certificate: Certificate) -> Result<Answer, Memory>
    requires program { IsWellFormed certificate.program }
    requires fits { FitsListed certificate.program certificate.table }
    ensures { IfOk result (IsJudgement certificate) }
{
    let Certificate {
        program,
        table,
        visits,
    } = certificate;
    match check_table(alloc, &program, &table) {
        Ok(()) => accept(alloc, &program, &table, &visits),
        Err(CheckFault::NotOpen) => explain_opening(alloc),
        Err(CheckFault::NotClosed { item }) => explain_item(alloc, &program, item),
        Err(CheckFault::Memory) => Err(Memory),
    }
}

// Checks a text.
fn check_text(alloc: Global, text: &str) -> Result<Answer, Memory>
    requires { length text.now ≤ max_bytes }
    ensures { IfOk result (λ a. Checks text.now a.status a.text.items) }
{
    match read(alloc, text) {
        Ok(certificate) => judge(alloc, certificate),
        Err(fault) => explain_certificate(alloc, fault),
    }
}

/// Checks the bytes of a certificate, at most [`MAX_BYTES`](crate::MAX_BYTES) of them: whether the
/// table in it is closed. Nothing in it is trusted, and no device is needed.
///
/// The status is `Done` or `Warned` with the report of the table, without or with warnings;
/// `CertRefused` with a line where the bytes are no JSON (RFC 8259), have another shape, a text
/// without a program, or a table that isn't closed; and `NotText` where they aren't UTF-8.
///
/// # Errors
///
/// `Memory` where memory is refused.
pub fn check(alloc: Global, bytes: &[u8]) -> Result<Answer, Memory>
    requires { length bytes.now ≤ max_bytes }
    ensures { IfOk result (λ a. Checks bytes.now a.status a.text.items) }
{
    match str::from_utf8(bytes) {
        Ok(text) => check_text(alloc, text),
        Err(error) => {
            let offset = error.valid_up_to();
            refuse(alloc, Refusal::NotText { offset })
        }
    }
}
