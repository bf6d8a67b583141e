//! The answer of the analysis to bytes.

ghost use Rattle.std.specs.Prelude.{◌≡◌, ◌≤◌, IfOk, length};
ghost use Rattle.ja_lex.specs.Spots.{max_bytes};
ghost use Rattle.ja_device.specs.Signatures.{AreSignatures};
ghost use Rattle.ja_graph.specs.WellFormed.{IsWellFormed};
ghost use Rattle.ja_solve.specs.Solving.{WasSpent};
ghost use Rattle.ja_table.specs.Tables.{table_of, Fits};
ghost use Rattle.ja_top.specs.Analyses.{result_text, visits_of, Analyses, Reports};
ghost use Rattle.ja_top.specs.Runs.{signatures_of};
ghost use Rattle.ja_top.specs.Statuses.{has_fault, is_fault};
ghost use Rattle.ja_top.specs.code.Statuses.{status_of};
ghost use Rattle.ja_top.specs.code.Solutions.{IsSolved};

use crate::answer::Answer;
use crate::refusing::{explain, refuse};
use crate::request::{Form, Request};
use crate::status::Status;
use ja_base::{Memory, Seq};
use ja_cert::write;
use ja_device::{Device, Devices};
use ja_graph::Program;
use ja_height::height;
use ja_load::load;
use ja_machine::never_stuck;
use ja_prim::Signature;
use ja_report::{Refusal, report, spent_text, summary_text};
use ja_rows::{Item, Warning, WarningKind};
use ja_solve::{SolveFault, Solved, solve};
use ja_warn::warnings;
use ja_words::Budget;
use std::alloc::Global;
use std::str;

/// Whether a warning is of a type fault: the read of a property that is out of the profile is none.
pub fn is_fault(warning: &Warning) -> bool
    ensures { result ≡ is_fault warning.now.kind }
{
    match warning.kind {
        WarningKind::NotAFunction | WarningKind::NoObject | WarningKind::UnboundName => true,
        WarningKind::ScopeRow => false,
    }
}

/// Whether a warning of a type fault is among some.
fn has_fault(warnings: &[Warning]) -> bool
    ensures { result ≡ has_fault warnings.now }
{
    warnings.iter().any(|warning| is_fault(warning))
}

/// Done where there is no warning of a fault.
pub(crate) fn judged(warnings: &[Warning]) -> Status
    ensures { result ≡ status_of warnings.now }
{
    if has_fault(warnings) {
        Status::Warned
    } else {
        Status::Done
    }
}

// What is written of a solved program.
fn text_of(
    alloc: Global,
    program: &Program,
    solved: &Solved,
    form: Form,
    warnings: &[Warning],
) -> Result<Vec<u8>, Memory>
    requires program { IsWellFormed program.now }
    requires devices { AreSignatures program.now.signatures }
    requires fits { Fits program.now solved.now.table }
    ensures { IfOk result (λ text. text.items ≡ result_text form program.now
        (table_of solved.now.table) solved.now.visits warnings.now) }
{
    let visits = solved.visits.as_slice();
    match form {
        Form::Report => report(alloc, program, &solved.table, visits, true, warnings),
        Form::Certificate => write(alloc, program, &solved.table, visits),
        Form::Summary { number } => summary_text(alloc, number, program, &solved.table, warnings),
    }
}

// The answer of a solved program.
fn report_of(
    alloc: Global,
    program: &Program,
    solved: &Solved,
    request: Request,
    budget: u128,
) -> Result<Answer, Memory>
    requires program { IsWellFormed program.now }
    requires devices { AreSignatures program.now.signatures }
    requires budget { budget ≡ visits_of program.now request.budget }
    requires solved { IsSolved program.now budget solved.now }
    ensures { IfOk result (λ a. Reports request program.now a.status a.text.items) }
{
    let warnings = warnings(alloc, program, &solved.table)?;
    let text = text_of(alloc, program, solved, request.form, warnings.as_slice())?;
    let status = judged(warnings.as_slice());
    never_stuck();
    Ok(Answer { status, text })
}

// The answer of a program whose budget is spent, with these visits.
fn spent_of(
    alloc: Global,
    program: &Program,
    visits: &Seq<Item>,
    request: Request,
    budget: u128,
) -> Result<Answer, Memory>
    requires program { IsWellFormed program.now }
    requires devices { AreSignatures program.now.signatures }
    requires budget { budget ≡ visits_of program.now request.budget }
    requires spent { WasSpent program.now budget visits.now }
    ensures { IfOk result (λ a. Reports request program.now a.status a.text.items) }
{
    let text = spent_text(alloc, program, visits.as_slice())?;
    Ok(Answer {
        status: Status::Spent,
        text,
    })
}

// How many visits a budget allows the analysis of a program.
fn visits_of(program: &Program, budget: Budget) -> u128
    requires { IsWellFormed program.now }
    ensures { result ≡ visits_of program.now budget }
{
    match budget {
        Budget::Visits(number) => number,
        Budget::Height => height(program),
    }
}

// Solves a program, and reports on it.
fn solve_and_report(alloc: Global, program: &Program, request: Request) -> Result<Answer, Memory>
    requires program { IsWellFormed program.now }
    requires devices { AreSignatures program.now.signatures }
    ensures { IfOk result (λ a. Reports request program.now a.status a.text.items) }
{
    let budget = visits_of(program, request.budget);
    match solve(alloc, program, budget) {
        Ok(solved) => report_of(alloc, program, &solved, request, budget),
        Err(SolveFault::Spent { visits }) => spent_of(alloc, program, &visits, request, budget),
        Err(SolveFault::Memory) => Err(Memory),
    }
}

// Analyses a text.
#[tactic(auto, using(crate::proofs::Reporting::analyses))]
fn analyse_text(
    alloc: Global,
    text: &str,
    signatures: &[Signature],
    request: Request,
) -> Result<Answer, Memory>
    requires text { length text.now ≤ max_bytes }
    requires devices { AreSignatures signatures.now }
    ensures { IfOk result (λ a. Analyses request text.now signatures.now a.status a.text.items) }
{
    match load(alloc, text, signatures) {
        Ok(program) => {
            let answer = solve_and_report(alloc, &program, request)?;
            Ok(answer)
        }
        Err(fault) => explain(alloc, fault),
    }
}

/// Analyses the bytes of a text, at most [`MAX_BYTES`](crate::MAX_BYTES) of them, as a program that
/// may call these devices. None is asked.
///
/// The status is `Done` or `Warned` with a report, a certificate or a summary, without or with a
/// warning of a fault;
/// `Spent` with the visits where the budget's visits didn't close the table; and `NotText`,
/// `Syntax`, `Scope` or `Limit` with the line of a refusal where the bytes aren't UTF-8, no program
/// (ES3 11 to 14), out of the profile, or past a limit.
///
/// # Errors
///
/// `Memory` where memory is refused.
pub fn analyse<D: Device>(
    alloc: Global,
    bytes: &[u8],
    devices: &Devices<D>,
    request: Request,
) -> Result<Answer, Memory>
    requires { length bytes.now ≤ max_bytes }
    ensures { IfOk result
        (λ a. Analyses request bytes.now (signatures_of devices.now) a.status a.text.items) }
{
    match str::from_utf8(bytes) {
        Ok(text) => {
            let signatures = devices.signatures(alloc)?;
            analyse_text(alloc, text, signatures.as_slice(), request)
        }
        Err(error) => {
            let offset = error.valid_up_to();
            refuse(alloc, Refusal::NotText { offset })
        }
    }
}
