//! Why there is no answer.

ghost use Rattle.std.specs.Prelude.{◌≡◌, ℕ, List, IfOk};
ghost use Rattle.std.specs.Str.{IsUtf8};
ghost use Rattle.ja_cert_read.specs.Certified.{IsNoCertificate};
ghost use Rattle.ja_load.specs.Loading.{HasNone};
ghost use Rattle.ja_prim.specs.declared.signature.Signature.{Signature};
ghost use Rattle.ja_report.specs.declared.certificates.CertRefusal.TheVariants as certificate;
ghost use Rattle.ja_top.specs.Analyses.{Refuses};
ghost use Rattle.ja_top.specs.Checks.{Checks};
ghost use Rattle.ja_top.specs.Statuses.{refusal_of};
ghost use Rattle.ja_top.specs.code.Statuses.{status_of_refusal};
ghost use Rattle.ja_top.specs.code.Solutions.{IsCertRefusal, IsOpenRefusal, IsRefusal};

use crate::answer::Answer;
use crate::status::Status;
use ja_base::Memory;
use ja_cert_read::CertFault;
use ja_grammar::ParseFault;
use ja_graph::Program;
use ja_load::LoadFault;
use ja_report::{CertRefusal, Refusal, cert_refusal_text, open_text, refusal_text};
use ja_rows::Item;
use std::alloc::Global;

/// The status of a refusal.
fn status_of(refusal: Refusal) -> Status
    ensures { result ≡ status_of_refusal refusal }
{
    match refusal {
        Refusal::Usage => Status::Usage,
        Refusal::ReadFault => Status::ReadFault,
        Refusal::TooLong => Status::TooLong,
        Refusal::NotText { .. } => Status::NotText,
        Refusal::Syntax { .. } => Status::Syntax,
        Refusal::Scope { .. } => Status::Scope,
        Refusal::Depth | Refusal::Functions | Refusal::Nodes => Status::Limit,
    }
}

/// A refusal, with its status and its line.
pub(crate) fn refuse(alloc: Global, refusal: Refusal) -> Result<Answer, Memory>
    ensures { IfOk result (λ a. IsRefusal a refusal) }
{
    let status = status_of(refusal);
    let text = refusal_text(alloc, refusal)?;
    Ok(Answer { status, text })
}

/// The refusal of a text that has no program. Of want of memory, and of too many names, there is
/// none.
fn refusal_of(fault: LoadFault) -> Option<Refusal>
    ensures { result ≡ refusal_of fault }
{
    match fault {
        LoadFault::Parse(ParseFault::Syntax { place }) => Some(Refusal::Syntax { place }),
        LoadFault::Parse(ParseFault::Scope { kind, place }) => Some(Refusal::Scope { kind, place }),
        LoadFault::Parse(ParseFault::Depth { .. }) => Some(Refusal::Depth),
        LoadFault::Functions => Some(Refusal::Functions),
        LoadFault::Nodes => Some(Refusal::Nodes),
        // no status has too many names as its cause: see docs/DECISIONS.md
        LoadFault::Parse(ParseFault::Memory) | LoadFault::Names => None,
    }
}

/// Says why a text has no program, to be analysed or to be run.
#[tactic(auto, using(crate::proofs::Reporting::refuses))]
pub(crate) fn explain(alloc: Global, fault: LoadFault) -> Result<Answer, Memory>
    ensures { IfOk result (λ a. (bytes : List ℕ) (signatures : List Signature)
        → HasNone bytes signatures fault → Refuses bytes signatures a.status a.text.items) }
{
    match refusal_of(fault) {
        Some(refusal) => refuse(alloc, refusal),
        None => Err(Memory),
    }
}

/// A certificate that isn't accepted, with its line.
fn refuse_certificate(alloc: Global, refusal: &CertRefusal) -> Result<Answer, Memory>
    ensures { IfOk result (λ a. IsCertRefusal a refusal.now) }
{
    let text = cert_refusal_text(alloc, refusal)?;
    Ok(Answer {
        status: Status::CertRefused,
        text,
    })
}

/// Says that the table of a certificate lacks the opening.
pub(crate) fn explain_opening(alloc: Global) -> Result<Answer, Memory>
    ensures { IfOk result (λ a. IsCertRefusal a certificate.Opening) }
{
    refuse_certificate(alloc, &CertRefusal::Opening)
}

/// Says that a visit of this item is the first that changes the table of a certificate.
pub(crate) fn explain_item(alloc: Global, program: &Program, item: Item) -> Result<Answer, Memory>
    ensures { IfOk result (IsOpenRefusal program.now item) }
{
    let text = open_text(alloc, program, item)?;
    Ok(Answer {
        status: Status::CertRefused,
        text,
    })
}

/// Says why bytes are no certificate.
pub(crate) fn explain_certificate(alloc: Global, fault: CertFault) -> Result<Answer, Memory>
    ensures { IfOk result (λ a. (bytes : List ℕ) → IsUtf8 bytes → IsNoCertificate bytes fault
        → Checks bytes a.status a.text.items) }
{
    match fault {
        CertFault::Json => refuse_certificate(alloc, &CertRefusal::Json),
        CertFault::Shape { item } => refuse_certificate(alloc, &CertRefusal::Shape { item }),
        CertFault::Load(fault) => match refusal_of(fault) {
            Some(refusal) => refuse_certificate(alloc, &CertRefusal::Text(refusal)),
            None => Err(Memory),
        },
        CertFault::Memory => Err(Memory),
    }
}
