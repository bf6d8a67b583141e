//! Reading certificates.

ghost use Rattle.std.specs.Prelude.{◌≡◌, ◌≤◌, Some, IfOk, IfErr, length};
ghost use Rattle.std.specs.List.{AllByRecursion};
ghost use Rattle.serde_json.specs.Data.{string};
ghost use Rattle.serde_json.specs.Read.{read as read_bytes};
ghost use Rattle.ja_cert_json.specs.View.{view};
ghost use Rattle.ja_lex.specs.Spots.{max_bytes};
ghost use Rattle.ja_device.specs.Signatures.{AreSignatures};
ghost use Rattle.ja_graph.specs.WellFormed.{IsWellFormed};
ghost use Rattle.ja_load.specs.Loading.{IsProgramOf};
ghost use Rattle.ja_cert_read.specs.Certified.{IsCertificate, IsNoCertificate};
ghost use Rattle.ja_cert.specs.Wrong.{here_unless, is_text, is_version, is_word, late_fields_wrong, wrong_before_loading};
ghost use Rattle.ja_cert_read.specs.code.Contexts.{AreTablesOf, IsContextAt};
ghost use Rattle.ja_cert_parts.specs.code.Reading.{Reads};
ghost use Rattle.ja_cert_read.specs.code.Whole.{data_in, IsBodyOf, IsHeadOf, IsUnloaded, IsUnread};

use crate::certificate::{CertFault, Certificate};
use crate::contexts::ContextAt;
use crate::devices::Devices;
use crate::edges::Among;
use crate::items::Visits;
use crate::places::told;
use crate::tables::tables_of;
use ja_base::Memory;
use ja_cert_json::{Json, JsonFault, read as read_text};
use ja_cert_parts::{Fault, InProgram, here, here_unless, read_list, six_members, under};
use ja_grammar::ParseFault;
use ja_graph::Program;
use ja_load::{LoadFault, load};
use ja_prim::Signature;
use ja_rows::Item;
use ja_table::{ATable, CallEdge};
use std::alloc::Global;

/// The most bytes that the text of a program may have.
const MAX_BYTES: usize = 16_777_216;

/// The members of a certificate.
const CERTIFICATE_KEYS: [&str; 6] = ["contexts", "devices", "edges", "text", "version", "visits"];

/// What is seen before the text is loaded: text and devices, and what else is there.
#[derive(Drop)]
pub(crate) struct Head<'a> {
    pub text: &'a str,
    pub signatures: Vec<Signature>,
    pub contexts: &'a Json,
    pub edges: &'a Json,
    pub visits: &'a Json,
}

/// What is seen with the program.
#[derive(Drop)]
pub(crate) struct Body {
    pub contexts: Vec<ContextAt>,
    pub edges: Vec<CallEdge>,
    pub visits: Vec<Item>,
}

/// Reads JSON.
fn read_json(alloc: Global, text: &str) -> Result<Json, CertFault>
    ensures data { IfOk result (λ value. read_bytes text.now ≡ Some (view value)) }
    ensures fault { IfErr result (IsUnread text.now) }
{
    match read_text(alloc, text) {
        Ok(value) => Ok(value),
        Err(JsonFault::Json) => Err(CertFault::Json),
        Err(JsonFault::Memory) => Err(CertFault::Memory),
    }
}

/// Whether a value is the version's number.
fn is_version(value: &Json) -> bool
    ensures { result ≡ is_version (view value.now) }
{
    match value.as_u64() {
        Some(number) => number == 1,
        None => false,
    }
}

/// Reads the text of a program.
fn read_source(alloc: Global, value: &Json) -> Result<&str, Fault>
    ensures { Reads (here_unless (is_word is_text (view value.now)))
        (λ text. (string text.now ≡ view value.now) × (length text.now ≤ max_bytes)) result }
{
    match value.as_str() {
        Some(text) if text.len() <= MAX_BYTES => Ok(text),
        _ => Err(here(alloc)),
    }
}

/// Reads what is seen before the text is loaded.
fn read_head(alloc: Global, value: &Json) -> Result<Head<'_>, Fault>
    ensures { Reads (wrong_before_loading (view value.now)) (IsHeadOf (view value.now)) result }
{
    let whole = six_members(alloc, &CERTIFICATE_KEYS, value)?;
    under(here_unless(alloc, is_version(whole.fifth)), "version")?;
    let text = under(read_source(alloc, whole.fourth), "text")?;
    let signatures = under(
        read_list(alloc, &Devices { alloc }, whole.second),
        "devices",
    )?;
    Ok(Head {
        text,
        signatures,
        contexts: whole.first,
        edges: whole.third,
        visits: whole.sixth,
    })
}

/// Loads the program.
fn load_program(alloc: Global, head: &Head<'_>) -> Result<Program, CertFault>
    requires text { length head.now.text.now ≤ max_bytes }
    requires devices { AreSignatures head.now.signatures.items }
    ensures program { IfOk result (IsProgramOf head.now.text.now head.now.signatures.items) }
    ensures well_formed { IfOk result IsWellFormed }
    ensures signatures { IfOk result (λ p. p.signatures ≡ head.now.signatures.items) }
    ensures fault { IfErr result (IsUnloaded head.now.text.now head.now.signatures.items) }
{
    match load(alloc, head.text, &head.signatures) {
        Ok(program) => Ok(program),
        Err(LoadFault::Parse(ParseFault::Memory)) => Err(CertFault::Memory),
        Err(fault) => Err(CertFault::Load(fault)),
    }
}

/// Reads what is seen with the program.
fn read_body(alloc: Global, program: &Program, head: &Head<'_>) -> Result<Body, Fault>
    requires { IsWellFormed program.now }
    ensures { Reads (late_fields_wrong program.now (data_in head.now))
        (IsBodyOf program.now head.now) result }
{
    let within = InProgram { alloc, program };
    let contexts: Vec<ContextAt> = under(read_list(alloc, &within, head.contexts), "contexts")?;
    let among = Among {
        alloc,
        program,
        contexts: &contexts,
    };
    let edges = under(read_list(alloc, &among, head.edges), "edges")?;
    let visits = under(
        read_list(alloc, &Visits { alloc, program }, head.visits),
        "visits",
    )?;
    Ok(Body {
        contexts,
        edges,
        visits,
    })
}

/// The table of contexts and edges.
fn table_with(
    alloc: Global,
    program: &Program,
    contexts: Vec<ContextAt>,
    edges: Vec<CallEdge>,
) -> Result<ATable, Memory>
    requires program { IsWellFormed program.now }
    requires right { AllByRecursion (IsContextAt program.now) contexts.items }
    ensures contexts { IfOk result (λ t. AreTablesOf program.now contexts.items t.contexts.items) }
    ensures edges { IfOk result (λ t. t.edges ≡ edges) }
{
    let contexts = tables_of(alloc, program, contexts)?;
    Ok(ATable { contexts, edges })
}

/// Reads a certificate: its program, and the table and the visits that are listed. Nothing is
/// tested of the table but that its numbers are those of the program, and that it is in order.
///
/// # Errors
///
/// `Json` exactly where the text is no JSON (RFC 8259) of at most 127 levels; else `Shape` with the
/// first place that isn't as in a certificate, where it is seen before the text in it is loaded;
/// else `Load` where that has no program; else `Shape` with the first place that isn't as in a
/// certificate of the program. `Memory` where memory is refused.
pub fn read(alloc: Global, text: &str) -> Result<Certificate, CertFault>
    ensures ok { IfOk result (IsCertificate text.now) }
    ensures well_formed { IfOk result (λ certificate. IsWellFormed certificate.program) }
    ensures fault { IfErr result (IsNoCertificate text.now) }
{
    let value = read_json(alloc, text)?;
    let head = match read_head(alloc, &value) {
        Ok(head) => head,
        Err(fault) => return Err(told(alloc, fault)),
    };
    let program = load_program(alloc, &head)?;
    let Body {
        contexts,
        edges,
        visits,
    } = match read_body(alloc, &program, &head) {
        Ok(body) => body,
        Err(fault) => return Err(told(alloc, fault)),
    };
    let table = table_with(alloc, &program, contexts, edges)?;
    Ok(Certificate {
        program,
        table,
        visits,
    })
}
