//! The lines of certificates that aren't accepted.

ghost use Rattle.std.specs.Prelude.{◌≡◌, ◌++◌, IfOk, OnOk};
ghost use lib.Chars.{codes};
ghost use Rattle.ja_report.specs.Refusals.{cert_refusal_text, open_text, refusal_text};

use crate::refusals::{Refusal, push_bytes, push_refusal};
use crate::sections::push_item;
use ja_base::Memory;
use ja_graph::Program;
use ja_rows::Item;
use std::alloc::Global;

/// Why a certificate isn't accepted, but for an item whose visit changes its table.
#[derive(Drop)]
pub enum CertRefusal {
    /// The bytes are no JSON (RFC 8259) of at most 127 levels.
    Json,
    /// The shape is wrong at this place first.
    Shape { item: Vec<u8> },
    /// The text in it is refused.
    Text(Refusal),
    /// The table in it lacks the opening.
    Opening,
}

/// Adds the line of a wrong shape.
fn push_shape(text: &mut Vec<u8>, item: &[u8]) -> Result<(), Memory>
    ensures { OnOk result (text.new.items ≡ text.old.items ++ codes "certificate shape " ++ item.now
        ++ codes "\n") }
{
    text.extend_from_slice(b"certificate shape ")?;
    text.extend_from_slice(item)?;
    text.push(b'\n')?;
    Ok(())
}

/// Adds the line of a text that is refused.
fn push_text(text: &mut Vec<u8>, refusal: Refusal) -> Result<(), Memory>
    ensures { OnOk result (text.new.items ≡ text.old.items
        ++ codes "certificate text " ++ refusal_text refusal) }
{
    text.extend_from_slice(b"certificate text ")?;
    push_refusal(text, refusal)
}

/// The line of a certificate that isn't accepted.
pub fn cert_refusal_text(alloc: Global, refusal: &CertRefusal) -> Result<Vec<u8>, Memory>
    ensures { IfOk result (λ text. text.items ≡ cert_refusal_text refusal.now) }
{
    let mut text = Vec::new(alloc);
    match refusal {
        CertRefusal::Json => push_bytes(&mut text, b"certificate json\n")?,
        CertRefusal::Shape { item } => push_shape(&mut text, item)?,
        CertRefusal::Text(refusal) => push_text(&mut text, *refusal)?,
        CertRefusal::Opening => push_bytes(&mut text, b"certificate opening\n")?,
    }
    Ok(text)
}

/// The line of a certificate with a table that a visit of this item changes first.
pub fn open_text(alloc: Global, program: &Program, item: Item) -> Result<Vec<u8>, Memory>
    ensures { IfOk result (λ text. text.items ≡ open_text program.now item) }
{
    let mut text = Vec::new(alloc);
    text.extend_from_slice(b"certificate open ")?;
    push_item(&mut text, program, item)?;
    Ok(text)
}
