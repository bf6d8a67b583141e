//! How a wrong place is told.

ghost use Rattle.std.specs.Prelude.{◌≡◌, ◌++◌, Option, IfOk, OnOk};
ghost use Rattle.std.specs.List.{flat_map};
ghost use Rattle.ja_cert_read.specs.Certified.{item_text};
ghost use Rattle.ja_cert.specs.Wrong.{Path};
ghost use Rattle.ja_cert_parts.specs.code.Reading.{path_of, Tells};
ghost use Rattle.ja_cert_read.specs.code.Whole.{stopped, IsToldAs};

use crate::certificate::CertFault;
use ja_base::Memory;
use ja_cert_parts::{Fault, Step};
use ja_texts::push_number;
use std::alloc::Global;

/// Writes a step and a point.
#[tactic(auto, unfolding(crate::specs::code::Whole::stopped))]
fn push_step(text: &mut Vec<u8>, step: Step) -> Result<(), Memory>
    ensures { OnOk result (text.new.items ≡ text.old.items ++ stopped step) }
{
    match step {
        Step::Key(name) => text.extend_from_slice(name.as_bytes())?,
        Step::At(position) => push_number(text, position as u64)?,
    }
    text.push(b'.')?;
    Ok(())
}

/// Writes steps, with a point behind each.
fn push_steps(text: &mut Vec<u8>, steps: &[Step]) -> Result<(), Memory>
    ensures { OnOk result (text.new.items ≡ text.old.items ++ flat_map stopped steps.now) }
{
    for step in steps {
        push_step(text, *step)?;
    }
    Ok(())
}

/// The text of a place, whose steps stand here from inside to outside.
fn item_text(alloc: Global, mut steps: Vec<Step>) -> Result<Vec<u8>, Memory>
    ensures { IfOk result (λ text. text.items ≡ item_text (path_of steps.items)) }
{
    steps.reverse();
    let mut text = Vec::new(alloc);
    push_steps(&mut text, &steps)?;
    match text.pop() {
        Some(_) => Ok(text),
        None => {
            text.extend_from_slice(b"all")?;
            Ok(text)
        }
    }
}

/// What is told of a wrong place.
pub(crate) fn told(alloc: Global, fault: Fault) -> CertFault
    ensures { (wrong : Option Path) → Tells wrong fault → IsToldAs wrong result }
{
    match fault {
        Fault::Shape(steps) => match item_text(alloc, steps) {
            Ok(item) => CertFault::Shape { item },
            Err(Memory) => CertFault::Memory,
        },
        Fault::Memory => CertFault::Memory,
    }
}
