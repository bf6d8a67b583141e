//! How it is told why values declare no devices.

ghost use Rattle.std.specs.Prelude.{◌≡◌, ◌++◌, IfOk, OnOk};
ghost use Rattle.ja_lint_devices.specs.Texts as spec;

use crate::refused::{KindsFault, Refused};
use ja_base::Memory;
use ja_graph::MAX_DEVICES;
use ja_texts::{push_number, push_plain};
use std::alloc::Global;

/// Adds what was written, in quotes.
#[tactic(auto, unfolding(crate::specs::Texts::shown))]
fn push_shown(out: &mut Vec<u8>, text: &[u16]) -> Result<(), Memory>
    ensures { OnOk result (out.new.items ≡ out.old.items ++ spec.shown text.now) }
{
    out.push(b'\'')?;
    push_plain(out, text)?;
    out.push(b'\'')?;
    Ok(())
}

/// Adds what is wrong with a word, up to the name of its device.
#[tactic(auto, unfolding(crate::specs::Texts::word_text))]
fn push_word(out: &mut Vec<u8>, fault: &KindsFault) -> Result<(), Memory>
    ensures { OnOk result (out.new.items ≡ out.old.items ++ spec.word_text fault.now) }
{
    match fault {
        KindsFault::NoKind => {
            out.extend_from_slice(b"no kind of value is given of the device ")?;
            Ok(())
        }
        KindsFault::Unknown { word } => {
            push_shown(out, word.as_slice())?;
            out.extend_from_slice(b" is no kind of value of the device ")?;
            Ok(())
        }
        KindsFault::Repeated { word } => {
            push_shown(out, word.as_slice())?;
            out.extend_from_slice(b" is given twice as a kind of value of the device ")?;
            Ok(())
        }
    }
}

/// Adds why values declare no devices.
#[tactic(auto, unfolding(crate::specs::Texts::refused_text))]
fn push_refused(out: &mut Vec<u8>, fault: &Refused) -> Result<(), Memory>
    ensures { OnOk result (out.new.items ≡ out.old.items ++ spec.refused_text fault.now) }
{
    match fault {
        Refused::Kinds {
            index: _,
            name,
            fault,
        } => {
            push_word(out, fault)?;
            push_shown(out, name.as_slice())?;
            Ok(())
        }
        Refused::TooMany => {
            out.extend_from_slice(b"more than ")?;
            push_number(out, MAX_DEVICES as u64)?;
            out.extend_from_slice(b" devices")?;
            Ok(())
        }
        Refused::BadName { index: _, name } => {
            push_shown(out, name.as_slice())?;
            out.extend_from_slice(
                b" is no name of a device: one is an ASCII identifier of 1 to 64 characters",
            )?;
            Ok(())
        }
        Refused::Twice {
            first: _,
            second: _,
            name,
        } => {
            out.extend_from_slice(b"the device ")?;
            push_shown(out, name.as_slice())?;
            out.extend_from_slice(b" is given twice")?;
            Ok(())
        }
        Refused::Memory => {
            out.extend_from_slice(b"memory was refused")?;
            Ok(())
        }
    }
}

/// Why values declare no devices, in words. What was written stands in `'`, and each unit of it
/// that isn't from 0x20 to 0x7E as `\u` and four hexadecimal digits. The error is want of memory.
pub fn fault_text(alloc: Global, fault: &Refused) -> Result<Vec<u8>, Memory>
    ensures { IfOk result (λ text. text.items ≡ spec.refused_text fault.now) }
{
    let mut text = Vec::new(alloc);
    push_refused(&mut text, fault)?;
    Ok(text)
}
