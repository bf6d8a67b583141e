//! The transcript of a run.

ghost use Rattle.std.specs.Prelude.{◌≡◌, ◌++◌, IfOk, OnOk};
ghost use Rattle.std.specs.List.{flat_map};
ghost use lib.Chars.{codes};
ghost use Rattle.ja_run.specs.Ends.{primitive_text};
ghost use Rattle.ja_run.specs.Transcript as spec;

use crate::ended::{CallRecord, Ended, RunEnd};
use crate::ends::push_primitive;
use ja_base::Memory;
use ja_graph::Program;
use ja_prim::Primitive;
use ja_texts::{push_number, push_place, push_plain, scope_name};
use std::alloc::Global;

/// The name of the device of a number.
fn push_device_name(text: &mut Vec<u8>, program: &Program, which: u32) -> Result<(), Memory>
    ensures { OnOk result (text.new.items ≡ text.old.items ++ spec.device_name program.now which) }
{
    match program.signatures().get(which as usize) {
        Some(signature) => push_plain(text, signature.name.units()),
        None => Ok(()),
    }
}

/// Arguments behind the first one.
fn push_more_arguments(text: &mut Vec<u8>, args: &[Primitive]) -> Result<(), Memory>
    ensures { OnOk result (text.new.items ≡ text.old.items
        ++ flat_map (λ r. codes ", " ++ primitive_text r) args.now) }
{
    for arg in args {
        text.extend_from_slice(b", ")?;
        push_primitive(text, arg)?;
    }
    Ok(())
}

/// Arguments, with commas between them.
fn push_arguments(text: &mut Vec<u8>, args: &[Primitive]) -> Result<(), Memory>
    ensures { OnOk result (text.new.items ≡ text.old.items ++ spec.arguments_text args.now) }
{
    match args {
        [] => Ok(()),
        [first, more @ ..] => {
            push_primitive(text, first)?;
            push_more_arguments(text, more)
        }
    }
}

/// The line of a call that a device answered.
fn push_call(text: &mut Vec<u8>, program: &Program, call: &CallRecord) -> Result<(), Memory>
    ensures { OnOk result (text.new.items ≡ text.old.items ++ spec.call_text program.now call.now) }
{
    text.extend_from_slice(b"call ")?;
    push_device_name(text, program, call.device)?;
    text.push(b'(')?;
    push_arguments(text, call.args.as_slice())?;
    text.extend_from_slice(b") = ")?;
    push_primitive(text, &call.answer)?;
    text.push(b'\n')?;
    Ok(())
}

/// A line for each call.
fn push_calls(text: &mut Vec<u8>, program: &Program, calls: &[CallRecord]) -> Result<(), Memory>
    ensures { OnOk result (text.new.items ≡ text.old.items
        ++ flat_map (spec.call_text program.now) calls.now) }
{
    for call in calls {
        push_call(text, program, call)?;
    }
    Ok(())
}

/// The line of a value that nothing caught.
fn push_uncaught(text: &mut Vec<u8>, value: &[u8]) -> Result<(), Memory>
    ensures { OnOk result (text.new.items ≡ text.old.items ++ codes "end uncaught " ++ value.now
        ++ codes "\n") }
{
    text.extend_from_slice(b"end uncaught ")?;
    text.extend_from_slice(value)?;
    text.push(b'\n')?;
    Ok(())
}

/// The line of the end.
fn push_end(text: &mut Vec<u8>, program: &Program, end: &RunEnd) -> Result<(), Memory>
    ensures { OnOk result (text.new.items ≡ text.old.items ++ spec.end_text program.now end.now) }
{
    match end {
        RunEnd::Normal => text.extend_from_slice(b"end normal\n")?,
        RunEnd::Uncaught(value) => push_uncaught(text, value.as_slice())?,
        RunEnd::Scope { kind, place } => {
            text.extend_from_slice(b"end scope ")?;
            text.extend_from_slice(scope_name(*kind))?;
            text.push(b' ')?;
            push_place(text, *place)?;
            text.push(b'\n')?;
        }
        RunEnd::Device { which } => {
            text.extend_from_slice(b"end device ")?;
            push_device_name(text, program, *which)?;
            text.push(b'\n')?;
        }
        RunEnd::Limit => text.extend_from_slice(b"end steps\n")?,
    }
    Ok(())
}

/// The transcript of a run of a program: the calls that devices answered, how it ended, and how
/// many steps were made.
pub fn run_text(alloc: Global, program: &Program, ended: &Ended) -> Result<Vec<u8>, Memory>
    ensures { IfOk result (λ text. text.items ≡ spec.run_text program.now ended.now) }
{
    let mut text = Vec::new(alloc);
    text.extend_from_slice(b"tajs run 1\n")?;
    push_calls(&mut text, program, ended.calls.as_slice())?;
    push_end(&mut text, program, &ended.end)?;
    text.extend_from_slice(b"steps ")?;
    push_number(&mut text, ended.steps)?;
    text.push(b'\n')?;
    Ok(text)
}
