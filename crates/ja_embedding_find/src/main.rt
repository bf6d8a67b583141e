//! How a program finds the type faults of a script to which it offers calls of its own, and tells
//! them in its own words: the script on standard input may call `cookie`, whose answer is a text or
//! null, and `show`. Neither is called, as nothing is run. `ja_top` is all that it calls.
#![tactic(auto)]

use ja_top::{
    Devices, DevicesFault, FindFault, Findings, Kinds, MAX_BYTES, Memory, Primitive, Scripted,
    Warning, WarningKind, find,
};
use std::alloc::{AllocFailed, Global};
use std::io::{self, Read};
use std::process::ExitCode;
use thiserror::Error;

/// Why nothing is found, or not all of it told.
#[derive(Debug, Drop, Error)]
enum Fault {
    #[error("the text has more than 16,777,216 bytes")]
    Long,
    #[error("{0}")]
    Devices(DevicesFault),
    #[error("{0}")]
    Text(FindFault),
    #[error("memory was refused")]
    Memory,
    #[error("{0}")]
    Stream(io::Error),
}

impl From<Memory> for Fault {
    fn from(_: Memory) -> Self {
        Fault::Memory
    }
}

impl<T: Drop> From<AllocFailed<T>> for Fault {
    fn from(_: AllocFailed<T>) -> Self {
        Fault::Memory
    }
}

impl From<FindFault> for Fault {
    fn from(fault: FindFault) -> Self {
        Fault::Text(fault)
    }
}

impl From<io::Error> for Fault {
    fn from(error: io::Error) -> Self {
        Fault::Stream(error)
    }
}

/// What the script may call: names, and of what kinds the answers are.
fn offered(alloc: Global) -> Result<Vec<Scripted>, Fault> {
    let null = vec![in alloc; Primitive::Null]?;
    let undefined = vec![in alloc; Primitive::Undefined]?;
    let kinds = Kinds::TEXT.with(Kinds::NULL);
    let cookie = Scripted::new(alloc, "cookie", kinds, null, Vec::new(alloc))?;
    let show = Scripted::new(alloc, "show", Kinds::UNDEFINED, undefined, Vec::new(alloc))?;
    let list = vec![in alloc; cookie, show]?;
    Ok(list)
}

/// Reads a text, and finds what there is to find of it.
fn found(rt: &HostRuntime) -> Result<Findings, Fault> {
    let mut text = Vec::new(rt.alloc());
    rt.stdin().read_to_end(&mut text)?;
    if text.len() > MAX_BYTES {
        return Err(Fault::Long);
    }
    match Devices::new(offered(rt.alloc())?) {
        Ok(devices) => Ok(find(rt.alloc(), &text, &devices)?),
        Err((fault, _)) => Err(Fault::Devices(fault)),
    }
}

/// What may go wrong, in words of this program.
fn words(kind: WarningKind) -> &'static str {
    match kind {
        WarningKind::NotAFunction => "calls what is no function",
        WarningKind::NoObject => "asks undefined or null for a property",
        WarningKind::UnboundName => "uses a name that nothing has",
        WarningKind::ScopeRow => "reads a built-in that isn't known here",
    }
}

/// Tells a warning with its line and column, or that it is about a built-in function.
fn tell(rt: &HostRuntime, warning: &Warning) -> io::Result<()> {
    let how = if warning.certain { "always" } else { "maybe" };
    let what = words(warning.kind);
    let place = warning.place;
    match warning.builtin {
        None => println!(rt;
            "line {}, column {}: {how} {what}",
            place.line, place.column
        ),
        Some(_) => println!(rt; "in a built-in function: {how} {what}"),
    }
}

/// Tells all that is found.
fn tell_all(rt: &HostRuntime) -> Result<(), Fault> {
    let findings = found(rt)?;
    for told in findings.warnings.as_slice() {
        tell(rt, &told.warning)?;
    }
    println!(rt; "{} to look at", findings.warnings.len())?;
    Ok(())
}

fn main(rt: HostRuntime) -> ExitCode {
    let Err(fault) = tell_all(&rt) else {
        return ExitCode::SUCCESS;
    };
    let _ = println!(rt; "nothing is known: {fault}");
    ExitCode::FAILURE
}
