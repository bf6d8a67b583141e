//! Finds type faults in JavaScript programs before they run, and runs them step by step.
#![tactic(auto)]

#[cfg(test)]
mod device_tests;
#[cfg(test)]
mod fault_tests;
#[cfg(test)]
mod tests;

use ja_base::{Memory, StdSink, StdSource};
use ja_host::{WordsFault, devices, words};
use ja_top::{Status, tajs};
use std::process::ExitCode;

// Answers the words, over standard input and output and with the devices of the program.
fn answered(rt: &HostRuntime, words: &[String]) -> Result<Status, Memory> {
    let alloc = rt.alloc();
    let devices = devices(alloc)?;
    let mut source = StdSource::new(rt.stdin());
    let mut sink = StdSink::new(rt.stdout());
    let (status, _) = tajs(alloc, words, &mut source, &mut sink, devices);
    Ok(status)
}

fn main(rt: HostRuntime) -> ExitCode {
    let status = match words(&rt) {
        Ok(words) => answered(&rt, &words).unwrap_or(Status::Memory),
        Err(WordsFault::NotText) => Status::Usage,
        Err(WordsFault::Memory) => Status::Memory,
    };
    ExitCode::from(status.code())
}
