//! The answer of `run` to bytes.

ghost use Rattle.std.specs.Prelude.{◌≡◌, ◌≤◌, IfOk, IfErr, length};
ghost use Rattle.ja_lex.specs.Spots.{max_bytes};
ghost use Rattle.ja_graph.specs.WellFormed.{IsWellFormed};
ghost use Rattle.ja_top.specs.Runs.{MayBeLeft, MayBeLeftByText, Runs, Transcribes, signatures_of};
ghost use Rattle.ja_top.specs.Statuses.{status_of_end};

use crate::answer::Answer;
use crate::refusing::{explain, refuse};
use crate::status::Status;
use ja_base::Memory;
use ja_device::{Device, Devices};
use ja_graph::Program;
use ja_load::load;
use ja_report::Refusal;
use ja_run::{RunEnd, run as run_program, run_text};
use std::alloc::Global;
use std::str;

// The status of the end of a run.
fn status_of(end: &RunEnd) -> Status
    ensures { result ≡ status_of_end end.now }
{
    match end {
        RunEnd::Normal => Status::Done,
        RunEnd::Uncaught(_) => Status::Uncaught,
        RunEnd::Scope { .. } => Status::Left,
        RunEnd::Device { .. } => Status::DeviceFault,
        RunEnd::Limit => Status::StepsSpent,
    }
}

// Runs a program, and writes the transcript. A device that failed is let go once the text is built.
fn transcribe<D: Device>(
    alloc: Global,
    program: &Program,
    devices: &mut Devices<D>,
    steps: u64,
) -> Result<Answer, Memory>
    requires program { IsWellFormed program.now }
    requires devices { signatures_of devices.old ≡ program.now.signatures }
    ensures transcript { IfOk result
        (λ a. Transcribes program.now steps devices.old devices.new a.status a.text.items) }
    ensures memory { IfErr result (λ _. MayBeLeft program.now steps devices.old devices.new) }
{
    let ended = run_program(alloc, program, devices, steps)?;
    let text = run_text(alloc, program, &ended)?;
    if let RunEnd::Device { which } = &ended.end {
        devices.retire(*which as usize);
    }
    Ok(Answer {
        status: status_of(&ended.end),
        text,
    })
}

// Runs a text.
fn transcribe_text<D: Device>(
    alloc: Global,
    text: &str,
    devices: &mut Devices<D>,
    steps: u64,
) -> Result<Answer, Memory>
    requires { length text.now ≤ max_bytes }
    ensures transcript { IfOk result
        (λ a. Runs text.now steps devices.old devices.new a.status a.text.items) }
    ensures memory { IfErr result (λ _. MayBeLeftByText text.now steps devices.old devices.new) }
{
    let signatures = devices.signatures(alloc)?;
    match load(alloc, text, signatures.as_slice()) {
        Ok(program) => transcribe(alloc, &program, devices, steps),
        Err(fault) => explain(alloc, fault),
    }
}

/// Runs the bytes of a text, at most [`MAX_BYTES`](crate::MAX_BYTES) of them, as a program that may
/// call these devices and make so many steps.
///
/// The status is that of the run's end, with its transcript: `Done`, `Uncaught` where nothing
/// caught a value, `Left` where the run left the profile, `DeviceFault` where a device failed,
/// which is then let go, and `StepsSpent` where all steps were made and it goes on. Or it is
/// `NotText`, `Syntax`, `Scope` or `Limit` with the line of a refusal, as of `analyse`, and no
/// device is asked.
///
/// # Errors
///
/// `Memory` where memory is refused. No device is let go then, and they have answered the calls of
/// the run's first steps and no others, or those of the whole run, if only its transcript was
/// refused memory.
pub fn run<D: Device>(
    alloc: Global,
    bytes: &[u8],
    devices: &mut Devices<D>,
    steps: u64,
) -> Result<Answer, Memory>
    requires { length bytes.now ≤ max_bytes }
    ensures transcript { IfOk result
        (λ a. Runs bytes.now steps devices.old devices.new a.status a.text.items) }
    ensures memory { IfErr result (λ _. MayBeLeftByText bytes.now steps devices.old devices.new) }
{
    match str::from_utf8(bytes) {
        Ok(text) => transcribe_text(alloc, text, devices, steps),
        Err(error) => {
            let offset = error.valid_up_to();
            refuse(alloc, Refusal::NotText { offset })
        }
    }
}
