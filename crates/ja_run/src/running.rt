ghost use Rattle.std.specs.Prelude.{◌≡◌, ℕ, ◌<◌, [], IfOk, IfErr, map, length};
ghost use Rattle.ja_device.specs.Devices.{signature_of};
ghost use Rattle.ja_graph.specs.WellFormed.{IsWellFormed};
ghost use Rattle.ja_machine.specs.declared.machine.Wants.TheVariants as wanted;
ghost use Rattle.ja_machine.specs.Machine.{opening_state, wants};
ghost use Rattle.ja_step.specs.Given.{primitives};
ghost use Rattle.ja_step.specs.code.Steps.{conf_of, frame_of};
ghost use Rattle.ja_run.specs.Asked.{IsCutShort, IsLeft};
ghost use Rattle.ja_run.specs.code.Making.{IsDeviceAnswered, MayHaveAnswered, IsGiven, MayBeGiven};
ghost use Rattle.ja_run.specs.code.Making.{IsMade, Leaves};
ghost use Rattle.ja_run.specs.Run.{IsRun};

use crate::ended::{CallRecord, Ended, RunEnd};
use crate::ends::run_end_of;
use crate::laws::answers_fit;
use ja_base::{Memory, Seq};
use ja_device::{CallFault, Device, Devices};
use ja_graph::Program;
use ja_machine::{Answer, End, Wants, never_stuck, steps_go_along_edges};
use ja_step::{Conf, device_arguments, first_wanted, opening, step};
use std::alloc::Global;

/// Why no more steps are made: the last one has ended the run, or a device gives no answer.
#[derive(Drop)]
enum Stopped {
    Last { steps: u64, end: End },
    Unanswered { steps: u64, which: u32 },
}

/// Asks the device of a number, with the arguments of the function that runs. Its answer is
/// recorded; there is none where it failed.
fn ask<D: Device>(
    alloc: Global,
    conf: &Conf,
    devices: &mut Devices<D>,
    which: u32,
    calls: &mut Vec<CallRecord>,
) -> Result<Option<Answer>, Memory>
    requires { which < length devices.old.devices }
    ensures asked { IfOk result (IsDeviceAnswered devices.old devices.new which
        (primitives (frame_of conf.now.frame).arguments) calls.old.items calls.new.items) }
    ensures memory { IfErr result (λ _. MayHaveAnswered devices.old devices.new which
        (primitives (frame_of conf.now.frame).arguments)) }
{
    let args = device_arguments(alloc, conf)?;
    match devices.call(alloc, which as usize, args.as_slice()) {
        Ok(answer) => {
            let copy = answer.copy()?;
            calls.push(CallRecord {
                device: which,
                args,
                answer: copy,
            })?;
            Ok(Some(Answer::Device(answer)))
        }
        Err(CallFault::Failed) => Ok(None),
        Err(CallFault::Memory) => Err(Memory),
    }
}

/// What is given to a state.
#[derive(Drop)]
enum Given {
    Answered(Answer),
    /// The device of this number gives no answer.
    Nothing { which: u32 },
}

/// Gives a state what it wants: leave to go on, the first of some names, or the answer of a device,
/// which is asked.
fn give<D: Device>(
    alloc: Global,
    program: &Program,
    conf: &Conf,
    devices: &mut Devices<D>,
    calls: &mut Vec<CallRecord>,
) -> Result<Given, Memory>
    requires { (which : ℕ) → wants program.now (conf_of conf.now) ≡ wanted.Device which
        → which < length devices.old.devices }
    ensures given { IfOk result (IsGiven program.now (conf_of conf.now)
        devices.old devices.new calls.old.items calls.new.items) }
    ensures memory { IfErr result
        (λ _. MayBeGiven program.now (conf_of conf.now) devices.old devices.new) }
{
    match first_wanted(program, conf) {
        Wants::Tick => Ok(Given::Answered(Answer::Tick)),
        Wants::Pick { .. } => Ok(Given::Answered(Answer::Pick(0))),
        Wants::Device { which } => match ask(alloc, conf, devices, which, calls)? {
            Some(answer) => Ok(Given::Answered(answer)),
            None => Ok(Given::Nothing { which }),
        },
    }
}

/// Makes at most so many steps from the first state on, and says why it makes no more.
fn make_steps<D: Device>(
    alloc: Global,
    program: &Program,
    devices: &mut Devices<D>,
    conf: &mut Conf,
    calls: &mut Vec<CallRecord>,
    limit: u64,
) -> Result<Option<Stopped>, Memory>
    requires program { IsWellFormed program.now }
    requires devices { map signature_of devices.old.devices ≡ program.now.signatures }
    requires opening { conf_of conf.old ≡ opening_state program.now }
    requires none { calls.old.items ≡ [] }
    ensures made { IfOk result
        (λ stop. IsMade program.now limit calls.new.items stop (conf_of conf.new)) }
    ensures left { IfOk result (λ stop. Leaves devices.old devices.new calls.new.items stop) }
    ensures memory { IfErr result (λ _. IsCutShort program.now limit devices.old devices.new) }
{
    never_stuck();
    steps_go_along_edges();
    answers_fit();
    for made in 0..limit {
        let answer = match give(alloc, program, conf, devices, calls)? {
            Given::Answered(answer) => answer,
            Given::Nothing { which } => {
                return Ok(Some(Stopped::Unanswered { steps: made, which }));
            }
        };
        if let Some(end) = step(alloc, program, conf, &answer)? {
            let steps = made + 1;
            return Ok(Some(Stopped::Last { steps, end }));
        }
    }
    Ok(None)
}

/// Runs a program with its devices: it makes at most so many steps, and asks a device only where a
/// function of that device stands. Where a `for`-`in` (ES3 12.6.4) may take one of some names, it
/// takes the first one. The calls that were answered are recorded in order. A device that failed
/// ends the run, and stays in its place.
///
/// # Errors
///
/// `Memory` where memory is refused. The devices have then answered exactly the calls of the run's
/// first steps, and none has failed. The last of these calls may be one whose answer no step has
/// taken.
pub fn run<D: Device>(
    alloc: Global,
    program: &Program,
    devices: &mut Devices<D>,
    limit: u64,
) -> Result<Ended, Memory>
    requires program { IsWellFormed program.now }
    requires devices { map signature_of devices.old.devices ≡ program.now.signatures }
    ensures run { IfOk result (IsRun program.now limit) }
    ensures left { IfOk result (λ e. IsLeft devices.old devices.new e.calls e.end) }
    ensures memory { IfErr result (λ _. IsCutShort program.now limit devices.old devices.new) }
{
    let mut conf = opening(alloc, program)?;
    let mut calls = Vec::new(alloc);
    let stop = make_steps(alloc, program, devices, &mut conf, &mut calls, limit)?;
    let (steps, end) = match stop {
        Some(Stopped::Last { steps, end }) => (steps, run_end_of(alloc, &conf.heap, &end)?),
        Some(Stopped::Unanswered { steps, which }) => (steps, RunEnd::Device { which }),
        None => (limit, RunEnd::Limit),
    };
    Ok(Ended {
        steps,
        calls: Seq::from_vec(calls),
        end,
    })
}
