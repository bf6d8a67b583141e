ghost use Rattle.std.specs.Prelude.{◌≡◌, ◌<◌, ◌-◌, ◌^◌, Some, IfOk, IsSome};
ghost use Rattle.ja_graph.specs.WellFormed.{IsWellFormed};
ghost use Rattle.ja_machine.specs.Machine.{step};
ghost use Rattle.ja_step.specs.code.Steps.{conf_of, event_of};

use crate::Conf;
use crate::wanted::node_of;
use ja_base::Memory;
use ja_graph::Program;
use ja_machine::{Answer, End};
use std::alloc::Global;

/// One step of a program, with an answer with which the machine has a step: one that the state
/// wants. A device is asked by the caller, and what it answers is of the kinds that it declares.
/// `None` says that the run goes on, and an end how it has ended; `conf` is then the state behind
/// the step.
///
/// A state that is as it should be (`IsState` of `ja_machine/specs/State.antt`) has a step with
/// each answer that it wants, by the law `states_have_steps` of `ja_machine`, and the state behind
/// the step is as it should be too, by `steps_keep_states`.
///
/// # Errors
///
/// `Memory` where memory is refused. The step may then be done in part, so the run can't go on.
pub fn step(
    alloc: Global,
    program: &Program,
    conf: &mut Conf,
    answer: &Answer,
) -> Result<Option<End>, Memory>
    requires program { IsWellFormed program.now }
    requires steps { conf.old.steps < 2 ^ 64 - 1 }
    requires fits { IsSome (step program.now (conf_of conf.old) answer.now) }
    ensures { IfOk result (λ end. step program.now (conf_of conf.old) answer.now
        ≡ Some (event_of end conf.new)) }
{
    let Some(info) = node_of(program, &conf.frame) else {
        unreachable!()
    };
    let steps = conf.steps + 1;
    let end = conf.step_node(alloc, program, info, answer)?;
    conf.steps = steps;
    Ok(end)
}
