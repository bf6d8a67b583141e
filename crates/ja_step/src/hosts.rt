//! The node that asks a host device, and what the device is given.

ghost use Rattle.std.specs.Prelude.{◌≡◌, Some, IfOk, IsSome};
ghost use Rattle.ja_machine.specs.Nodes.{device_step};
ghost use Rattle.ja_step.specs.Given.{primitives};
ghost use Rattle.ja_step.specs.code.Steps.{frame_of, standing, leads_to};

use crate::Conf;
use ja_base::{Memory, Reg, ScopeKind, Seq};
use ja_graph::NodeInfo;
use ja_machine::{Answer, End, Value};
use ja_prim::Primitive;
use std::alloc::Global;

impl Conf {
    /// A register is set to what the device answered. Leave to go on says that it wasn't asked,
    /// since it takes no objects: the run leaves the profile. The machine has a step with the
    /// answer.
    pub(crate) fn asks_device(
        &mut self,
        alloc: Global,
        info: &NodeInfo,
        dst: Reg,
        answer: &Answer,
    ) -> Result<Option<End>, Memory>
        requires { IsSome (device_step (standing self.old info.now) dst answer.now) }
        ensures { IfOk result (λ end. Some (leads_to self.old end self.new)
            ≡ device_step (standing self.old info.now) dst answer.now) }
    {
        match answer {
            Answer::Device(primitive) => self.constant(alloc, info, dst, primitive),
            Answer::Tick => Ok(self.left_scope(info, ScopeKind::DeviceObject)),
            Answer::Pick(_) => unreachable!(),
        }
    }
}

/// What a device is given, in memory of its own: the primitive values among the arguments of the
/// function that runs, in order. Objects are left out, with which no device is asked.
///
/// # Errors
///
/// `Memory` where memory is refused.
pub fn device_arguments(alloc: Global, conf: &Conf) -> Result<Seq<Primitive>, Memory>
    ensures { IfOk result (λ args. args ≡ primitives (frame_of conf.now.frame).arguments) }
{
    let mut primitives = Vec::with_capacity(alloc, conf.frame.arguments.len())?;
    for value in &conf.frame.arguments {
        if let Value::Primitive(primitive) = value {
            let primitive = primitive.copy()?;
            primitives.push(primitive)?;
        }
    }
    Ok(Seq::from_vec(primitives))
}
