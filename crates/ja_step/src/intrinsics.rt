//! The operations that the built-in functions are written with.

ghost use Rattle.std.specs.Prelude.{◌≡◌, IfOk, Some, length, map};
ghost use Rattle.ja_graph.specs.WellFormed.{arguments_taken};
ghost use Rattle.ja_machine.specs.Nodes.{intrinsic_step, sets_given};
ghost use Rattle.ja_step.specs.code.Steps.{held, standing, leads_to};

use crate::Conf;
use ja_base::{Memory, Reg};
use ja_graph::NodeInfo;
use ja_machine::{End, Value};
use ja_operations::intrinsics::{Outcome, of_values};
use std::alloc::Global;

impl Conf {
    /// The node sets a register to what an operation gives, or leaves the profile.
    fn sets_given(&mut self, info: &NodeInfo, dst: Reg, outcome: Outcome) -> Option<End>
        ensures { leads_to self.old result self.new
            ≡ sets_given (standing self.old info.now) dst (Some outcome) }
    {
        match outcome {
            Ok(primitive) => self.sets(info, dst, Value::Primitive(primitive)),
            Err(kind) => self.left_scope(info, kind),
        }
    }

    /// An operation of the built-in functions, by its number, with as many registers as it takes.
    pub(crate) fn intrinsic(
        &mut self,
        alloc: Global,
        info: &NodeInfo,
        dst: Reg,
        which: u32,
        args: &[Reg],
    ) -> Result<Option<End>, Memory>
        requires { arguments_taken which ≡ Some (length args.now) }
        ensures { IfOk result (λ end. leads_to self.old end self.new
            ≡ intrinsic_step (standing self.old info.now) dst which (map (held self.old) args.now)) }
    {
        let values = self.values_of(alloc, args)?;
        let outcome = of_values(alloc, &self.heap, which, &values)?;
        Ok(self.sets_given(info, dst, outcome))
    }
}
