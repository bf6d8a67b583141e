//! The nodes that throw and those that leave the function (ES3 12.9, 12.13, 13.2.1, 13.2.2).

ghost use Rattle.std.specs.Prelude.{◌≡◌, ◌∷◌, Some, IfOk, IsSome};
ghost use Rattle.ja_machine.specs.Calls as calls;
ghost use Rattle.ja_machine.specs.Events.{throws_value, next_state};
ghost use Rattle.ja_machine.specs.Frames.{thrown, with_result};
ghost use Rattle.ja_step.specs.code.Steps.{held, frame_of, below_of, conf_of, standing, leads_to};

use crate::wanted::node_of;
use crate::{Conf, Frame};
use ja_base::{Memory, NodeId, Reg};
use ja_graph::{Node, NodeInfo, Program, THROWN};
use ja_machine::{Addr, End, Value};
use std::alloc::Global;

/// What a construction gives: what its function gives, if that is an object, or else its receiver.
fn constructed(receiver: Addr, value: Value) -> Value
    ensures { result ≡ calls.constructed receiver value }
{
    match value {
        Value::Object(a) => Value::Object(a),
        Value::Primitive(_) => Value::Object(receiver),
    }
}

impl Conf {
    /// A value is thrown to the handler (12.13).
    pub(crate) fn throws_register(
        &mut self,
        alloc: Global,
        info: &NodeInfo,
        src: Reg,
    ) -> Result<Option<End>, Memory>
        ensures { IfOk result (λ end. leads_to self.old end self.new
            ≡ throws_value (standing self.old info.now) self.old.heap (held self.old src)) }
    {
        let value = self.frame.held(alloc, src)?;
        Ok(self.throws_value(info, value))
    }

    /// A caller goes on at a node, with a value in a register.
    fn goes_back(&mut self, mut caller: Frame, dst: Reg, value: Value, next: NodeId) -> Option<End>
        ensures { let c = conf_of self.old in
            leads_to self.old result self.new ≡ next_state c c.heap
            (with_result (frame_of caller) dst value next ∷ below_of self.old) }
    {
        caller.set_register(dst, value);
        caller.node = next;
        self.frame = caller;
        None
    }

    /// The function is left with a value, which the caller's node takes. The program's Return ends
    /// the run. The machine has a step, so the caller stands at a node that enters functions.
    pub(crate) fn returns(
        &mut self,
        alloc: Global,
        program: &Program,
        info: &NodeInfo,
        src: Reg,
    ) -> Result<Option<End>, Memory>
        requires { IsSome (calls.return_step program.now (standing self.old info.now)
            (below_of self.old) (held self.old src)) }
        ensures { IfOk result (λ end. calls.return_step program.now (standing self.old info.now)
            (below_of self.old) (held self.old src) ≡ Some (leads_to self.old end self.new)) }
    {
        let value = self.frame.held(alloc, src)?;
        let Some(caller) = self.below.pop() else {
            return Ok(Some(End::Normal));
        };
        let Some(waiting) = node_of(program, &caller) else {
            unreachable!()
        };
        match &waiting.node {
            Node::Call { dst, .. } => Ok(self.goes_back(caller, *dst, value, waiting.next)),
            Node::Convert { dst, .. } => Ok(self.goes_back(caller, *dst, value, waiting.next)),
            Node::New { dst, .. } => {
                let value = constructed(self.frame.receiver, value);
                Ok(self.goes_back(caller, *dst, value, waiting.next))
            }
            _ => unreachable!(),
        }
    }

    /// The function is left with what was thrown, which goes to the handler of the caller's node.
    /// The program's Escape ends the run. The machine has a step, so the caller stands at a node.
    pub(crate) fn escapes(
        &mut self,
        alloc: Global,
        program: &Program,
        info: &NodeInfo,
    ) -> Result<Option<End>, Memory>
        requires { IsSome (calls.escape_step program.now (standing self.old info.now)
            (below_of self.old) (held self.old thrown)) }
        ensures { IfOk result (λ end. calls.escape_step program.now (standing self.old info.now)
            (below_of self.old) (held self.old thrown) ≡ Some (leads_to self.old end self.new)) }
    {
        let value = self.frame.held(alloc, THROWN)?;
        let Some(caller) = self.below.pop() else {
            return Ok(Some(End::Uncaught(value)));
        };
        let Some(waiting) = node_of(program, &caller) else {
            unreachable!()
        };
        Ok(self.goes_back(caller, THROWN, value, waiting.handler))
    }
}
