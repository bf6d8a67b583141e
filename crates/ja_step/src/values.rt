//! The nodes that compute values, and the one that branches.

ghost use Rattle.std.specs.Prelude.{◌≡◌, IfOk};
ghost use Rattle.ja_machine.specs.declared.machine.Value.TheVariants as value;
ghost use Rattle.ja_machine.specs.Events.{sets, sets_outcome};
ghost use Rattle.ja_machine.specs.Nodes.{branch_step};
ghost use Rattle.ja_machine.specs.Values.{unary, binary};
ghost use Rattle.ja_step.specs.code.Steps.{held, standing, leads_to};

use crate::Conf;
use ja_base::{Memory, Reg, ScopeKind};
use ja_graph::{BinaryOp, NodeInfo, UnaryOp};
use ja_machine::{End, Value};
use ja_operations::operators::{binary, unary};
use ja_prim::Primitive;
use std::alloc::Global;

impl Conf {
    /// A register is set to a primitive value.
    pub(crate) fn constant(
        &mut self,
        alloc: Global,
        info: &NodeInfo,
        dst: Reg,
        primitive: &Primitive,
    ) -> Result<Option<End>, Memory>
        ensures { IfOk result (λ end. leads_to self.old end self.new
            ≡ sets (standing self.old info.now) dst (value.Primitive primitive.now)) }
    {
        let copy = primitive.copy()?;
        Ok(self.sets(info, dst, Value::Primitive(copy)))
    }

    /// A register is set to what another one holds.
    pub(crate) fn moves(
        &mut self,
        alloc: Global,
        info: &NodeInfo,
        dst: Reg,
        src: Reg,
    ) -> Result<Option<End>, Memory>
        ensures { IfOk result (λ end. leads_to self.old end self.new
            ≡ sets (standing self.old info.now) dst (held self.old src)) }
    {
        let held = self.frame.held(alloc, src)?;
        Ok(self.sets(info, dst, held))
    }

    /// An operation on one value.
    pub(crate) fn unary(
        &mut self,
        alloc: Global,
        info: &NodeInfo,
        dst: Reg,
        op: UnaryOp,
        src: Reg,
    ) -> Result<Option<End>, Memory>
        ensures { IfOk result (λ end. leads_to self.old end self.new
            ≡ sets_outcome (standing self.old info.now) dst
            (unary self.old.heap op (held self.old src))) }
    {
        let undefined = Value::Primitive(Primitive::Undefined);
        let value = self.frame.register(src).unwrap_or(&undefined);
        let outcome = unary(alloc, &self.heap, op, value)?;
        Ok(self.sets_outcome(info, dst, outcome))
    }

    /// An operation on two values.
    pub(crate) fn binary(
        &mut self,
        alloc: Global,
        info: &NodeInfo,
        dst: Reg,
        op: BinaryOp,
        a: Reg,
        b: Reg,
    ) -> Result<Option<End>, Memory>
        ensures { IfOk result (λ end. leads_to self.old end self.new
            ≡ sets_outcome (standing self.old info.now) dst
            (binary op (held self.old a) (held self.old b))) }
    {
        let undefined = Value::Primitive(Primitive::Undefined);
        let a = self.frame.register(a).unwrap_or(&undefined);
        let b = self.frame.register(b).unwrap_or(&undefined);
        let outcome = binary(alloc, op, a, b)?;
        Ok(self.sets_outcome(info, dst, outcome))
    }

    /// To `next` on true, to `other` on false. Other values aren't taken.
    pub(crate) fn branches(&mut self, info: &NodeInfo, src: Reg) -> Option<End>
        ensures { leads_to self.old result self.new
            ≡ branch_step (standing self.old info.now) (held self.old src) }
    {
        match self.frame.register(src) {
            Some(Value::Primitive(Primitive::Bool(true))) => self.goes_on(info),
            Some(Value::Primitive(Primitive::Bool(false))) => self.turns(info),
            _ => self.left_scope(info, ScopeKind::Register),
        }
    }
}
