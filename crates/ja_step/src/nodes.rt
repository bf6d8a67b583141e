//! The step of each kind of node.

ghost use Rattle.std.specs.Prelude.{◌≡◌, ◌<◌, ◌-◌, ◌^◌, Some, IfOk, IsSome};
ghost use Rattle.ja_graph.specs.declared.program.Function.{Function};
ghost use Rattle.ja_graph.specs.WellFormed.{IsWellFormed, IsNodeWellFormed};
ghost use Rattle.ja_machine.specs.Nodes.{node_step};
ghost use Rattle.ja_step.specs.code.Steps.{standing, leads_to};

use crate::Conf;
use ja_base::Memory;
use ja_graph::{Node, NodeInfo, Program};
use ja_machine::{Answer, End};
use std::alloc::Global;

impl Conf {
    /// The step of a node.
    pub(crate) fn step_node(
        &mut self,
        alloc: Global,
        program: &Program,
        info: &NodeInfo,
        answer: &Answer,
    ) -> Result<Option<End>, Memory>
        requires program { IsWellFormed program.now }
        requires info { (fn : Function) × IsNodeWellFormed program.now fn info.now }
        requires steps { self.old.steps < 2 ^ 64 - 1 }
        requires fits { IsSome (node_step program.now (standing self.old info.now) answer.now
            info.now.node) }
        ensures { IfOk result (λ end. node_step program.now (standing self.old info.now) answer.now
            info.now.node ≡ Some (leads_to self.old end self.new)) }
    {
        match &info.node {
            Node::Const { dst, prim } => self.constant(alloc, info, *dst, prim),
            Node::Move { dst, src } => self.moves(alloc, info, *dst, *src),
            Node::Unary { dst, op, src } => self.unary(alloc, info, *dst, *op, *src),
            Node::Binary { dst, op, a, b } => self.binary(alloc, info, *dst, *op, *a, *b),
            Node::Convert {
                dst,
                src,
                hint,
                other,
            } => self.converts(alloc, program, info, *dst, *src, *hint, *other),
            Node::Branch { src } => Ok(self.branches(info, *src)),
            Node::FindName { dst, name } => Ok(self.finds_name(program, info, *dst, *name)),
            Node::ReadRef {
                dst,
                base,
                name,
                error,
            } => self.reads_name(alloc, program, info, *dst, *base, *name, *error),
            Node::ReadSoft { dst, base, name } => {
                self.reads_softly(alloc, program, info, *dst, *base, *name)
            }
            Node::WriteRef { base, name, src } => {
                self.writes_name(alloc, program, info, *base, *name, *src)
            }
            Node::DeleteRef { dst, base, name } => {
                Ok(self.deletes_name(program, info, *dst, *base, *name))
            }
            Node::ToObject {
                dst,
                src,
                sites,
                error,
            } => self.to_object(alloc, info, *dst, *src, *sites, *error),
            Node::NeedObject { src, error } => self.needs_object(alloc, info, *src, *error),
            Node::ReadProp { dst, object, key } => {
                self.reads_property(alloc, info, *dst, *object, *key)
            }
            Node::WriteProp {
                object,
                key,
                src,
                error,
            } => self.writes_property(alloc, info, *object, *key, *src, *error),
            Node::DeleteProp { dst, object, key } => {
                self.deletes_property(alloc, info, *dst, *object, *key)
            }
            Node::HasProp { dst, object, key } => {
                self.has_property(alloc, info, *dst, *object, *key)
            }
            Node::InstanceOf {
                dst,
                left,
                right,
                not_function,
                not_object,
            } => self.is_instance(alloc, info, *dst, *left, *right, *not_function, *not_object),
            Node::NewObject { dst, site, kind } => {
                self.makes_empty(alloc, info, *dst, *site, *kind)
            }
            Node::MakeFunction {
                dst,
                function,
                site,
                proto_site,
            } => self.makes_function(alloc, program, info, *dst, *function, *site, *proto_site),
            Node::Enter { site, arguments } => {
                self.enters_scope(alloc, program, info, *site, *arguments)
            }
            Node::Declare { name } => self.declares(alloc, program, info, *name),
            Node::Bind {
                name,
                src,
                read_only,
            } => self.binds(alloc, program, info, *name, *src, *read_only),
            Node::PushScope { site } => self.pushes_scope(alloc, info, *site),
            Node::Names { list, object } => self.fixes_names(alloc, info, *list, *object),
            Node::Pick { list, dst, object } => {
                self.picks(alloc, info, *list, *dst, *object, answer)
            }
            Node::Call {
                callee,
                receiver,
                args,
                error,
                ..
            } => self.calls(alloc, program, info, *callee, *receiver, args, *error),
            Node::New {
                callee,
                args,
                site,
                error,
                ..
            } => self.constructs(
                alloc,
                program,
                info,
                *callee,
                args.as_slice(),
                *site,
                *error,
            ),
            Node::Throw { src } => self.throws_register(alloc, info, *src),
            Node::Return { src } => self.returns(alloc, program, info, *src),
            Node::Escape => self.escapes(alloc, program, info),
            Node::Stop { kind } => Ok(self.left_scope(info, *kind)),
            Node::Intrinsic { dst, which, args } => {
                self.intrinsic(alloc, info, *dst, *which, args.as_slice())
            }
            Node::Device { dst, .. } => self.asks_device(alloc, info, *dst, answer),
        }
    }
}
