ghost use Rattle.std.specs.Prelude.{◌≡◌, IfOk, All};
ghost use Rattle.ja_base.specs.declared.ids.NodeId.{NodeId};
ghost use Rattle.ja_rows.specs.Out.{nowhere};
ghost use Rattle.ja_rows.specs.Table.{point};
ghost use Rattle.ja_rows.specs.Transfer.{transfer, transfer_node};
ghost use Rattle.ja_aheap.specs.Entries.{entries_of};
ghost use Rattle.ja_astate.specs.State.{state_of, HaveOneShape};
ghost use Rattle.ja_astate.specs.declared.state.AState.{AState};
ghost use Rattle.ja_astate.specs.Keys.{IsKeysOf};
ghost use Rattle.ja_transfer.specs.Outcomes.{at_view, point_of, out_of, IsAtNode, IsOutcome};

use crate::constructs::construct;
use crate::enumeration::{names, pick};
use crate::instances::instance_of;
use crate::objects::{need_object, new_object, to_object};
use crate::properties::{delete_prop, has_prop, read_prop, write_prop};
use crate::scopes::{bind, push_scope};
use ja_aheap::{DemandList, DemandedEntries};
use ja_astate::{AState, ProgramKeys, Reader};
use ja_base::{Context, Memory, NodeId};
use ja_functions::{device, enter, intrinsic, make_function};
use ja_graph::{Node, NodeInfo, Program};
use ja_transfer::{Outcome, States, Stepper};
use std::alloc::Global;

/// The abstract step of a node, from a state at it in a context.
pub fn transfer(
    alloc: Global,
    program: &Program,
    keys: &ProgramKeys,
    context: Context,
    number: NodeId,
    info: &NodeInfo,
    state: &AState,
    entries: &DemandedEntries,
) -> Result<Outcome, Memory>
    requires keys { IsKeysOf program.now keys.now }
    requires node { IsAtNode program.now (point context number info.now) state.now }
    ensures out { IfOk result (λ o. out_of o ≡ transfer (record {
      program = program.now;
      state = state_of state.now;
      entries = entries_of entries.now;
    }) (point context number info.now)) }
    ensures fits { IfOk result (λ o. All
        (λ (s : NodeId × AState). HaveOneShape state.now s.1) o.states.list.items) }
{
    let reader = Reader::new(alloc, program, keys, state, entries);
    let stepper = Stepper {
        reader,
        context,
        number,
        info,
    };
    step(&stepper)
}

/// No node is next: the function, or the profile, is left.
fn nowhere(stepper: &Stepper<'_>) -> Outcome
    ensures { IsOutcome stepper.now nowhere result }
{
    let alloc = stepper.reader.alloc;
    stepper.outcome(States::new(alloc), DemandList::new(alloc))
}

/// The step of a node.
fn step(stepper: &Stepper<'_>) -> Result<Outcome, Memory>
    requires node { IsAtNode stepper.now.reader.program.now (point_of stepper.now)
        stepper.now.reader.state.now }
    ensures { IfOk result (IsOutcome stepper.now (transfer_node (at_view stepper.now)
        (point_of stepper.now) stepper.now.info.now stepper.now.info.now.node)) }
{
    match &stepper.info.node {
        Node::ToObject {
            dst,
            src,
            sites,
            error,
        } => to_object(stepper, *dst, *src, *sites, *error),
        Node::NeedObject { src, error } => need_object(stepper, *src, *error),
        Node::ReadProp { dst, object, key } => read_prop(stepper, *dst, *object, *key),
        Node::WriteProp {
            object,
            key,
            src,
            error,
        } => write_prop(stepper, *object, *key, *src, *error),
        Node::DeleteProp { dst, object, key } => delete_prop(stepper, *dst, *object, *key),
        Node::HasProp { dst, object, key } => has_prop(stepper, *dst, *object, *key),
        Node::InstanceOf {
            dst,
            left,
            right,
            not_function,
            not_object,
        } => instance_of(stepper, *dst, *left, *right, *not_function, *not_object),
        Node::NewObject { dst, site, kind } => new_object(stepper, *dst, *site, *kind),
        Node::Bind {
            name,
            src,
            read_only,
        } => bind(stepper, *name, *src, *read_only),
        Node::PushScope { site } => push_scope(stepper, *site),
        Node::New {
            callee,
            site,
            error,
            ..
        } => construct(stepper, *callee, *site, *error),
        Node::Names { object, .. } => names(stepper, *object),
        Node::Pick { dst, object, .. } => pick(stepper, *dst, *object),
        Node::Const { dst, prim } => stepper.constant(*dst, prim),
        Node::Move { dst, src } => stepper.copies(*dst, *src),
        Node::FindName { dst, name } => stepper.find_name(*dst, *name),
        Node::ReadRef {
            dst,
            base,
            name,
            error,
        } => stepper.read_ref(*dst, *base, *name, *error),
        Node::ReadSoft { dst, base, name } => stepper.read_soft(*dst, *base, *name),
        Node::WriteRef { base, name, src } => stepper.write_ref(*base, *name, *src),
        Node::DeleteRef { dst, base, name } => stepper.delete_ref(*dst, *base, *name),
        Node::Declare { name } => stepper.declare(*name),
        Node::Convert {
            dst,
            src,
            hint,
            other,
        } => stepper.convert(*dst, *src, *hint, *other),
        Node::Unary { dst, op, src } => stepper.unary(*dst, *op, *src),
        Node::Binary { dst, op, a, b } => stepper.binary(*dst, *op, *a, *b),
        Node::Branch { src } => stepper.branch(*src),
        Node::Call {
            callee,
            receiver,
            error,
            ..
        } => stepper.call(*callee, *receiver, *error),
        Node::Throw { src } => stepper.throw(*src),
        Node::Return { .. } | Node::Escape | Node::Stop { .. } => Ok(nowhere(stepper)),
        Node::MakeFunction {
            dst,
            function,
            site,
            proto_site,
        } => make_function(stepper, *dst, *function, *site, *proto_site),
        Node::Enter { site, arguments } => enter(stepper, *site, *arguments),
        Node::Intrinsic { dst, which, args } => {
            intrinsic(stepper, *dst, *which, args.as_slice())
        }
        Node::Device { dst, which } => device(stepper, *dst, *which),
    }
}
