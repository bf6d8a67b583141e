//! What an exit of a callee gives its caller (ES3 11.2.2, 11.2.3, 13.2.1, 13.2.2).

ghost use Rattle.std.specs.Prelude.{◌≡◌, ◌<◌, [], ◌∷◌, IfOk, vec_len};
ghost use Rattle.std.specs.List.{AllByRecursion};
ghost use Rattle.ja_base.specs.declared.ids.Reg.{Reg};
ghost use Rattle.ja_graph.specs.Node.{registers_named};
ghost use Rattle.ja_graph.specs.declared.node.Node.TheVariants as node;
ghost use Rattle.ja_machine.specs.Frames.{registers_of};
ghost use Rattle.ja_abstract.specs.AbstractValue.{of_label};
ghost use Rattle.ja_abstract.specs.Composed.{composed, renamed_value};
ghost use Rattle.ja_rows.specs.Calls as spec;
ghost use Rattle.ja_rows.specs.Out.{sets_in};
ghost use Rattle.ja_aheap.specs.Heap.{heap_of};
ghost use Rattle.ja_astate.specs.State.{state_of, HaveOneShape, IsStateOf};
ghost use Rattle.ja_value.specs.Value.{value_of};
ghost use Rattle.ja_flow.specs.Flow.{caller_node, caller_view, AreGivenMore, IsCaller};
ghost use Rattle.ja_flow.specs.code.Back.{destination, returned_value};
ghost use Rattle.ja_flow.specs.code.Calling.{state_in, IsCalling};

use crate::Caller;
use crate::calling::Calling;
use ja_astate::AState;
use ja_base::{Label, Memory, NodeId, Reg};
use ja_graph::{Node, THROWN};
use ja_transfer::States;
use ja_value::AValue;
use std::alloc::Global;

/// The register that has what a function returned, where a node enters one.
fn destination(node: &Node) -> Option<Reg>
    ensures { result ≡ destination node.now }
{
    match node {
        Node::Call { dst, .. } | Node::New { dst, .. } | Node::Convert { dst, .. } => Some(*dst),
        _ => None,
    }
}

/// What a construction gives: an object that its function returned, and its receiver, under the
/// label that it has at the exit, in the place of anything else.
fn constructed(
    alloc: Global,
    receiver: Label,
    exit: &AState,
    value: &AValue,
) -> Result<AValue, Memory>
    ensures { IfOk result (λ v. value_of v ≡ spec.constructed
        (renamed_value (state_of exit.now).mask (of_label receiver)) (value_of value.now)) }
{
    let objects = AValue::of_labels(alloc, value.labels.copy()?);
    if !value.has_atoms() {
        return Ok(objects);
    }
    let this = AValue::of_label(alloc, receiver)?;
    let mut all = exit.heap.renamed_value(alloc, &this)?;
    all.join(alloc, &objects)?;
    Ok(all)
}

/// What a node has of a value that a function returned.
fn returned_value(caller: &Caller<'_>, exit: &AState, value: &AValue) -> Result<AValue, Memory>
    ensures { IfOk result (λ v. value_of v ≡ returned_value (caller_node caller.now)
        (renamed_value (state_of exit.now).mask (of_label caller.now.edge.callee.receiver))
        (value_of value.now)) }
{
    let alloc = caller.reader.alloc;
    match &caller.info.node {
        Node::New { .. } => constructed(alloc, caller.edge.callee.receiver, exit, value),
        _ => value.copy(alloc),
    }
}

/// A state of the caller's function goes to a node.
fn gives(
    caller: &Caller<'_>,
    states: &mut States,
    next: NodeId,
    state: AState,
) -> Result<(), Memory>
    requires { HaveOneShape caller.now.reader.state.now state }
    ensures { IfOk result (λ _. AreGivenMore caller.now ((next.0, state_of state) ∷ [])
        states.old states.new) }
{
    states.list.push((next, state))?;
    Ok(())
}

/// The caller's state read through that at an exit, with a value in a register, goes to a node, if
/// the value has some part.
fn sets(
    caller: &Caller<'_>,
    calling: &Calling,
    exit: &AState,
    states: &mut States,
    dst: Reg,
    value: AValue,
    next: NodeId,
) -> Result<(), Memory>
    requires calling { IsCalling caller.now calling.now }
    requires dst { dst.0 < vec_len caller.now.reader.state.now.registers }
    requires sites { (heap_of caller.now.reader.state.now.heap).sites
        ≡ (heap_of exit.now.heap).sites }
    requires names { (heap_of caller.now.reader.state.now.heap).names
        ≡ (heap_of exit.now.heap).names }
    ensures { IfOk result (λ _. AreGivenMore caller.now (sets_in (caller_view caller.now)
        (composed caller.now.reader.program.now
        (state_of (state_in caller.now.reader.state.now calling.now)) (state_of exit.now))
        dst (value_of value) next) states.old states.new) }
{
    if !value.is_present(caller.reader.sites) {
        return Ok(());
    }
    let own = calling.state(caller.reader.state);
    let mut state = own.composed(caller.reader.alloc, exit)?;
    state.set_register(dst, value);
    gives(caller, states, next, state)
}

/// The caller goes on with what was returned.
fn returns(
    caller: &Caller<'_>,
    calling: &Calling,
    exit: &AState,
    states: &mut States,
    src: Reg,
) -> Result<(), Memory>
    requires caller { IsCaller caller.now }
    requires calling { IsCalling caller.now calling.now }
    requires exit { IsStateOf caller.now.reader.program.now
        (registers_of caller.now.reader.program.now caller.now.edge.callee.function) exit.now }
    requires src { src.0 < vec_len exit.now.registers }
    ensures { IfOk result (λ _. AreGivenMore caller.now (spec.given_back (caller_view caller.now)
        caller.now.edge caller.now.info.now (state_of exit.now) (node.Return src))
        states.old states.new) }
{
    let Some(dst) = destination(&caller.info.node) else {
        return Ok(());
    };
    let value = returned_value(caller, exit, exit.register(src))?;
    sets(caller, calling, exit, states, dst, value, caller.info.next)
}

/// What is thrown through the callee is thrown at the node.
fn escapes(
    caller: &Caller<'_>,
    calling: &Calling,
    exit: &AState,
    states: &mut States,
) -> Result<(), Memory>
    requires caller { IsCaller caller.now }
    requires calling { IsCalling caller.now calling.now }
    requires exit { IsStateOf caller.now.reader.program.now
        (registers_of caller.now.reader.program.now caller.now.edge.callee.function) exit.now }
    requires registers { 0 < vec_len exit.now.registers }
    ensures { IfOk result (λ _. AreGivenMore caller.now (spec.given_back (caller_view caller.now)
        caller.now.edge caller.now.info.now (state_of exit.now) node.Escape)
        states.old states.new) }
{
    let value = exit.register(THROWN).copy(caller.reader.alloc)?;
    sets(
        caller,
        calling,
        exit,
        states,
        THROWN,
        value,
        caller.info.handler,
    )
}

/// What the state at a node of the callee gives the caller, if the node is an exit.
pub fn give_back(
    caller: &Caller<'_>,
    calling: &Calling,
    exit: &AState,
    node: &Node,
    states: &mut States,
) -> Result<(), Memory>
    requires caller { IsCaller caller.now }
    requires calling { IsCalling caller.now calling.now }
    requires exit { IsStateOf caller.now.reader.program.now
        (registers_of caller.now.reader.program.now caller.now.edge.callee.function) exit.now }
    requires registers { AllByRecursion (λ (r : Reg). r.0 < vec_len exit.now.registers)
        (registers_named node.now) }
    ensures { IfOk result (λ _. AreGivenMore caller.now (spec.given_back (caller_view caller.now)
        caller.now.edge caller.now.info.now (state_of exit.now) node.now)
        states.old states.new) }
{
    match node {
        Node::Return { src } => returns(caller, calling, exit, states, *src),
        Node::Escape => escapes(caller, calling, exit, states),
        _ => Ok(()),
    }
}
