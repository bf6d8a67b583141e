//! The state with which a function is entered (ES3 10.2).

ghost use Rattle.std.specs.Prelude.{◌≡◌, ◌<◌, IfOk, IfSome, false, length, map, vec_len};
ghost use Rattle.std.specs.List.{list_any, range_with_len};
ghost use Rattle.ja_base.specs.declared.ids.Label.{Label};
ghost use Rattle.ja_graph.specs.Program.{global};
ghost use Rattle.ja_graph.specs.WellFormed.{IsWellFormed};
ghost use Rattle.ja_machine.specs.Frames.{parameters_of, registers_of};
ghost use Rattle.ja_abstract.specs.AbstractState.{new};
ghost use Rattle.ja_abstract.specs.AbstractValue.{of_label, undefined_value};
ghost use Rattle.ja_abstract.specs.Made.{scope_key};
ghost use Rattle.ja_abstract.specs.Reading.{both, slot};
ghost use Rattle.ja_abstract.specs.Resolved.{demands_of};
ghost use Rattle.ja_rows.specs.Calls as spec;
ghost use Rattle.ja_rows.specs.Calls.{Arguments as Given};
ghost use Rattle.ja_aheap.specs.Objects.{demands_in};
ghost use Rattle.ja_astate.specs.State.{state_of, IsStateOf};
ghost use Rattle.ja_astate.specs.Looks.{view_of};
ghost use Rattle.ja_astate.specs.code.Pairs.{demands_over};
ghost use Rattle.ja_value.specs.Value.{labels_in, value_of};
ghost use Rattle.ja_flow.specs.Flow.{caller_node, caller_view, IsCaller, IsEntered};
ghost use Rattle.ja_flow.specs.code.Calling.{callee_of, IsCalling};
ghost use Rattle.ja_flow.specs.code.Given.{later_register, AreArguments, IsCalled};

use crate::Caller;
use crate::arguments::{Arguments, given, parameter_count};
use crate::calling::{Calling, callees, calling_of};
use ja_abstract::{Key, Slot};
use ja_aheap::DemandList;
use ja_astate::{AState, Reader};
use ja_base::{Context, FnId, Label, Memory};
use ja_graph::{CALLEE_REGISTER, COUNT, GLOBAL, Node, Program, REST, SCOPE, THIS};
use ja_value::{AValue, LabelSet};
use std::alloc::Global;

/// The slot of a function's scope chain.
const SCOPE_KEY: Key = Key::Slot(Slot::Scope);

/// The label of the global object.
const GLOBAL_LABEL: Label = Label {
    site: GLOBAL,
    old: false,
};

/// The state with which a function is entered, and the pairs of the caller's entry that are
/// demanded for it.
#[derive(Drop)]
pub struct Entered {
    pub state: AState,
    pub demands: DemandList,
}

/// The callee of a function's entry, and its scope chain.
#[derive(Drop)]
pub(crate) struct Called {
    pub callee: AValue,
    pub chain: AValue,
}

// ---- the callee and its scope chain

/// Whether a node converts an object to a primitive.
fn is_conversion(node: &Node) -> bool
    ensures { result ≡ spec.is_conversion node.now }
{
    matches!(node, Node::Convert { .. })
}

/// The scope chains of the objects of some labels.
fn chains(reader: &Reader<'_>, members: &[Label]) -> Result<LabelSet, Memory>
    ensures { IfOk result (λ s. labels_in s ≡ (λ m. list_any
        (λ (l : Label). (slot (view_of reader.now) l scope_key).label m) members.now)) }
{
    let mut labels = LabelSet::new(reader.alloc);
    for label in members {
        let property = reader.resolved(*label, SCOPE_KEY)?;
        labels.join(&property.value.labels)?;
    }
    Ok(labels)
}

/// Demands what that takes from the entry.
fn demand_chains(
    reader: &Reader<'_>,
    members: &[Label],
    demands: &mut DemandList,
) -> Result<(), Memory>
    ensures { IfOk result (λ _. demands_in demands.new ≡ both (demands_in demands.old)
        (demands_over members.now (λ l. demands_of (view_of reader.now).state l scope_key))) }
{
    for label in members {
        reader.demand(*label, SCOPE_KEY, demands)?;
    }
    Ok(())
}

/// The callees of a call or a construction that run a function, and their scope chains.
fn called_by(
    reader: &Reader<'_>,
    node: &Node,
    function: FnId,
    demands: &mut DemandList,
) -> Result<Called, Memory>
    requires callee { IfSome (callee_of node.now)
        (λ c. c.1.0 < vec_len reader.now.state.now.registers) }
    requires kind { spec.is_conversion node.now ≡ false }
    ensures called { IfOk result (IsCalled (view_of reader.now) node.now function.0) }
    ensures demands { IfOk result (λ _. demands_in demands.new ≡ both (demands_in demands.old)
        (spec.demands_of_chain (view_of reader.now) node.now function.0)) }
{
    let functions = callees(reader, node, function)?;
    let members = reader.labels(&functions)?;
    demand_chains(reader, &members, demands)?;
    let chain = chains(reader, &members)?;
    Ok(Called {
        callee: AValue::of_labels(reader.alloc, functions),
        chain: AValue::of_labels(reader.alloc, chain),
    })
}

/// No object is called by a conversion, and its scope chain is the global object.
fn converting(alloc: Global) -> Result<Called, Memory>
    ensures callee { IfOk result (λ c. value_of c.callee ≡ undefined_value) }
    ensures chain { IfOk result (λ c. value_of c.chain ≡ of_label (new global)) }
{
    let chain = AValue::of_label(alloc, GLOBAL_LABEL)?;
    Ok(Called {
        callee: AValue::undefined(alloc),
        chain,
    })
}

/// The callee of a function's entry, and its scope chain.
fn called_at(
    reader: &Reader<'_>,
    node: &Node,
    function: FnId,
    demands: &mut DemandList,
) -> Result<Called, Memory>
    requires { IfSome (callee_of node.now) (λ c. c.1.0 < vec_len reader.now.state.now.registers) }
    ensures called { IfOk result (IsCalled (view_of reader.now) node.now function.0) }
    ensures demands { IfOk result (λ _. demands_in demands.new ≡ both (demands_in demands.old)
        (spec.demands_of_chain (view_of reader.now) node.now function.0)) }
{
    if is_conversion(node) {
        converting(reader.alloc)
    } else {
        called_by(reader, node, function, demands)
    }
}

// ---- the registers

/// The value of a register behind those that each function has: of a parameter, of the rest of the
/// arguments, or of a temporary.
fn later_register(alloc: Global, given: &Arguments, number: usize) -> Result<AValue, Memory>
    ensures { IfOk result (λ v. (g : Given)
        → AreArguments (vec_len given.now.parameters) g given.now
        → value_of v ≡ later_register (vec_len given.now.parameters) g number) }
{
    let parameters = given.parameters.len();
    if number < parameters {
        given.parameters[number].copy(alloc)
    } else if number == parameters {
        given.rest.copy(alloc)
    } else {
        Ok(AValue::undefined(alloc))
    }
}

/// The value of a register at a function's entry.
fn entry_register(
    alloc: Global,
    receiver: Label,
    called: &Called,
    given: &Arguments,
    register: u32,
) -> Result<AValue, Memory>
    ensures { IfOk result (λ v. (g : Given)
        → AreArguments (vec_len given.now.parameters) g given.now
        → value_of v ≡ (spec.entry_of (vec_len given.now.parameters) (of_label receiver)
        (value_of called.now.chain) (value_of called.now.callee) g).register register) }
{
    if register == THIS.0 {
        AValue::of_label(alloc, receiver)
    } else if register == SCOPE.0 {
        called.chain.copy(alloc)
    } else if register == CALLEE_REGISTER.0 {
        called.callee.copy(alloc)
    } else if register == COUNT.0 {
        given.count.copy(alloc)
    } else if register >= REST.0 {
        later_register(alloc, given, (register - REST.0) as usize)
    } else {
        Ok(AValue::undefined(alloc))
    }
}

/// The values of so many registers.
fn entry_registers(
    alloc: Global,
    receiver: Label,
    called: &Called,
    given: &Arguments,
    count: u32,
) -> Result<Vec<AValue>, Memory>
    ensures values { IfOk result (λ v. (g : Given)
        → AreArguments (vec_len given.now.parameters) g given.now
        → map value_of v.items ≡ map (spec.entry_of (vec_len given.now.parameters)
        (of_label receiver) (value_of called.now.chain) (value_of called.now.callee) g).register
        (range_with_len 0 count)) }
    ensures count { IfOk result (λ v. vec_len v ≡ count) }
{
    let mut values = Vec::new(alloc);
    for register in 0..count {
        values.push(entry_register(alloc, receiver, called, given, register)?)?;
    }
    Ok(values)
}

/// How many registers a function has.
fn register_count(program: &Program, function: FnId) -> u32
    ensures { result ≡ registers_of program.now function }
{
    match program.functions.as_slice().get(function.0 as usize) {
        Some(function) => function.registers,
        None => 0,
    }
}

/// The state at a function's entry: each property is as it was, and nothing was made.
fn entry_state(
    alloc: Global,
    program: &Program,
    callee: Context,
    called: &Called,
    given: &Arguments,
) -> Result<AState, Memory>
    requires program { IsWellFormed program.now }
    requires function { callee.function.0 < length program.now.functions }
    requires parameters { vec_len given.now.parameters
        ≡ parameters_of program.now callee.function }
    ensures state { IfOk result (λ a. (g : Given)
        → AreArguments (vec_len given.now.parameters) g given.now → state_of a
        ≡ spec.entry_of (vec_len given.now.parameters) (of_label callee.receiver)
        (value_of called.now.chain) (value_of called.now.callee) g) }
    ensures shape { IfOk result
        (IsStateOf program.now (registers_of program.now callee.function)) }
{
    let count = register_count(program, callee.function);
    let registers = entry_registers(alloc, callee.receiver, called, given, count)?;
    let sites = program.sites.len() as u32;
    let names = program.names.len() as u32;
    AState::entry(alloc, registers, sites, names)
}

/// The state with which the edge enters its callee, from the caller's state at the node.
fn entered_from(caller: &Caller<'_>, calling: &Calling) -> Result<Entered, Memory>
    requires caller { IsCaller caller.now }
    requires calling { IsCalling caller.now calling.now }
    ensures state { IfOk result (λ e. state_of e.state ≡ (spec.entered_by
        (caller_view caller.now) caller.now.edge (caller_node caller.now)).state) }
    ensures demands { IfOk result (λ e. both (demands_in calling.now.demands)
        (demands_in e.demands) ≡ (spec.entered_by
        (caller_view caller.now) caller.now.edge (caller_node caller.now)).demands) }
    ensures shape { IfOk result (λ e. IsStateOf caller.now.reader.program.now
        (registers_of caller.now.reader.program.now caller.now.edge.callee.function) e.state) }
{
    let alloc = caller.reader.alloc;
    let program = caller.reader.program;
    let node = &caller.info.node;
    let callee = caller.edge.callee;
    let reader = calling.reader(caller.reader);
    let mut demands = DemandList::new(alloc);
    let called = called_at(&reader, node, callee.function, &mut demands)?;
    let parameters = parameter_count(program, callee.function);
    let given = given(&reader, caller.edge.caller.function, node, parameters)?;
    let state = entry_state(alloc, program, callee, &called, &given)?;
    demands.join(given.demands)?;
    Ok(Entered { state, demands })
}

/// The state with which the edge enters its callee, and what it demands of the caller.
pub fn enter(caller: &Caller<'_>) -> Result<Entered, Memory>
    requires { IsCaller caller.now }
    ensures { IfOk result (IsEntered caller.now (spec.entered_by (caller_view caller.now)
        caller.now.edge (caller_node caller.now))) }
{
    let calling = calling_of(caller)?;
    let Entered { state, demands } = entered_from(caller, &calling)?;
    let mut all = calling.demands;
    all.join(demands)?;
    Ok(Entered {
        state,
        demands: all,
    })
}
