ghost use Rattle.std.specs.Prelude.{◌≡◌, ◌≢◌, IfOk, IsSome, IsTrue, OnOk, Some, false, fold, true};
ghost use Rattle.std.specs.List.{AllByRecursion};
ghost use Rattle.ja_graph.specs.Program.{node_at};
ghost use Rattle.ja_graph.specs.WellFormed.{IsWellFormed};
ghost use Rattle.ja_rows.specs.declared.table.Item.TheVariants as items;
ghost use Rattle.ja_rows.specs.Table.{IsItem};
ghost use Rattle.ja_astate.specs.Keys.{IsKeysOf};
ghost use Rattle.ja_astate.specs.Looks.{view_of};
ghost use Rattle.ja_flow.specs.Flow.{AreGivenMore, IsCaller};
ghost use Rattle.ja_flow.specs.code.Calling.{IsCalling};
ghost use Rattle.ja_table.specs.Tables.{kept_state, table_of, Fits, FitsContext};
ghost use Rattle.ja_rules.specs.Visits.{IsVisited};
ghost use Rattle.ja_rules.specs.code.Ends.{AreEndsOf};
ghost use Rattle.ja_rules.specs.code.Exits.{given_at, has_left, is_left, AreAllGiven, IsGivenBack};
ghost use Rattle.ja_rules.specs.code.Filling.{IsFilled, IsOpened};
ghost use Rattle.ja_table.specs.code.Growing.{HasSameEdges, HasSameKeys};
ghost use Rattle.ja_rules.specs.code.Stepping.{with_entered, AreEntered, FitsEntered, IsCallerOf, IsOutcomeAt, IsStep};

use crate::changes::Changes;
use crate::entries::OpeningHeap;
use crate::joins::{demand_at, is_exit, join_state, join_states, set_values_at};
use ja_aheap::DemandList;
use ja_astate::{AState, ProgramKeys, Reader};
use ja_base::{Context, Memory, NodeId};
use ja_flow::{
    Caller, Calling, Entered, EntryValue, Filled, calling_of, enter, fill, give_back, values_for,
};
use ja_graph::{NodeInfo, Program};
use ja_nodes::transfer;
use ja_rows::{Edge, Item};
use ja_table::{ATable, ContextTable, node_info, own_context};
use ja_transfer::{Outcome, States};
use std::alloc::Global;

// ---- Open

// The values at entry of the program's own context that the opening heap changes.
pub(crate) fn opened_by(
    alloc: Global,
    program: &Program,
    table: &ATable,
) -> Result<Vec<EntryValue>, Memory>
    requires program { IsWellFormed program.now }
    requires fits { Fits program.now table.now }
    ensures { IfOk result (λ v. IsOpened program.now (table_of table.now) v.items) }
{
    let sites = program.sites.len() as u32;
    let names = program.names.len() as u32;
    let heap = OpeningHeap { alloc, program };
    let own = &table.contexts[0];
    let pairs = own.entries.pairs(alloc, sites, names)?;
    values_for(alloc, &heap, &own.entries, &pairs)
}

// Joins the contents of the opening heap into the values at entry of the program's own context.
fn visit_open(
    alloc: Global,
    program: &Program,
    table: &mut ATable,
    changes: &mut Changes,
) -> Result<bool, Memory>
    requires program { IsWellFormed program.now }
    requires fits { Fits program.now table.old }
    ensures visited { IfOk result (IsVisited program.now items.Open (table_of table.old)
        (table_of table.new)) }
    ensures kept { HasSameKeys table.old table.new }
    ensures fits { OnOk result (Fits program.now table.new) }
{
    let values = opened_by(alloc, program, table)?;
    set_values_at(alloc, table, own_context(), values, changes)
}

// ---- Step

// A function that is entered along an edge.
#[derive(Drop)]
pub(crate) struct Entry {
    pub edge: Edge,
    pub entered: Entered,
}

// The entries along the edges from a node.
fn entries_along(reader: &Reader<'_>, info: &NodeInfo, edges: &[Edge]) -> Result<Vec<Entry>, Memory>
    requires { AllByRecursion (IsCallerOf reader.now info.now) edges.now }
    ensures { IfOk result (λ v. AreEntered reader.now.program.now (view_of reader.now) info.now
        edges.now v.items) }
{
    let mut entries = Vec::new(reader.alloc);
    for edge in edges {
        let caller = Caller {
            reader: *reader,
            info,
            edge: *edge,
        };
        let entered = enter(&caller)?;
        entries.push(Entry {
            edge: *edge,
            entered,
        })?;
    }
    Ok(entries)
}

// What the step of a node gives, and the entries along its edges.
#[derive(Drop)]
pub(crate) struct Step {
    pub outcome: Outcome,
    pub entries: Vec<Entry>,
}

// What a node of a context does, from its state.
pub(crate) fn outcome_of(
    alloc: Global,
    program: &Program,
    keys: &ProgramKeys,
    own: &ContextTable,
    node: NodeId,
    state: &AState,
) -> Result<Outcome, Memory>
    requires program { IsWellFormed program.now }
    requires keys { IsKeysOf program.now keys.now }
    requires fits { FitsContext program.now own.now }
    requires node { IsSome (node_at program.now own.now.context.function node) }
    requires state { kept_state own.now.nodes.items node.0 ≡ Some state.now }
    ensures { IfOk result (IsOutcomeAt program.now own.now node state.now) }
{
    let info = node_info(program, own.context.function, node);
    transfer(
        alloc,
        program,
        keys,
        own.context,
        node,
        info,
        state,
        &own.entries,
    )
}

// What a node of a context does, with the entries along its edges.
pub(crate) fn step_with(
    alloc: Global,
    program: &Program,
    keys: &ProgramKeys,
    own: &ContextTable,
    node: NodeId,
    state: &AState,
    outcome: Outcome,
) -> Result<Step, Memory>
    requires program { IsWellFormed program.now }
    requires keys { IsKeysOf program.now keys.now }
    requires fits { FitsContext program.now own.now }
    requires node { IsSome (node_at program.now own.now.context.function node) }
    requires state { kept_state own.now.nodes.items node.0 ≡ Some state.now }
    requires outcome { IsOutcomeAt program.now own.now node state.now outcome }
    ensures { IfOk result (λ step. (step.outcome ≡ outcome)
        × IsStep program.now own.now node step) }
{
    let info = node_info(program, own.context.function, node);
    let reader = Reader::new(alloc, program, keys, state, &own.entries);
    let entries = entries_along(&reader, info, &outcome.edges)?;
    Ok(Step { outcome, entries })
}

// The step of a node of a context, from its state.
pub(crate) fn step_of(
    alloc: Global,
    program: &Program,
    keys: &ProgramKeys,
    own: &ContextTable,
    node: NodeId,
    state: &AState,
) -> Result<Step, Memory>
    requires program { IsWellFormed program.now }
    requires keys { IsKeysOf program.now keys.now }
    requires fits { FitsContext program.now own.now }
    requires node { IsSome (node_at program.now own.now.context.function node) }
    requires state { kept_state own.now.nodes.items node.0 ≡ Some state.now }
    ensures { IfOk result (IsStep program.now own.now node) }
{
    let outcome = outcome_of(alloc, program, keys, own, node, state)?;
    step_with(alloc, program, keys, own, node, state, outcome)
}

// Joins in what an edge gives: its callee, with the state that enters it, what that demands of the
// caller, and the edge.
fn take_entry(
    alloc: Global,
    program: &Program,
    table: &mut ATable,
    entry: Entry,
    changes: &mut Changes,
) -> Result<bool, Memory>
    requires program { IsWellFormed program.now }
    requires fits { Fits program.now table.old }
    requires entry { FitsEntered program.now (table_of table.old) entry }
    ensures taken { IfOk result (λ _. table_of table.new
        ≡ with_entered (table_of table.old) entry) }
    ensures changed { IfOk result (λ c. c ≡ true → table_of table.new ≢ table_of table.old) }
    ensures same { IfOk result (λ c. c ≡ false → table_of table.new ≡ table_of table.old) }
    ensures fits { OnOk result (Fits program.now table.new) }
{
    let Entry { edge, entered } = entry;
    let Entered { state, demands } = entered;
    let is_reached = table.add_context(alloc, program, edge.callee)?;
    let is_joined = join_state(alloc, program, table, edge.callee, NodeId(0), state)?;
    changes.note_state(edge.callee, NodeId(0), is_joined)?;
    let is_demanded = demand_at(alloc, table, edge.caller, demands, changes)?;
    let is_called = table.add_edge(program, edge)?;
    changes.note_edge(edge, is_called)?;
    Ok(is_reached | is_joined | is_demanded | is_called)
}

// Joins in what each of some edges gives.
fn take_entries(
    alloc: Global,
    program: &Program,
    table: &mut ATable,
    entries: Vec<Entry>,
    changes: &mut Changes,
) -> Result<bool, Memory>
    requires program { IsWellFormed program.now }
    requires fits { Fits program.now table.old }
    requires entries { AllByRecursion (FitsEntered program.now (table_of table.old)) entries.items }
    ensures taken { IfOk result (λ _. table_of table.new
        ≡ fold with_entered (table_of table.old) entries.items) }
    ensures changed { IfOk result (λ c. c ≡ true → table_of table.new ≢ table_of table.old) }
    ensures same { IfOk result (λ c. c ≡ false → table_of table.new ≡ table_of table.old) }
    ensures fits { OnOk result (Fits program.now table.new) }
{
    let mut changed = false;
    for entry in entries {
        let taken = take_entry(alloc, program, table, entry, changes)?;
        changed = changed | taken;
    }
    Ok(changed)
}

// Takes the step of a node that has a state in a context.
fn visit_step(
    alloc: Global,
    program: &Program,
    keys: &ProgramKeys,
    table: &mut ATable,
    context: Context,
    node: NodeId,
    changes: &mut Changes,
) -> Result<bool, Memory>
    requires program { IsWellFormed program.now }
    requires keys { IsKeysOf program.now keys.now }
    requires fits { Fits program.now table.old }
    requires item { IsItem program.now (table_of table.old) (items.Step context node) }
    ensures visited { IfOk result (IsVisited program.now (items.Step context node)
        (table_of table.old) (table_of table.new)) }
    ensures fits { OnOk result (Fits program.now table.new) }
{
    let Some(own) = table.at(context) else {
        return Ok(false);
    };
    let Some(state) = own.state(node) else {
        return Ok(false);
    };
    let Step { outcome, entries } = step_of(alloc, program, keys, own, node, state)?;
    let is_joined = join_states(alloc, program, table, context, outcome.states.list, changes)?;
    let is_demanded = demand_at(alloc, table, context, outcome.demands, changes)?;
    let is_taken = take_entries(alloc, program, table, entries, changes)?;
    Ok(is_joined | is_demanded | is_taken)
}

// ---- the ends of an edge

// The caller of an edge, with its state at the edge's node, and the callee.
#[derive(Clone, Copy)]
struct Ends<'a> {
    caller: Caller<'a>,
    callee: &'a ContextTable,
}

// The ends of an edge, if the caller has a state at its node.
fn ends_of<'a>(
    alloc: Global,
    program: &'a Program,
    keys: &'a ProgramKeys,
    table: &'a ATable,
    edge: Edge,
) -> Option<Ends<'a>>
    requires program { IsWellFormed program.now }
    requires keys { IsKeysOf program.now keys.now }
    requires fits { Fits program.now table.now }
    requires edge { IsTrue ((table_of table.now).edge edge) }
    ensures { AreEndsOf program.now table.now edge result }
{
    let own = table.at(edge.caller)?;
    let callee = table.at(edge.callee)?;
    let state = own.state(edge.node)?;
    let caller = Caller {
        reader: Reader::new(alloc, program, keys, state, &own.entries),
        info: node_info(program, edge.caller.function, edge.node),
        edge,
    };
    Some(Ends { caller, callee })
}

// ---- Fill

// The values of a callee's entry, by the state of its caller.
pub(crate) fn filled_by<'a>(
    alloc: Global,
    program: &'a Program,
    keys: &'a ProgramKeys,
    table: &'a ATable,
    edge: Edge,
) -> Result<Option<Filled>, Memory>
    requires program { IsWellFormed program.now }
    requires keys { IsKeysOf program.now keys.now }
    requires fits { Fits program.now table.now }
    requires edge { IsTrue ((table_of table.now).edge edge) }
    ensures { IfOk result (IsFilled program.now (table_of table.now) edge) }
{
    let Some(Ends { caller, callee }) = ends_of(alloc, program, keys, table, edge) else {
        return Ok(None);
    };
    let filled = fill(&caller, &callee.entries)?;
    Ok(Some(filled))
}

// Fills the values that a callee demands of its entry.
fn visit_fill(
    alloc: Global,
    program: &Program,
    keys: &ProgramKeys,
    table: &mut ATable,
    edge: Edge,
    changes: &mut Changes,
) -> Result<bool, Memory>
    requires program { IsWellFormed program.now }
    requires keys { IsKeysOf program.now keys.now }
    requires fits { Fits program.now table.old }
    requires item { IsItem program.now (table_of table.old) (items.Fill edge) }
    ensures visited { IfOk result (IsVisited program.now (items.Fill edge)
        (table_of table.old) (table_of table.new)) }
    ensures kept { HasSameKeys table.old table.new }
    ensures fits { OnOk result (Fits program.now table.new) }
{
    let Some(Filled { values, demands }) = filled_by(alloc, program, keys, table, edge)? else {
        return Ok(false);
    };
    let is_filled = set_values_at(alloc, table, edge.callee, values, changes)?;
    let is_demanded = demand_at(alloc, table, edge.caller, demands, changes)?;
    Ok(is_filled | is_demanded)
}

// ---- Back

// What the exits of a callee give back, and what that takes from the caller's entry.
#[derive(Drop)]
pub(crate) struct Given {
    pub states: States,
    pub demands: DemandList,
}

// Whether a node is an exit at which a context has a state.
fn is_left(program: &Program, callee: &ContextTable, node: NodeId) -> bool
    requires program { IsWellFormed program.now }
    requires node { IsSome (node_at program.now callee.now.context.function node) }
    ensures { result ≡ is_left program.now callee.now node.0 }
{
    let info = node_info(program, callee.context.function, node);
    is_exit(&info.node) && callee.state(node).is_some()
}

// Whether a context has a state at one of its exits.
fn has_exit(program: &Program, callee: &ContextTable) -> bool
    requires program { IsWellFormed program.now }
    requires fits { FitsContext program.now callee.now }
    ensures { result ≡ has_left program.now callee.now }
{
    for node in 0..callee.nodes.len() {
        if is_left(program, callee, NodeId(node as u32)) {
            return true;
        }
    }
    false
}

// What a node of the callee gives back, if it is an exit with a state.
fn add_given(
    caller: &Caller<'_>,
    calling: &Calling,
    callee: &ContextTable,
    node: NodeId,
    states: &mut States,
) -> Result<(), Memory>
    requires caller { IsCaller caller.now }
    requires calling { IsCalling caller.now calling.now }
    requires fits { FitsContext caller.now.reader.program.now callee.now }
    requires callee { callee.now.context ≡ caller.now.edge.callee }
    requires node { IsSome (node_at caller.now.reader.program.now
        callee.now.context.function node) }
    ensures { IfOk result (λ _. AreGivenMore caller.now
        (given_at caller.now callee.now node.0) states.old states.new) }
{
    let Some(exit) = callee.state(node) else {
        return Ok(());
    };
    let info = node_info(caller.reader.program, callee.context.function, node);
    give_back(caller, calling, exit, &info.node, states)
}

// What each node of the callee gives back.
fn all_given(caller: &Caller<'_>, callee: &ContextTable) -> Result<Given, Memory>
    requires caller { IsCaller caller.now }
    requires fits { FitsContext caller.now.reader.program.now callee.now }
    requires callee { callee.now.context ≡ caller.now.edge.callee }
    ensures { IfOk result (AreAllGiven caller.now callee.now) }
{
    let calling = calling_of(caller)?;
    let mut states = States::new(caller.reader.alloc);
    for node in 0..callee.nodes.len() {
        add_given(caller, &calling, callee, NodeId(node as u32), &mut states)?;
    }
    Ok(Given {
        states,
        demands: calling.demands,
    })
}

// What the exits of a callee give its caller, if there is one with a state.
pub(crate) fn given_by<'a>(
    alloc: Global,
    program: &'a Program,
    keys: &'a ProgramKeys,
    table: &'a ATable,
    edge: Edge,
) -> Result<Option<Given>, Memory>
    requires program { IsWellFormed program.now }
    requires keys { IsKeysOf program.now keys.now }
    requires fits { Fits program.now table.now }
    requires edge { IsTrue ((table_of table.now).edge edge) }
    ensures { IfOk result (IsGivenBack program.now (table_of table.now) edge) }
{
    let Some(Ends { caller, callee }) = ends_of(alloc, program, keys, table, edge) else {
        return Ok(None);
    };
    if !has_exit(program, callee) {
        return Ok(None);
    }
    let given = all_given(&caller, callee)?;
    Ok(Some(given))
}

// Gives what the exits of a callee give to its caller.
fn visit_back(
    alloc: Global,
    program: &Program,
    keys: &ProgramKeys,
    table: &mut ATable,
    edge: Edge,
    changes: &mut Changes,
) -> Result<bool, Memory>
    requires program { IsWellFormed program.now }
    requires keys { IsKeysOf program.now keys.now }
    requires fits { Fits program.now table.old }
    requires item { IsItem program.now (table_of table.old) (items.Back edge) }
    ensures visited { IfOk result (IsVisited program.now (items.Back edge)
        (table_of table.old) (table_of table.new)) }
    ensures kept { HasSameKeys table.old table.new }
    ensures fits { OnOk result (Fits program.now table.new) }
{
    let Some(Given { states, demands }) = given_by(alloc, program, keys, table, edge)? else {
        return Ok(false);
    };
    let is_joined = join_states(alloc, program, table, edge.caller, states.list, changes)?;
    let is_demanded = demand_at(alloc, table, edge.caller, demands, changes)?;
    Ok(is_joined | is_demanded)
}

// ---- each of them

// Joins in what an item of the table gives, tells whether the table changed, and adds what changed
// and what was read.
pub(crate) fn visit(
    alloc: Global,
    program: &Program,
    keys: &ProgramKeys,
    table: &mut ATable,
    item: Item,
    changes: &mut Changes,
) -> Result<bool, Memory>
    requires program { IsWellFormed program.now }
    requires keys { IsKeysOf program.now keys.now }
    requires fits { Fits program.now table.old }
    requires item { IsItem program.now (table_of table.old) item }
    ensures visited { IfOk result (IsVisited program.now item (table_of table.old)
        (table_of table.new)) }
    ensures edges { HasSameEdges item table.old table.new }
    ensures fits { OnOk result (Fits program.now table.new) }
{
    match item {
        Item::Open => visit_open(alloc, program, table, changes),
        Item::Step { context, node } => {
            visit_step(alloc, program, keys, table, context, node, changes)
        }
        Item::Fill(edge) => visit_fill(alloc, program, keys, table, edge, changes),
        Item::Back(edge) => visit_back(alloc, program, keys, table, edge, changes),
    }
}
