//! Whether items are settled: what an item gives is computed as its visit does, and compared with
//! what the table has.

ghost use Rattle.std.specs.Prelude.{◌≡◌, ◌↔◌, IfOk, IsTrue, false, fold, map};
ghost use Rattle.std.specs.List.{AllByRecursion};
ghost use Rattle.ja_graph.specs.WellFormed.{IsWellFormed};
ghost use Rattle.ja_machine.specs.Frames.{registers_of};
ghost use Rattle.ja_rows.specs.declared.table.Item.TheVariants as items;
ghost use Rattle.ja_rows.specs.Table.{IsItem};
ghost use Rattle.ja_aheap.specs.Objects.{demands_in};
ghost use Rattle.ja_astate.specs.State.{state_of, IsStateOf};
ghost use Rattle.ja_astate.specs.Keys.{IsKeysOf};
ghost use Rattle.ja_transfer.specs.Outcomes.{given_by};
ghost use Rattle.ja_table.specs.Order.{AreContextsOrdered};
ghost use Rattle.ja_table.specs.Tables.{table_of, Fits};
ghost use Rattle.ja_rules.specs.code.Entries.{with_demands_at};
ghost use Rattle.ja_table.specs.code.Growing.{with_state_at, with_states_at};
ghost use Rattle.ja_rules.specs.code.Settled.{IsSettled, LacksOneOf};
ghost use Rattle.ja_rules.specs.code.Stepping.{with_entered, FitsEntered};

use crate::entries::are_demanded;
use crate::visits::{Entry, Given, filled_by, given_by, opened_by, outcome_of, step_with};
use ja_aheap::DemandList;
use ja_astate::{AState, ProgramKeys};
use ja_base::{Context, Memory, NodeId};
use ja_flow::Filled;
use ja_graph::Program;
use ja_rows::{Edge, Item};
use ja_table::{ATable, is_leq};
use std::alloc::Global;

// ---- what a table has already

// Whether a context has a state at a node, or one above it.
fn has_state(
    alloc: Global,
    program: &Program,
    table: &ATable,
    context: Context,
    node: NodeId,
    state: &AState,
) -> Result<bool, Memory>
    requires fits { Fits program.now table.now }
    requires state { IsStateOf program.now
        (registers_of program.now context.function) state.now }
    ensures { IfOk result (λ b. IsTrue b
        ↔ (with_state_at (table_of table.now) context node.0 (state_of state.now)
        ≡ table_of table.now)) }
{
    let Some(own) = table.at(context) else {
        return Ok(false);
    };
    let Some(kept) = own.state(node) else {
        return Ok(false);
    };
    is_leq(alloc, state, kept)
}

// Whether a context has each of some states at its node.
fn has_states(
    alloc: Global,
    program: &Program,
    table: &ATable,
    context: Context,
    states: &[(NodeId, AState)],
) -> Result<bool, Memory>
    requires fits { Fits program.now table.now }
    requires states { AllByRecursion (λ (s : NodeId × AState). IsStateOf program.now
        (registers_of program.now context.function) s.1) states.now }
    ensures { IfOk result (λ b. IsTrue b
        ↔ (with_states_at (table_of table.now) context (map given_by states.now)
        ≡ table_of table.now)) }
{
    let mut all = true;
    for given in states {
        let has = has_state(alloc, program, table, context, given.0, &given.1)?;
        all = all & has;
    }
    Ok(all)
}

// Whether a context that is reached has each of some demands.
fn has_demands(table: &ATable, context: Context, demands: &DemandList) -> bool
    requires ordered { AreContextsOrdered table.now.contexts.items }
    requires context { IsTrue ((table_of table.now).context context) }
    ensures { IsTrue result
        ↔ (with_demands_at (table_of table.now) context (demands_in demands.now)
        ≡ table_of table.now) }
{
    match table.at(context) {
        Some(own) => are_demanded(&own.entries, &demands.pairs),
        None => unreachable!(),
    }
}

// Whether a table has what an edge gives.
fn has_entry(
    alloc: Global,
    program: &Program,
    table: &ATable,
    entry: &Entry,
) -> Result<bool, Memory>
    requires fits { Fits program.now table.now }
    requires entry { FitsEntered program.now (table_of table.now) entry.now }
    ensures { IfOk result (λ b. IsTrue b
        ↔ (with_entered (table_of table.now) entry.now ≡ table_of table.now)) }
{
    let edge = entry.edge;
    let is_reached = table.place_of(edge.callee).is_some();
    let state = &entry.entered.state;
    let is_joined = has_state(alloc, program, table, edge.callee, NodeId(0), state)?;
    let is_demanded = has_demands(table, edge.caller, &entry.entered.demands);
    let is_called = table.place_of_edge(edge).is_some();
    Ok(is_reached & is_joined & is_demanded & is_called)
}

// Whether a table has what each of some edges gives.
fn has_entries(
    alloc: Global,
    program: &Program,
    table: &ATable,
    entries: &[Entry],
) -> Result<bool, Memory>
    requires fits { Fits program.now table.now }
    requires entries { AllByRecursion (FitsEntered program.now (table_of table.now)) entries.now }
    ensures { IfOk result (λ b. IsTrue b
        ↔ (fold with_entered (table_of table.now) entries.now ≡ table_of table.now)) }
{
    let mut all = true;
    for entry in entries {
        let has = has_entry(alloc, program, table, entry)?;
        all = all & has;
    }
    Ok(all)
}

// Whether a table has an edge.
fn has_edge(program: &Program, table: &ATable, edge: &Edge) -> bool
    requires { Fits program.now table.now }
    ensures { result ≡ (table_of table.now).edge edge.now }
{
    table.place_of_edge(*edge).is_some()
}

// Whether a table has each of some edges; the first that it lacks ends it.
fn has_edges(program: &Program, table: &ATable, edges: &[Edge]) -> bool
    requires { Fits program.now table.now }
    ensures { result ≡ false → LacksOneOf (table_of table.now) edges.now }
{
    for edge in edges {
        if !has_edge(program, table, edge) {
            return false;
        }
    }
    true
}

// ---- items

// Whether Open is.
fn is_open_settled(alloc: Global, program: &Program, table: &ATable) -> Result<bool, Memory>
    requires program { IsWellFormed program.now }
    requires fits { Fits program.now table.now }
    ensures { IfOk result (λ b. IsTrue b
        ↔ IsSettled program.now (table_of table.now) items.Open) }
{
    let values = opened_by(alloc, program, table)?;
    Ok(values.is_empty())
}

// Whether the step of a node that has a state in a context is. Where the table lacks one of its
// edges no entry is made: a certificate may say that a node calls anything.
fn is_step_settled(
    alloc: Global,
    program: &Program,
    keys: &ProgramKeys,
    table: &ATable,
    context: Context,
    node: NodeId,
) -> Result<bool, Memory>
    requires program { IsWellFormed program.now }
    requires keys { IsKeysOf program.now keys.now }
    requires fits { Fits program.now table.now }
    requires item { IsItem program.now (table_of table.now) (items.Step context node) }
    ensures { IfOk result (λ b. IsTrue b
        ↔ IsSettled program.now (table_of table.now) (items.Step context node)) }
{
    let Some(own) = table.at(context) else {
        return Ok(true);
    };
    let Some(state) = own.state(node) else {
        return Ok(true);
    };
    let outcome = outcome_of(alloc, program, keys, own, node, state)?;
    if !has_edges(program, table, &outcome.edges) {
        return Ok(false);
    }
    let step = step_with(alloc, program, keys, own, node, state, outcome)?;
    let is_joined = has_states(alloc, program, table, context, &step.outcome.states.list)?;
    let is_demanded = has_demands(table, context, &step.outcome.demands);
    let is_taken = has_entries(alloc, program, table, &step.entries)?;
    Ok(is_joined & is_demanded & is_taken)
}

// Whether the fill of an edge is.
fn is_fill_settled(
    alloc: Global,
    program: &Program,
    keys: &ProgramKeys,
    table: &ATable,
    edge: Edge,
) -> Result<bool, Memory>
    requires program { IsWellFormed program.now }
    requires keys { IsKeysOf program.now keys.now }
    requires fits { Fits program.now table.now }
    requires item { IsItem program.now (table_of table.now) (items.Fill edge) }
    ensures { IfOk result (λ b. IsTrue b
        ↔ IsSettled program.now (table_of table.now) (items.Fill edge)) }
{
    let Some(Filled { values, demands }) = filled_by(alloc, program, keys, table, edge)? else {
        return Ok(true);
    };
    let is_demanded = has_demands(table, edge.caller, &demands);
    Ok(values.is_empty() & is_demanded)
}

// Whether the back of an edge is.
fn is_back_settled(
    alloc: Global,
    program: &Program,
    keys: &ProgramKeys,
    table: &ATable,
    edge: Edge,
) -> Result<bool, Memory>
    requires program { IsWellFormed program.now }
    requires keys { IsKeysOf program.now keys.now }
    requires fits { Fits program.now table.now }
    requires item { IsItem program.now (table_of table.now) (items.Back edge) }
    ensures { IfOk result (λ b. IsTrue b
        ↔ IsSettled program.now (table_of table.now) (items.Back edge)) }
{
    let Some(Given { states, demands }) = given_by(alloc, program, keys, table, edge)? else {
        return Ok(true);
    };
    let is_joined = has_states(alloc, program, table, edge.caller, &states.list)?;
    let is_demanded = has_demands(table, edge.caller, &demands);
    Ok(is_joined & is_demanded)
}

// Whether an item of a table is settled: its visit wouldn't change the table.
pub(crate) fn is_settled(
    alloc: Global,
    program: &Program,
    keys: &ProgramKeys,
    table: &ATable,
    item: Item,
) -> Result<bool, Memory>
    requires program { IsWellFormed program.now }
    requires keys { IsKeysOf program.now keys.now }
    requires fits { Fits program.now table.now }
    requires item { IsItem program.now (table_of table.now) item }
    ensures { IfOk result (λ b. IsTrue b ↔ IsSettled program.now (table_of table.now) item) }
{
    match item {
        Item::Open => is_open_settled(alloc, program, table),
        Item::Step { context, node } => {
            is_step_settled(alloc, program, keys, table, context, node)
        }
        Item::Fill(edge) => is_fill_settled(alloc, program, keys, table, edge),
        Item::Back(edge) => is_back_settled(alloc, program, keys, table, edge),
    }
}
