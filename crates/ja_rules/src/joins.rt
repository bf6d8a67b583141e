//! What visits join into a table: states at nodes, demands, and values at entries. After `Memory`
//! some of it may have been joined in.

ghost use Rattle.std.specs.Prelude.{◌≡◌, ◌≢◌, ◌↔◌, [], IfOk, IfSome, IsSome, IsTrue, OnOk, Some, false, map, true};
ghost use Rattle.std.specs.List.{AllByRecursion};
ghost use Rattle.std.specs.Option.{option_map};
ghost use Rattle.ja_graph.specs.declared.program.Program.{Program};
ghost use Rattle.ja_graph.specs.Program.{node_at};
ghost use Rattle.ja_graph.specs.WellFormed.{IsWellFormed};
ghost use Rattle.ja_machine.specs.Frames.{registers_of};
ghost use Rattle.ja_rows.specs.Table.{is_exit, joined_state};
ghost use Rattle.ja_aheap.specs.Objects.{demands_in};
ghost use Rattle.ja_astate.specs.State.{state_of, HaveOneShape, IsStateOf};
ghost use Rattle.ja_transfer.specs.Outcomes.{given_by};
ghost use Rattle.ja_flow.specs.code.Pairs.{with_set};
ghost use Rattle.ja_table.specs.Order.{AreContextsOrdered};
ghost use Rattle.ja_table.specs.Tables.{states_in, table_of, Fits, FitsContext};
ghost use Rattle.ja_rules.specs.code.Entries.{with_demands_at, AreDemandsOf, AreValuesOf};
ghost use Rattle.ja_table.specs.code.Growing.{with_entries_at, with_given, with_state_at, with_states_at, HasSameKeys};

use crate::changes::Changes;
use crate::entries::demand_all;
use ja_aheap::DemandList;
use ja_astate::AState;
use ja_base::{Context, Memory, NodeId};
use ja_flow::{EntryValue, set_values};
use ja_graph::{Node, Program};
use ja_table::{ATable, ContextTable};
use std::alloc::Global;

// Joins a state into the one that is kept, if there is one, and tells whether that changes it.
fn join_kept(alloc: Global, kept: &mut Option<AState>, state: AState) -> Result<bool, Memory>
    requires { IfSome kept.old (λ s. HaveOneShape s state) }
    ensures joined { IfOk result (λ _. option_map state_of kept.new
        ≡ Some (joined_state (option_map state_of kept.old) (state_of state))) }
    ensures changed { IfOk result (λ c. c ≡ true
        → option_map state_of kept.new ≢ option_map state_of kept.old) }
    ensures same { IfOk result (λ c. c ≡ false
        → option_map state_of kept.new ≡ option_map state_of kept.old) }
    ensures shape { OnOk result (IfSome kept.new (HaveOneShape state)) }
{
    match kept {
        Some(before) => before.join(alloc, &state),
        None => {
            *kept = Some(state);
            Ok(true)
        }
    }
}

/// Whether a node leaves its function.
pub(crate) fn is_exit(node: &Node) -> bool
    ensures { result ≡ is_exit node.now }
{
    matches!(node, Node::Return { .. } | Node::Escape)
}

// Joins a state in at a node of a context, and tells whether the states changed.
fn join_at(
    alloc: Global,
    program: &Program,
    own: &mut ContextTable,
    node: NodeId,
    state: AState,
) -> Result<bool, Memory>
    requires program { IsWellFormed program.now }
    requires fits { FitsContext program.now own.old }
    requires node { IsSome (node_at program.now own.old.context.function node) }
    requires state { IsStateOf program.now
        (registers_of program.now own.old.context.function) state }
    ensures joined { IfOk result (λ _. states_in own.new.nodes.items
        ≡ with_given (states_in own.old.nodes.items) (node.0, state_of state)) }
    ensures changed { IfOk result (λ c. c ≡ true
        → states_in own.new.nodes.items ≢ states_in own.old.nodes.items) }
    ensures same { IfOk result (λ c. c ≡ false
        → states_in own.new.nodes.items ≡ states_in own.old.nodes.items) }
    ensures context { own.new.context ≡ own.old.context }
    ensures entries { own.new.entries ≡ own.old.entries }
    ensures fits { OnOk result (FitsContext program.now own.new) }
{
    let at = &mut own.nodes[node.0 as usize];
    let changed = join_kept(alloc, &mut at.state, state)?;
    Ok(changed)
}

/// Joins a state in at a node of a context that is reached, and tells whether that changes the
/// table.
pub(crate) fn join_state(
    alloc: Global,
    program: &Program,
    table: &mut ATable,
    context: Context,
    node: NodeId,
    state: AState,
) -> Result<bool, Memory>
    requires program { IsWellFormed program.now }
    requires fits { Fits program.now table.old }
    requires context { IsTrue ((table_of table.old).context context) }
    requires node { IsSome (node_at program.now context.function node) }
    requires state { IsStateOf program.now
        (registers_of program.now context.function) state }
    ensures joined { IfOk result (λ _. table_of table.new
        ≡ with_state_at (table_of table.old) context node.0 (state_of state)) }
    ensures changed { IfOk result (λ c. c ≡ true → table_of table.new ≢ table_of table.old) }
    ensures same { IfOk result (λ c. c ≡ false → table_of table.new ≡ table_of table.old) }
    ensures kept { HasSameKeys table.old table.new }
    ensures fits { OnOk result (Fits program.now table.new) }
{
    match table.place_of(context) {
        Some(place) => join_at(alloc, program, &mut table.contexts[place], node, state),
        None => unreachable!(),
    }
}

/// Joins states in at nodes of a context that is reached, the first of them first, and tells
/// whether that changes the table.
pub(crate) fn join_states(
    alloc: Global,
    program: &Program,
    table: &mut ATable,
    context: Context,
    states: Vec<(NodeId, AState)>,
    changes: &mut Changes,
) -> Result<bool, Memory>
    requires program { IsWellFormed program.now }
    requires fits { Fits program.now table.old }
    requires context { IsTrue ((table_of table.old).context context) }
    requires nodes { AllByRecursion (λ (s : NodeId × AState).
        IsSome (node_at program.now context.function s.0)) states.items }
    requires states { AllByRecursion (λ (s : NodeId × AState). IsStateOf program.now
        (registers_of program.now context.function) s.1) states.items }
    ensures joined { IfOk result (λ _. table_of table.new
        ≡ with_states_at (table_of table.old) context (map given_by states.items)) }
    ensures changed { IfOk result (λ c. c ≡ true → table_of table.new ≢ table_of table.old) }
    ensures same { IfOk result (λ c. c ≡ false → table_of table.new ≡ table_of table.old) }
    ensures kept { HasSameKeys table.old table.new }
    ensures fits { OnOk result (Fits program.now table.new) }
{
    let mut changed = false;
    for (node, state) in states {
        let joined = join_state(alloc, program, table, context, node, state)?;
        changes.note_state(context, node, joined)?;
        changed = changed | joined;
    }
    Ok(changed)
}

/// Demands pairs of the entry of a context that is reached, and tells whether one wasn't
/// demanded before.
pub(crate) fn demand_at(
    alloc: Global,
    table: &mut ATable,
    context: Context,
    demands: DemandList,
    changes: &mut Changes,
) -> Result<bool, Memory>
    requires ordered { AreContextsOrdered table.old.contexts.items }
    requires context { IsTrue ((table_of table.old).context context) }
    ensures demanded { IfOk result (λ _. table_of table.new
        ≡ with_demands_at (table_of table.old) context (demands_in demands)) }
    ensures changed { IfOk result (λ c. c ≡ true → table_of table.new ≢ table_of table.old) }
    ensures same { IfOk result (λ c. c ≡ false → table_of table.new ≡ table_of table.old) }
    ensures kept { HasSameKeys table.old table.new }
    ensures fits { OnOk result ((p : Program) → AreDemandsOf p (demands_in demands)
        → Fits p table.old → Fits p table.new) }
{
    changes.note_reads(&demands)?;
    let Some(place) = table.place_of(context) else {
        unreachable!();
    };
    let own = &mut table.contexts[place];
    let changed = demand_all(alloc, &mut own.entries, demands)?;
    changes.is_demanded = changes.is_demanded | changed;
    Ok(changed)
}

/// Sets values of the entry of a context that is reached, and tells whether there are some. After
/// `Memory` some of them may have been set.
pub(crate) fn set_values_at(
    alloc: Global,
    table: &mut ATable,
    context: Context,
    values: Vec<EntryValue>,
    changes: &mut Changes,
) -> Result<bool, Memory>
    requires ordered { AreContextsOrdered table.old.contexts.items }
    requires context { IsTrue ((table_of table.old).context context) }
    ensures set { IfOk result (λ _. table_of table.new
        ≡ with_entries_at (table_of table.old) context
        (with_set ((table_of table.old).entry context) values.items)) }
    ensures told { IfOk result (λ t. t ≡ false ↔ (values.items ≡ [])) }
    ensures kept { HasSameKeys table.old table.new }
    ensures fits { OnOk result ((p : Program) → AreValuesOf p values.items
        → Fits p table.old → Fits p table.new) }
{
    changes.note_values(&values)?;
    let Some(place) = table.place_of(context) else {
        unreachable!();
    };
    let own = &mut table.contexts[place];
    let changed = set_values(alloc, &mut own.entries, values)?;
    Ok(changed)
}
