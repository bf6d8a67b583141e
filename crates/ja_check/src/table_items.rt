//! The items of a table, in order.

ghost use Rattle.std.specs.Prelude.{◌≡◌, ◌++◌, OnOk, IfOk, map};
ghost use Rattle.std.specs.List.{flat_map};
ghost use Rattle.ja_graph.specs.WellFormed.{IsWellFormed};
ghost use Rattle.ja_rows.specs.declared.table.Item.TheVariants as item;
ghost use Rattle.ja_table.specs.Tables.{table_of, states_in, Fits, FitsContext};
ghost use Rattle.ja_table.specs.declared.table.CallEdge.{CallEdge as Kept};
ghost use Rattle.ja_check.specs.Check.{items_of, step_at};
ghost use Rattle.ja_check.specs.code.Checking.{steps_in};

use ja_base::{Memory, NodeId};
use ja_graph::Program;
use ja_rows::Item;
use ja_table::{ATable, CallEdge, ContextTable};
use std::alloc::Global;

// Lists the step of a node, if the context has a state there.
fn push_step(items: &mut Vec<Item>, own: &ContextTable, node: NodeId) -> Result<(), Memory>
    ensures { OnOk result (items.new.items ≡ items.old.items
        ++ step_at own.now.context (states_in own.now.nodes.items) node.0) }
{
    if own.state(node).is_some() {
        items.push(Item::Step {
            context: own.context,
            node,
        })?;
    }
    Ok(())
}

// Lists the steps of a context.
fn push_steps_of(items: &mut Vec<Item>, program: &Program, own: &ContextTable) -> Result<(), Memory>
    requires program { IsWellFormed program.now }
    requires fits { FitsContext program.now own.now }
    ensures { OnOk result (items.new.items ≡ items.old.items ++ steps_in program.now own.now) }
{
    for node in 0..own.nodes.len() {
        push_step(items, own, NodeId(node as u32))?;
    }
    Ok(())
}

// Lists the steps of each context.
fn push_steps(items: &mut Vec<Item>, program: &Program, table: &ATable) -> Result<(), Memory>
    requires program { IsWellFormed program.now }
    requires fits { Fits program.now table.now }
    ensures { OnOk result (items.new.items ≡ items.old.items
        ++ flat_map (steps_in program.now) table.now.contexts.items) }
{
    for own in &table.contexts {
        push_steps_of(items, program, own)?;
    }
    Ok(())
}

// Lists the fills of edges.
fn push_fills(items: &mut Vec<Item>, edges: &[CallEdge]) -> Result<(), Memory>
    ensures { OnOk result (items.new.items ≡ items.old.items
        ++ map (λ (d : Kept). item.Fill d.edge) edges.now) }
{
    for kept in edges {
        items.push(Item::Fill(kept.edge))?;
    }
    Ok(())
}

// Lists the backs of edges.
fn push_backs(items: &mut Vec<Item>, edges: &[CallEdge]) -> Result<(), Memory>
    ensures { OnOk result (items.new.items ≡ items.old.items
        ++ map (λ (d : Kept). item.Back d.edge) edges.now) }
{
    for kept in edges {
        items.push(Item::Back(kept.edge))?;
    }
    Ok(())
}

/// The items of a table, in order: Open, the steps by context and node, the fills of its edges, and
/// their backs. `Memory` comes where memory was refused.
pub fn items(alloc: Global, program: &Program, table: &ATable) -> Result<Vec<Item>, Memory>
    requires program { IsWellFormed program.now }
    requires fits { Fits program.now table.now }
    ensures { IfOk result (λ v. v.items ≡ items_of program.now (table_of table.now)) }
{
    let mut items = Vec::new(alloc);
    items.push(Item::Open)?;
    push_steps(&mut items, program, table)?;
    push_fills(&mut items, &table.edges)?;
    push_backs(&mut items, &table.edges)?;
    Ok(items)
}
