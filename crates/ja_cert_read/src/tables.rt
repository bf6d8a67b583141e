//! Tables of contexts, built of what is listed of them.

ghost use Rattle.std.specs.Prelude.{◌≡◌, ◌++◌, ◌-◌, IfOk, OnOk, length};
ghost use Rattle.std.specs.List.{AllByRecursion};
ghost use Rattle.ja_graph.specs.Program.{nodes_of};
ghost use Rattle.ja_graph.specs.WellFormed.{IsWellFormed};
ghost use Rattle.ja_table.specs.Tables.{FitsContext};
ghost use Rattle.ja_table.specs.code.Growing.{no_nodes};
ghost use Rattle.ja_cert.specs.Wrong.{point_wrong};
ghost use Rattle.ja_cert_read.specs.code.Building.{AreRight};
ghost use Rattle.ja_cert_read.specs.code.Contexts.{listed_data, own_data, point_data, AreNodesOf, AreTablesOf, HasOwnState, IsContextAt, IsSaidOf};

use crate::contexts::ContextAt;
use crate::points::PointAt;
use crate::states::entries_of_parts;
use ja_base::{FnId, Memory};
use ja_graph::Program;
use ja_table::{ContextTable, NodeTable};
use std::alloc::Global;

/// How many nodes a function has.
fn node_count(program: &Program, function: FnId) -> usize
    ensures { result ≡ length (nodes_of program.now function) }
{
    match program.functions.as_slice().get(function.0 as usize) {
        Some(function) => function.nodes.len(),
        None => 0,
    }
}

/// Adds nodes without a state until there are so many.
fn fill_up(nodes: &mut Vec<NodeTable>, count: usize) -> Result<(), Memory>
    ensures { OnOk result (nodes.new.items
        ≡ nodes.old.items ++ no_nodes (count - length nodes.old.items)) }
{
    let missing = count.saturating_sub(nodes.len());
    for _ in 0..missing {
        nodes.push(NodeTable::new(None))?;
    }
    Ok(())
}

/// The nodes of a function, with the states that are listed.
fn nodes_of(
    alloc: Global,
    program: &Program,
    function: FnId,
    points: Vec<PointAt>,
) -> Result<Vec<NodeTable>, Memory>
    requires program { IsWellFormed program.now }
    requires right { AreRight (point_wrong program.now function) (point_data program.now function)
        points.items }
    requires states { AllByRecursion (HasOwnState program.now function) points.items }
    ensures { IfOk result (λ nodes. AreNodesOf program.now function points.items nodes.items) }
{
    let mut nodes = Vec::new(alloc);
    for point in points {
        fill_up(&mut nodes, point.node.0 as usize)?;
        nodes.push(NodeTable::new(Some(point.state)))?;
    }
    fill_up(&mut nodes, node_count(program, function))?;
    Ok(nodes)
}

/// The table of a context.
fn table_at(alloc: Global, program: &Program, listed: ContextAt) -> Result<ContextTable, Memory>
    requires program { IsWellFormed program.now }
    requires right { IsContextAt program.now listed }
    ensures fits { IfOk result (FitsContext program.now) }
    ensures context { IfOk result (λ c. c.context ≡ listed.context) }
    ensures listed { IfOk result (λ c. own_data program.now c ≡ listed_data program.now listed) }
    ensures said { IfOk result (IsSaidOf program.now) }
{
    let context = listed.context;
    let nodes = nodes_of(alloc, program, context.function, listed.points)?;
    let entries = entries_of_parts(alloc, program, listed.entries)?;
    Ok(ContextTable {
        context,
        nodes,
        entries,
    })
}

/// The tables of contexts.
pub(crate) fn tables_of(
    alloc: Global,
    program: &Program,
    contexts: Vec<ContextAt>,
) -> Result<Vec<ContextTable>, Memory>
    requires program { IsWellFormed program.now }
    requires right { AllByRecursion (IsContextAt program.now) contexts.items }
    ensures { IfOk result (λ tables. AreTablesOf program.now contexts.items tables.items) }
{
    let mut tables = Vec::new(alloc);
    for listed in contexts {
        tables.push(table_at(alloc, program, listed)?)?;
    }
    Ok(tables)
}
