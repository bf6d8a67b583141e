ghost use Rattle.std.specs.Prelude.{◌≡◌, ◌↔◌, IfOk, IsTrue, OnOk, false, true};
ghost use Rattle.ja_graph.specs.WellFormed.{IsWellFormed};
ghost use Rattle.ja_rows.specs.declared.table.Item.TheVariants as items;
ghost use Rattle.ja_rows.specs.Table.{Builds, IsBuilt, IsItem, Table};
ghost use Rattle.ja_table.specs.Tables.{table_of, Fits, FitsListed};

use crate::same_tables::is_same_table;
use ja_base::{Context, Memory, NodeId};
use ja_graph::Program;
use ja_rows::Item;
use ja_rules::Analysis;
use ja_table::{ATable, opening};
use std::alloc::Global;

// Whether a context has a state at a node.
fn has_state(program: &Program, table: &ATable, context: Context, node: NodeId) -> bool
    requires { Fits program.now table.now }
    ensures { IsTrue result
        ↔ IsItem program.now (table_of table.now) (items.Step context node) }
{
    match table.at(context) {
        Some(own) => own.state(node).is_some(),
        None => false,
    }
}

// Whether an item is one of a table.
fn is_item(program: &Program, table: &ATable, item: Item) -> bool
    requires { Fits program.now table.now }
    ensures { IsTrue result ↔ IsItem program.now (table_of table.now) item }
{
    match item {
        Item::Open => true,
        Item::Step { context, node } => has_state(program, table, context, node),
        Item::Fill(edge) => table.place_of_edge(edge).is_some(),
        Item::Back(edge) => table.place_of_edge(edge).is_some(),
    }
}

// Follows visits, each of an item of the table as it stands then, and tells whether each changed
// it.
fn follow(analysis: &Analysis<'_>, visits: &[Item], table: &mut ATable) -> Result<bool, Memory>
    requires program { IsWellFormed analysis.now.program.now }
    requires fits { Fits analysis.now.program.now table.old }
    ensures built { IfOk result (λ b. b ≡ true
        → Builds analysis.now.program.now (table_of table.old) visits.now (table_of table.new)) }
    ensures other { IfOk result (λ b. b ≡ false → (t : Table)
        → Builds analysis.now.program.now (table_of table.old) visits.now t → ⊥) }
    ensures fits { OnOk result (Fits analysis.now.program.now table.new) }
{
    for item in visits {
        if !is_item(analysis.program, table, *item) {
            return Ok(false);
        }
        let changed = analysis.visit(table, *item)?;
        if !changed {
            return Ok(false);
        }
    }
    Ok(true)
}

/// Tests whether visits build a table: from the table in which the solver begins, each is of an
/// item of the table so far and changes it, and the last one stands for the same as this. `Memory`
/// comes where memory was refused.
pub fn built(
    alloc: Global,
    program: &Program,
    visits: &[Item],
    table: &ATable,
) -> Result<bool, Memory>
    requires program { IsWellFormed program.now }
    requires fits { FitsListed program.now table.now }
    ensures { IfOk result (λ b. IsTrue b
        ↔ IsBuilt program.now visits.now (table_of table.now)) }
{
    let analysis = Analysis::new(alloc, program)?;
    let mut own = opening(alloc, program)?;
    let followed = follow(&analysis, visits, &mut own)?;
    if !followed {
        return Ok(false);
    }
    is_same_table(alloc, program, &own, table)
}
