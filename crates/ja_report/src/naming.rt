//! The sites that call edges and visits name.

ghost use Rattle.std.specs.Prelude.{◌≡◌, ◌++◌, OnOk};
ghost use Rattle.std.specs.List.{flat_map};
ghost use Rattle.ja_table.specs.declared.table.CallEdge.{CallEdge as Kept};
ghost use Rattle.ja_report.specs.Lines.{context_sites};
ghost use Rattle.ja_report.specs.Report.{edge_sites, item_sites};

use ja_base::{Context, Memory};
use ja_rows::{Edge, Item};
use ja_table::CallEdge;

fn name_context(named: &mut Vec<u32>, context: Context) -> Result<(), Memory>
    ensures { OnOk result (named.new.items ≡ named.old.items ++ context_sites context) }
{
    named.push(context.receiver.site.0)?;
    Ok(())
}

fn name_edge(named: &mut Vec<u32>, edge: Edge) -> Result<(), Memory>
    ensures { OnOk result (named.new.items ≡ named.old.items ++ edge_sites edge) }
{
    name_context(named, edge.caller)?;
    name_context(named, edge.callee)?;
    Ok(())
}

#[tactic(auto, unfolding(crate::specs::Report::item_sites))]
fn name_item(named: &mut Vec<u32>, item: Item) -> Result<(), Memory>
    ensures { OnOk result (named.new.items ≡ named.old.items ++ item_sites item) }
{
    match item {
        Item::Open => {}
        Item::Step { context, .. } => name_context(named, context)?,
        Item::Fill(edge) | Item::Back(edge) => name_edge(named, edge)?,
    }
    Ok(())
}

/// Adds the sites that call edges name.
#[tactic(auto, using(crate::proofs::Rulesets::for_push_devices))]
pub(crate) fn name_edges(named: &mut Vec<u32>, edges: &[CallEdge]) -> Result<(), Memory>
    ensures { OnOk result (named.new.items ≡ named.old.items
        ++ flat_map (λ (e : Kept). edge_sites e.edge) edges.now) }
{
    for kept in edges {
        name_edge(named, kept.edge)?;
    }
    Ok(())
}

/// Adds the sites that visits name.
#[tactic(auto, using(crate::proofs::Rulesets::for_push_devices))]
pub(crate) fn name_items(named: &mut Vec<u32>, items: &[Item]) -> Result<(), Memory>
    ensures { OnOk result (named.new.items ≡ named.old.items ++ flat_map item_sites items.now) }
{
    for item in items {
        name_item(named, *item)?;
    }
    Ok(())
}
