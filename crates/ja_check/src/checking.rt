ghost use Rattle.std.specs.Prelude.{◌≡◌, ◌↔◌, All, IfErr, IfOk, IsTrue, OnOk};
ghost use Rattle.ja_graph.specs.WellFormed.{IsWellFormed};
ghost use Rattle.ja_rows.specs.Table.{HasOpening, IsClosed, IsItem};
ghost use Rattle.ja_table.specs.Tables.{table_of, Fits, FitsListed};
ghost use Rattle.ja_rules.specs.code.Settled.{IsSettled};
ghost use Rattle.ja_check.specs.Check.{Explains};
ghost use Rattle.ja_check.specs.code.Checking.{StopsAt};

use crate::CheckFault;
use crate::table_items::items;
use ja_astate::AState;
use ja_base::{Memory, NodeId};
use ja_graph::Program;
use ja_rows::Item;
use ja_rules::Analysis;
use ja_table::{ATable, is_leq, own_context};
use std::alloc::Global;

// Whether a table has the state in which the program begins, or one above it, at the entry of the
// program's own context.
fn has_opening(alloc: Global, program: &Program, table: &ATable) -> Result<bool, Memory>
    requires program { IsWellFormed program.now }
    requires fits { FitsListed program.now table.now }
    ensures { IfOk result (λ b. IsTrue b ↔ HasOpening program.now (table_of table.now)) }
{
    let Some(own) = table.at(own_context()) else {
        return Ok(false);
    };
    let Some(state) = own.state(NodeId(0)) else {
        return Ok(false);
    };
    let opening = AState::opening(alloc, program)?;
    is_leq(alloc, &opening, state)
}

// Tests items of the table one after another, as long as each is settled.
fn test_all(analysis: &Analysis<'_>, items: &[Item], table: &ATable) -> Result<(), CheckFault>
    requires program { IsWellFormed analysis.now.program.now }
    requires fits { Fits analysis.now.program.now table.now }
    requires items { All (IsItem analysis.now.program.now (table_of table.now)) items.now }
    ensures settled { OnOk result
        (All (IsSettled analysis.now.program.now (table_of table.now)) items.now) }
    ensures fault { IfErr result
        (StopsAt analysis.now.program.now (table_of table.now) items.now) }
{
    for item in items {
        let is_settled = analysis.settled(table, *item)?;
        if !is_settled {
            return Err(CheckFault::NotClosed { item: *item });
        }
    }
    Ok(())
}

/// Tests whether a table is closed: whether each of its items in order ([`items`]) is settled. The
/// table stays as it is, whatever the answer. `NotOpen` comes exactly where it hasn't the state in
/// which the program begins, which is tested first; `NotClosed` with the first item whose visit
/// would change it; and `Memory` where memory was refused.
pub fn check(alloc: Global, program: &Program, table: &ATable) -> Result<(), CheckFault>
    requires program { IsWellFormed program.now }
    requires fits { FitsListed program.now table.now }
    ensures closed { OnOk result (IsClosed program.now (table_of table.now)) }
    ensures fits { OnOk result (Fits program.now table.now) }
    ensures explained { IfErr result (Explains program.now (table_of table.now)) }
{
    if !has_opening(alloc, program, table)? {
        return Err(CheckFault::NotOpen);
    }
    let analysis = Analysis::new(alloc, program)?;
    let items = items(alloc, program, table)?;
    test_all(&analysis, &items, table)
}
