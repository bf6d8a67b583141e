ghost use Rattle.std.proofs.Props.{props};
ghost use Rattle.ja_astate.specs.Keys.{IsKeysOf};

use crate::changes::Changes;
use crate::settled::is_settled;
use crate::visits::visit;
use ja_astate::ProgramKeys;
use ja_base::Memory;
use ja_graph::Program;
use ja_rows::Item;
use ja_table::ATable;
use std::alloc::Global;

/// The analysis of a program, by visits of the items of its tables. The names and the keys of the
/// program are looked up once.
#[derive(Drop)]
pub struct Analysis<'a> {
    alloc: Global,
    pub program: &'a Program,
    keys: ProgramKeys,
    ghost keys_are: { IsKeysOf program.now keys } by { Prim.hlevel props },
}

impl<'a> Analysis<'a> {
    ghost use Rattle.std.specs.Prelude.{◌≡◌, ◌↔◌, IfOk, IsTrue, OnOk};
    ghost use Rattle.ja_graph.specs.WellFormed.{IsWellFormed};
    ghost use Rattle.ja_rows.specs.Table.{visited, IsItem};
    ghost use Rattle.ja_table.specs.Tables.{table_of, Fits};
    ghost use Rattle.ja_rules.specs.Visits.{IsVisited};
    ghost use Rattle.ja_table.specs.code.Growing.{HasSameEdges};

    /// The analysis of a program. `Memory` comes where memory was refused.
    pub fn new(alloc: Global, program: &'a Program) -> Result<Analysis<'a>, Memory>
        requires { IsWellFormed program.now }
        ensures { IfOk result (λ a. a.program.now ≡ program.now) }
    {
        let keys = ProgramKeys::new(alloc, program)?;
        Ok(Analysis {
            alloc,
            program,
            keys,
        })
    }

    /// Joins in what an item of the table gives, and tells whether the table changed. After
    /// `Memory` some of it may have been joined in, and the table is of no use.
    pub fn visit(&self, table: &mut ATable, item: Item) -> Result<bool, Memory>
        requires program { IsWellFormed self.now.program.now }
        requires fits { Fits self.now.program.now table.old }
        requires item { IsItem self.now.program.now (table_of table.old) item }
        ensures visited { IfOk result (IsVisited self.now.program.now item (table_of table.old)
            (table_of table.new)) }
        ensures edges { HasSameEdges item table.old table.new }
        ensures fits { OnOk result (Fits self.now.program.now table.new) }
    {
        let mut changes = Changes::new(self.alloc);
        self.visit_with(table, item, &mut changes)
    }

    /// Joins in what an item of the table gives, tells whether the table changed, and adds what
    /// changed, and what was read, to `changes`. After `Memory` some of it may have been joined in,
    /// and the table is of no use.
    pub fn visit_with(
        &self,
        table: &mut ATable,
        item: Item,
        changes: &mut Changes,
    ) -> Result<bool, Memory>
        requires program { IsWellFormed self.now.program.now }
        requires fits { Fits self.now.program.now table.old }
        requires item { IsItem self.now.program.now (table_of table.old) item }
        ensures visited { IfOk result (IsVisited self.now.program.now item (table_of table.old)
            (table_of table.new)) }
        ensures edges { HasSameEdges item table.old table.new }
        ensures fits { OnOk result (Fits self.now.program.now table.new) }
    {
        visit(self.alloc, self.program, &self.keys, table, item, changes)
    }

    /// Tests whether an item of the table is settled: its visit wouldn't change the table, which
    /// stays as it is here whatever the answer. `Memory` comes where memory was refused.
    pub fn settled(&self, table: &ATable, item: Item) -> Result<bool, Memory>
        requires program { IsWellFormed self.now.program.now }
        requires fits { Fits self.now.program.now table.now }
        requires item { IsItem self.now.program.now (table_of table.now) item }
        ensures { IfOk result (λ b. IsTrue b
            ↔ (visited self.now.program.now (table_of table.now) item ≡ table_of table.now)) }
    {
        is_settled(self.alloc, self.program, &self.keys, table, item)
    }
}
