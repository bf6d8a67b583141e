ghost use Rattle.std.specs.Prelude.{◌≡◌, ◌≤◌, ◌+◌, true, false, length, IfOk, IfErr, OnOk, vec_len};
ghost use Rattle.ja_graph.specs.WellFormed.{IsWellFormed};
ghost use Rattle.ja_rows.specs.Table.{IsBuilt, IsClosed, IsItem, visited};
ghost use Rattle.ja_rows.specs.declared.table.Item.{Item};
ghost use Rattle.ja_rows.specs.declared.table.Item.TheVariants as item;
ghost use Rattle.ja_sound.specs.Sound.{CoversRuns};
ghost use Rattle.ja_table.specs.Tables.{table_of, Fits};
ghost use Rattle.ja_solve.specs.Solving.{Explains};
ghost use Rattle.ja_table.specs.code.Growing.{HasSameEdges};
ghost use Rattle.ja_rules.specs.code.Settled.{IsSettled};
ghost use Rattle.ja_solve.specs.code.Sweeps.{item_along, program_of, AreSettled, AreSettledAlong, AreStepped, AreSteppedAt, GoesOn, HasBuilt, IsUnchanged};
ghost use Rattle.ja_solve.specs.declared.solver.SolveFault.TheVariants as fault;

use crate::agenda::Agenda;
use ja_base::{Context, Memory, NodeId, Seq};
use ja_graph::Program;
use ja_rows::{Edge, Item};
use ja_rules::{Analysis, Changes};
use ja_sound::closed_covers;
use ja_table::{ATable, opening};
use std::alloc::{AllocFailed, Global};
use std::fmt::{self, Debug, Formatter};
use std::mem;
use thiserror::Error;

/// A closed table, and the visits that built it.
#[derive(Drop)]
pub struct Solved {
    pub table: ATable,
    pub visits: Seq<Item>,
}

/// Why there is no table: the budget is spent, after these visits; or memory was refused.
#[derive(Drop, Error)]
pub enum SolveFault {
    #[error("the budget is spent after {} visits", .visits.len())]
    Spent { visits: Seq<Item> },
    #[error("memory was refused")]
    Memory,
}

impl Debug for SolveFault {
    fn fmt<W: fmt::Write>(&self, f: &mut Formatter<W>) -> fmt::Result {
        match self {
            SolveFault::Spent { visits } => write!(f, "Spent after {} visits", visits.len()),
            SolveFault::Memory => f.write_str("Memory"),
        }
    }
}

impl From<Memory> for SolveFault {
    ghost from_gives = { λ _ e. e ≡ fault.Memory };

    fn from(_: Memory) -> Self {
        SolveFault::Memory
    }
}

impl<T: Drop> From<AllocFailed<T>> for SolveFault {
    ghost from_gives = { λ _ e. e ≡ fault.Memory };

    fn from(_: AllocFailed<T>) -> Self {
        SolveFault::Memory
    }
}

// What goes along an edge: values into the callee's entry, or states back from its exits.
#[derive(Clone, Copy)]
enum Along {
    Fill,
    Back,
}

impl Along {
    // The item of an edge.
    fn item(self, edge: Edge) -> Item
        ensures { result ≡ item_along self edge }
    {
        match self {
            Along::Fill => Item::Fill(edge),
            Along::Back => Item::Back(edge),
        }
    }
}

// What the solver works on: the analysis of a program, so many visits, the table so far, the visits
// that built it, and what is to be visited next.
#[derive(Drop)]
struct Work<'a> {
    alloc: Global,
    analysis: &'a Analysis<'a>,
    budget: u128,
    table: ATable,
    visits: Vec<Item>,
    agenda: Agenda,
}

impl Work<'_> {
    // Why there is no table, where an item's visit would change this one.
    fn spent(&mut self) -> SolveFault
        ensures { result ≡ fault.Spent self.old.visits.items }
    {
        let visits = mem::replace(&mut self.visits, Vec::new(self.alloc));
        SolveFault::Spent {
            visits: Seq::from_vec(visits),
        }
    }

    // Visits an item, keeps the visit if the table changed, and tells whether it did.
    fn take_turn(&mut self, item: Item) -> Result<bool, SolveFault>
        requires built { HasBuilt self.old }
        requires item { IsItem (program_of self.old) (table_of self.old.table) item }
        ensures built { OnOk result (HasBuilt self.new) }
        ensures visited { OnOk result (visited (program_of self.old) (table_of self.old.table) item
            ≡ table_of self.new.table) }
        ensures goes_on { OnOk result (GoesOn self.old self.new) }
        ensures kept { IfOk result (λ k. k ≡ true
            → vec_len self.new.visits ≡ vec_len self.old.visits + 1) }
        ensures same { IfOk result (λ k. k ≡ false → IsUnchanged self.old self.new) }
        ensures idle { IfOk result (λ k. k ≡ false
            → self.new.agenda.queue ≡ self.old.agenda.queue) }
        ensures edges { OnOk result (HasSameEdges item self.old.table self.new.table) }
        ensures fault { IfErr result (Explains (program_of self.old) self.old.budget) }
    {
        let mut changes = Changes::new(self.alloc);
        let changed = self
            .analysis
            .visit_with(&mut self.table, item, &mut changes)?;
        self.agenda.keep_reads(item, &changes)?;
        if !changed {
            return Ok(false);
        }
        if self.visits.len() as u128 >= self.budget {
            return Err(self.spent());
        }
        self.visits.push(item)?;
        self.agenda
            .wake(&self.table, self.analysis.program, item, &changes)?;
        Ok(true)
    }

    // ---- what is to be visited next

    // Whether the table has an item.
    fn has_item(&self, item: Item) -> bool
        requires { HasBuilt self.now }
        ensures { result ≡ true → IsItem (program_of self.now) (table_of self.now.table) item }
    {
        match item {
            Item::Open => true,
            Item::Step { context, node } => match self.table.at(context) {
                Some(own) => own.state(node).is_some(),
                None => false,
            },
            Item::Fill(edge) => self.table.place_of_edge(edge).is_some(),
            Item::Back(edge) => self.table.place_of_edge(edge).is_some(),
        }
    }

    // Visits what is to be visited next, until that changes the table, and tells whether it did.
    fn next_change(&mut self) -> Result<bool, SolveFault>
        requires built { HasBuilt self.old }
        ensures built { OnOk result (HasBuilt self.new) }
        ensures goes_on { OnOk result (GoesOn self.old self.new) }
        ensures more { IfOk result (λ k. k ≡ true
            → vec_len self.new.visits ≡ vec_len self.old.visits + 1) }
        ensures fault { IfErr result (Explains (program_of self.old) self.old.budget) }
    {
        'turns: loop {
            let Some(item) = self.agenda.next() else {
                return Ok(false);
            };
            if self.has_item(item) {
                let changed = self.take_turn(item)?;
                if changed {
                    return Ok(true);
                }
            }
        }
    }

    // Visits what is to be visited next, until there is nothing.
    fn drain(&mut self) -> Result<(), SolveFault>
        requires built { HasBuilt self.old }
        ensures built { OnOk result (HasBuilt self.new) }
        ensures goes_on { OnOk result (GoesOn self.old self.new) }
        ensures fault { IfErr result (Explains (program_of self.old) self.old.budget) }
    {
        'changes: loop {
            let changed = self.next_change()?;
            if !changed {
                return Ok(());
            }
        }
    }

    // ---- a sweep over each item

    // Visits an item: where that adds no visit it is settled.
    fn settle(&mut self, item: Item) -> Result<(), SolveFault>
        requires built { HasBuilt self.old }
        requires item { IsItem (program_of self.old) (table_of self.old.table) item }
        ensures built { OnOk result (HasBuilt self.new) }
        ensures goes_on { OnOk result (GoesOn self.old self.new) }
        ensures settled { OnOk result (IsUnchanged self.old self.new
            → IsSettled (program_of self.new) (table_of self.new.table) item) }
        ensures edges { OnOk result (HasSameEdges item self.old.table self.new.table) }
        ensures fault { IfErr result (Explains (program_of self.old) self.old.budget) }
    {
        self.take_turn(item)?;
        Ok(())
    }

    // Settles a node of a context, if it has a state.
    fn settle_step(&mut self, context: Context, node: NodeId) -> Result<(), SolveFault>
        requires built { HasBuilt self.old }
        ensures built { OnOk result (HasBuilt self.new) }
        ensures goes_on { OnOk result (GoesOn self.old self.new) }
        ensures settled { OnOk result (IsUnchanged self.old self.new
            → IsItem (program_of self.new) (table_of self.new.table) (item.Step context node)
            → IsSettled (program_of self.new) (table_of self.new.table)
            (item.Step context node)) }
        ensures fault { IfErr result (Explains (program_of self.old) self.old.budget) }
    {
        let Some(own) = self.table.at(context) else {
            return Ok(());
        };
        if own.state(node).is_some() {
            self.settle(Item::Step { context, node })?;
        }
        Ok(())
    }

    // Settles the nodes of a context that have a state, in order.
    fn settle_context(&mut self, context: Context) -> Result<(), SolveFault>
        requires built { HasBuilt self.old }
        ensures built { OnOk result (HasBuilt self.new) }
        ensures goes_on { OnOk result (GoesOn self.old self.new) }
        ensures settled { OnOk result (IsUnchanged self.old self.new
            → AreSteppedAt (program_of self.new) (table_of self.new.table) context) }
        ensures fault { IfErr result (Explains (program_of self.old) self.old.budget) }
    {
        let nodes = match self.table.at(context) {
            Some(own) => own.nodes.len(),
            None => 0,
        };
        for node in 0..nodes {
            self.settle_step(context, NodeId(node as u32))?;
        }
        Ok(())
    }

    // Settles the nodes of each context, those of contexts that are reached meanwhile too where
    // these come behind.
    fn settle_steps(&mut self) -> Result<(), SolveFault>
        requires built { HasBuilt self.old }
        ensures built { OnOk result (HasBuilt self.new) }
        ensures goes_on { OnOk result (GoesOn self.old self.new) }
        ensures settled { OnOk result (IsUnchanged self.old self.new
            → AreStepped (program_of self.new) (table_of self.new.table)) }
        ensures fault { IfErr result (Explains (program_of self.old) self.old.budget) }
    {
        let mut place = 0;
        'contexts: while place < self.table.contexts.len() {
            let context = self.table.contexts[place].context;
            self.settle_context(context)?;
            place = self.table.contexts_up_to(context);
        }
        Ok(())
    }

    // Settles the fill or the back of each edge.
    fn settle_along(&mut self, along: Along) -> Result<(), SolveFault>
        requires built { HasBuilt self.old }
        ensures built { OnOk result (HasBuilt self.new) }
        ensures goes_on { OnOk result (GoesOn self.old self.new) }
        ensures settled { OnOk result (IsUnchanged self.old self.new
            → AreSettledAlong (program_of self.new) (table_of self.new.table) along) }
        ensures fault { IfErr result (Explains (program_of self.old) self.old.budget) }
    {
        for place in 0..self.table.edges.len() {
            let edge = self.table.edges[place].edge;
            self.settle(along.item(edge))?;
        }
        Ok(())
    }

    // Settles each item: Open, the steps, the fills and the backs.
    fn sweep(&mut self) -> Result<(), SolveFault>
        requires built { HasBuilt self.old }
        ensures built { OnOk result (HasBuilt self.new) }
        ensures goes_on { OnOk result (GoesOn self.old self.new) }
        ensures settled { OnOk result (IsUnchanged self.old self.new
            → AreSettled (program_of self.new) (table_of self.new.table)) }
        ensures fault { IfErr result (Explains (program_of self.old) self.old.budget) }
    {
        self.settle(Item::Open)?;
        self.settle_steps()?;
        self.settle_along(Along::Fill)?;
        self.settle_along(Along::Back)
    }

    // Visits what is to be visited, and then each item, until that changes nothing.
    fn close(&mut self) -> Result<(), SolveFault>
        requires built { HasBuilt self.old }
        ensures built { OnOk result (HasBuilt self.new) }
        ensures goes_on { OnOk result (GoesOn self.old self.new) }
        ensures settled { OnOk result
            (AreSettled (program_of self.new) (table_of self.new.table)) }
        ensures fault { IfErr result (Explains (program_of self.old) self.old.budget) }
    {
        'sweeps: loop {
            self.drain()?;
            let before = self.visits.len();
            self.sweep()?;
            if self.visits.len() == before {
                return Ok(());
            }
        }
    }
}

/// Visits the items of the table as it stands until no visit changes it. Keeps the visits that did.
/// Of the items that are to be visited Open comes first; then the last that was another one, until
/// it changes nothing; then the context with the greatest function and receiver: the fills into it,
/// by node and caller, its steps by node, and what it gives back, by node and caller. `Spent` comes
/// where there are as many as the budget allows and one more would change the table, `Memory` where
/// memory was refused.
pub fn solve(alloc: Global, program: &Program, budget: u128) -> Result<Solved, SolveFault>
    requires program { IsWellFormed program.now }
    ensures fits { IfOk result (λ s. Fits program.now s.table) }
    ensures built { IfOk result (λ s. IsBuilt program.now s.visits (table_of s.table)) }
    ensures closed { IfOk result (λ s. IsClosed program.now (table_of s.table)) }
    ensures few { IfOk result (λ s. length s.visits ≤ budget) }
    ensures covers { IfOk result (λ s. CoversRuns program.now (table_of s.table)) }
    ensures explained { IfErr result (Explains program.now budget) }
{
    let analysis = Analysis::new(alloc, program)?;
    let mut work = Work {
        alloc,
        analysis: &analysis,
        budget,
        table: opening(alloc, program)?,
        visits: Vec::new(alloc),
        agenda: Agenda::new(alloc)?,
    };
    work.close()?;
    closed_covers();
    let Work {
        alloc: _,
        analysis: _,
        budget: _,
        table,
        visits,
        agenda: _,
    } = work;
    Ok(Solved {
        table,
        visits: Seq::from_vec(visits),
    })
}
