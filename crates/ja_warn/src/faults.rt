ghost use Rattle.std.specs.Prelude.{◌≡◌, ◌<◌, IfOk, None, Some, length};
ghost use Rattle.std.specs.BTreeMap.{IsOrdered};
ghost use Rattle.std.specs.List.{flat_map, AllByRecursion};
ghost use Rattle.ja_graph.specs.Program.{node_at, nodes_of};
ghost use Rattle.ja_graph.specs.WellFormed.{IsWellFormed};
ghost use Rattle.ja_astate.specs.Keys.{IsKeysOf};
ghost use Rattle.ja_rows.specs.Table.{IsClosed};
ghost use Rattle.ja_rows.specs.Warning.{AreWarnings};
ghost use Rattle.ja_sound.specs.Sound.{WarnsOfFaults};
ghost use Rattle.ja_table.specs.Tables.{table_of, Fits, FitsContext};
ghost use Rattle.ja_warn.specs.Told.{warnings_in, IsNamed, IsTold};
ghost use Rattle.ja_warn.specs.code.Faults.{Spot, found_at, held, reached_at, reached_of_context, spot_cmp, told_in};

use crate::found::Spot;
use crate::names::name_at;
use crate::nodes::add_operations;
use crate::reached::{Reached, Told};
use ja_astate::{ProgramKeys, Reader};
use ja_base::{FnId, Memory, NodeId, Seq};
use ja_graph::{NodeInfo, Program};
use ja_rows::Warning;
use ja_sound::warned_of_faults;
use ja_table::{ATable, ContextTable};
use std::alloc::{AllocError, Global};
use std::collections::BTreeMap;

// Adds the operations of a node, if the context has a state there.
fn add_node(
    alloc: Global,
    program: &Program,
    keys: &ProgramKeys,
    own: &ContextTable,
    nodes: &[NodeInfo],
    node: NodeId,
    info: &NodeInfo,
    found: &mut BTreeMap<Spot, Reached>,
) -> Result<(), Memory>
    requires program { IsWellFormed program.now }
    requires keys { IsKeysOf program.now keys.now }
    requires fits { FitsContext program.now own.now }
    requires nodes { nodes.now ≡ nodes_of program.now own.now.context.function }
    requires info { node_at program.now own.now.context.function node ≡ Some info.now }
    ensures { IfOk result (λ _. (k : Spot) → found_at found.new k
        ≡ held k (found_at found.old k) (reached_at program.now own.now node.0)) }
{
    let Some(state) = own.state(node) else {
        return Ok(());
    };
    let reader = Reader::new(alloc, program, keys, state, &own.entries);
    let name = name_at(&reader, nodes, node, &info.node)?;
    add_operations(&reader, own.context.function, info, &name, found)
}

// The nodes of a function.
fn nodes(program: &Program, function: FnId) -> &[NodeInfo]
    requires { function.0 < length program.now.functions }
    ensures { result.now ≡ nodes_of program.now function }
{
    program.functions.as_slice()[function.0 as usize]
        .nodes
        .as_slice()
}

// Adds the operations of the nodes at which a context has a state.
fn add_context(
    alloc: Global,
    program: &Program,
    keys: &ProgramKeys,
    own: &ContextTable,
    found: &mut BTreeMap<Spot, Reached>,
) -> Result<(), Memory>
    requires program { IsWellFormed program.now }
    requires keys { IsKeysOf program.now keys.now }
    requires fits { FitsContext program.now own.now }
    ensures { IfOk result (λ _. (k : Spot) → found_at found.new k
        ≡ held k (found_at found.old k) (reached_of_context program.now own.now)) }
{
    let nodes = nodes(program, own.context.function);
    for node in 0..nodes.len() {
        let number = NodeId(node as u32);
        add_node(
            alloc,
            program,
            keys,
            own,
            nodes,
            number,
            &nodes[node],
            found,
        )?;
    }
    Ok(())
}

// The operations that the table reaches, by the program's keys.
fn operations_by(
    alloc: Global,
    program: &Program,
    keys: &ProgramKeys,
    table: &ATable,
) -> Result<BTreeMap<Spot, Reached>, Memory>
    requires program { IsWellFormed program.now }
    requires keys { IsKeysOf program.now keys.now }
    requires fits { Fits program.now table.now }
    ensures { IfOk result (λ found. (k : Spot) → found_at found k
        ≡ held k None (flat_map (reached_of_context program.now) table.now.contexts.items)) }
{
    let mut found = BTreeMap::new(alloc);
    for own in &table.contexts {
        add_context(alloc, program, keys, own, &mut found)?;
    }
    Ok(found)
}

// The operations that the table reaches, each once.
fn operations(
    alloc: Global,
    program: &Program,
    table: &ATable,
) -> Result<BTreeMap<Spot, Reached>, Memory>
    requires program { IsWellFormed program.now }
    requires fits { Fits program.now table.now }
    ensures { IfOk result (λ found. (k : Spot) → found_at found k
        ≡ held k None (flat_map (reached_of_context program.now) table.now.contexts.items)) }
{
    let keys = ProgramKeys::new(alloc, program)?;
    operations_by(alloc, program, &keys, table)
}

// The warnings of those operations that may go wrong, in order, each with its value and name.
fn told_of(alloc: Global, found: BTreeMap<Spot, Reached>) -> Result<Vec<Told>, AllocError>
    ensures told { IfOk result (λ ts. ts.items ≡ told_in found) }
    ensures ordered { IsOrdered spot_cmp found }
{
    found
        .into_iter()
        .filter(|(_, reached)| reached.fault)
        .map(|(_, reached)| {
            let Reached {
                warning,
                fault: _,
                value,
                name,
            } = reached;
            Told {
                warning,
                value,
                name,
            }
        })
        .collect(alloc)
}

/// The warnings of a table (`warnings`), each with the value that the table says of what it is
/// about: the least one that has whatever is, in some state there, the callee, what is converted to
/// an object, the base of the name or the object whose property is read. Its name is such a value
/// too: of the variable, of the key of the property, or of what the callee was read by. `Memory`
/// comes where memory was refused.
pub fn told(alloc: Global, program: &Program, table: &ATable) -> Result<Seq<Told>, Memory>
    requires program { IsWellFormed program.now }
    requires fits { Fits program.now table.now }
    ensures warnings { IfOk result (λ ts. AreWarnings program.now (table_of table.now)
        (warnings_in ts)) }
    ensures values { IfOk result (AllByRecursion (IsTold program.now (table_of table.now))) }
    ensures names { IfOk result (AllByRecursion (IsNamed program.now (table_of table.now))) }
    ensures faults { IfOk result (λ ts. IsClosed program.now (table_of table.now)
        → WarnsOfFaults program.now (warnings_in ts)) }
{
    let found = operations(alloc, program, table)?;
    let told = told_of(alloc, found)?;
    warned_of_faults();
    Ok(Seq::from_vec(told))
}

// The warnings alone.
fn warnings_in(alloc: Global, told: &[Told]) -> Result<Vec<Warning>, AllocError>
    ensures { IfOk result (λ ws. ws.items ≡ warnings_in told.now) }
{
    told.iter().map(|told| told.warning).collect(alloc)
}

/// The warnings of a table, those of the text by line, column and kind, and those of the built-in
/// functions behind them: one for each operation at which a state of some context allows what goes
/// wrong: a callee that runs no function (ES3 11.2.3, 11.2.2), the object of undefined or null
/// (9.9), a name that no object of its scope chain has (8.7.1), and the read of a property that is
/// out of the profile, by a name or by a key that is one text. It is certain where no state there
/// allows anything else. `Memory` comes where memory was refused.
pub fn warnings(alloc: Global, program: &Program, table: &ATable) -> Result<Seq<Warning>, Memory>
    requires program { IsWellFormed program.now }
    requires fits { Fits program.now table.now }
    ensures warnings { IfOk result (AreWarnings program.now (table_of table.now)) }
    ensures faults { IfOk result (λ ws. IsClosed program.now (table_of table.now)
        → WarnsOfFaults program.now ws) }
{
    let told = told(alloc, program, table)?;
    let warnings = warnings_in(alloc, told.as_slice())?;
    Ok(Seq::from_vec(warnings))
}
