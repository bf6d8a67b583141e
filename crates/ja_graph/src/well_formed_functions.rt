//! Whether functions are well formed.

ghost use Rattle.std.specs.Prelude.{◌↔◌, ◌<◌, ◌≤◌, IsTrue};
ghost use Rattle.std.specs.List.{AllByRecursion};
ghost use Rattle.ja_graph.specs.code.Parts as spec;
ghost use Rattle.ja_graph.specs.WellFormed as graph;

use crate::well_formed_nodes::is_node_well_formed;
use crate::{FIXED_REGISTERS, Function, Node, NodeInfo, Program};
use ja_base::NameId;

/// The most registers that a function may have.
const MOST_REGISTERS: u32 = 262_144;

/// The most nodes that the functions of a program may have in all.
const MOST_NODES: usize = 131_072;

/// Whether the last of nodes is Escape.
fn is_last_escape(nodes: &[NodeInfo]) -> bool
    ensures { IsTrue result ↔ graph.LastIsEscape nodes.now }
{
    match nodes.last() {
        Some(info) => matches!(info.node, Node::Escape),
        None => false,
    }
}

/// Whether a function has the registers that each has, and not too many.
fn has_registers(function: &Function) -> bool
    ensures { IsTrue result ↔ ((graph.fixed_registers function.now ≤ function.now.registers)
        × (function.now.registers ≤ graph.max_registers)) }
{
    function.registers >= FIXED_REGISTERS
        && (function.registers - FIXED_REGISTERS) as usize >= function.parameters.len()
        && function.registers <= MOST_REGISTERS
}

/// Whether names are those of a program.
fn are_names(program: &Program, names: &[NameId]) -> bool
    ensures { IsTrue result ↔ AllByRecursion (graph.IsName program.now) names.now }
{
    for name in names {
        if name.0 as usize >= program.names.len() {
            return false;
        }
    }
    true
}

/// Whether each node of a function is well formed.
fn are_nodes_well_formed(program: &Program, function: &Function) -> bool
    ensures { IsTrue result ↔ spec.AreNodesWellFormed program.now function.now }
{
    for info in function.nodes.as_slice() {
        if !is_node_well_formed(program, function, info) {
            return false;
        }
    }
    true
}

/// Whether a function is well formed.
pub fn is_function_well_formed(program: &Program, function: &Function) -> bool
    ensures { IsTrue result ↔ graph.IsFunctionWellFormed program.now function.now }
{
    is_last_escape(function.nodes.as_slice())
        && has_registers(function)
        && are_names(program, function.parameters.as_slice())
        && are_nodes_well_formed(program, function)
}

/// Whether each function of a program is well formed.
pub(crate) fn are_functions_well_formed(program: &Program) -> bool
    ensures { IsTrue result ↔ spec.AreFunctionsWellFormed program.now }
{
    for function in program.functions.as_slice() {
        if !is_function_well_formed(program, function) {
            return false;
        }
    }
    true
}

/// Whether functions have at most 131,072 nodes in all.
pub(crate) fn have_few_nodes(functions: &[Function]) -> bool
    ensures { IsTrue result ↔ (graph.node_count functions.now ≤ graph.max_nodes) }
{
    let mut left = MOST_NODES;
    for function in functions {
        if function.nodes.len() > left {
            return false;
        }
        left -= function.nodes.len();
    }
    true
}
