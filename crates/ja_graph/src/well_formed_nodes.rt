//! Whether the numbers of a node are in range.

ghost use Rattle.std.specs.Prelude.{◌≡◌, ◌↔◌, ◌<◌, IsTrue, Some};
ghost use Rattle.std.specs.List.{AllByRecursion};
ghost use Rattle.std.specs.Option.{option_to_list};
ghost use Rattle.std.specs.Option.{option_map};
ghost use Rattle.std.specs.List.{slice_get};
ghost use Rattle.ja_base.specs.declared.ids.Reg.{Reg};
ghost use Rattle.ja_graph.specs.Node.{register_set, registers_named, name_in, function_in};
ghost use Rattle.ja_graph.specs.WellFormed as graph;

use crate::node_registers::registers_with_named;
use crate::{Args, FIXED_REGISTERS, Function, INTRINSICS, Node, NodeInfo, Program};
use ja_base::{FnId, NameId, Reg};

/// The register that a node sets, if it sets one.
#[tactic(auto, unfolding(crate::specs::Node::register_set))]
pub fn register_set(node: &Node) -> Option<Reg>
    ensures { result ≡ register_set node.now }
{
    match node {
        Node::Const { dst, .. }
        | Node::Move { dst, .. }
        | Node::FindName { dst, .. }
        | Node::ReadRef { dst, .. }
        | Node::ReadSoft { dst, .. }
        | Node::DeleteRef { dst, .. }
        | Node::ToObject { dst, .. }
        | Node::ReadProp { dst, .. }
        | Node::DeleteProp { dst, .. }
        | Node::HasProp { dst, .. }
        | Node::InstanceOf { dst, .. }
        | Node::NewObject { dst, .. }
        | Node::MakeFunction { dst, .. }
        | Node::Convert { dst, .. }
        | Node::Unary { dst, .. }
        | Node::Binary { dst, .. }
        | Node::Call { dst, .. }
        | Node::New { dst, .. }
        | Node::Pick { dst, .. }
        | Node::Intrinsic { dst, .. }
        | Node::Device { dst, .. } => Some(*dst),
        _ => None,
    }
}

/// The name of a node, if it has one.
#[tactic(auto, unfolding(crate::specs::Node::name_in))]
pub fn name_in(node: &Node) -> Option<NameId>
    ensures { result ≡ name_in node.now }
{
    match node {
        Node::FindName { name, .. }
        | Node::ReadRef { name, .. }
        | Node::ReadSoft { name, .. }
        | Node::WriteRef { name, .. }
        | Node::DeleteRef { name, .. }
        | Node::Declare { name }
        | Node::Bind { name, .. } => Some(*name),
        _ => None,
    }
}

/// The function that a node makes an object of.
#[tactic(auto, unfolding(crate::specs::Node::function_in))]
pub fn function_in(node: &Node) -> Option<FnId>
    ensures { result ≡ function_in node.now }
{
    match node {
        Node::MakeFunction { function, .. } => Some(*function),
        _ => None,
    }
}

/// Whether the registers that a node names, but for the one that it sets, are below a limit.
pub fn all_registers_below(node: &Node, limit: u32) -> bool
    ensures { IsTrue result ↔ AllByRecursion (λ (r : Reg). r.0 < limit) (registers_named node.now) }
{
    registers_with_named(0, node) <= u64::from(limit)
}

/// Whether a node may set a register of a function.
fn is_destination(function: &Function, register: Reg) -> bool
    ensures { IsTrue result ↔ graph.IsDestination function.now register }
{
    register.0 < function.registers
        && (register.0 == 0
            || register.0 == 2
            || (register.0 >= FIXED_REGISTERS
                && (register.0 - FIXED_REGISTERS) as usize >= function.parameters.len()))
}

/// Whether a node sets no register or one that it may set.
fn sets_destination(function: &Function, node: &Node) -> bool
    ensures { IsTrue result ↔ AllByRecursion (graph.IsDestination function.now)
        (option_to_list (register_set node.now)) }
{
    match register_set(node) {
        Some(register) => is_destination(function, register),
        None => true,
    }
}

/// Whether a node has no name or one of the program.
fn has_name(program: &Program, node: &Node) -> bool
    ensures { IsTrue result ↔ AllByRecursion (graph.IsName program.now)
        (option_to_list (name_in node.now)) }
{
    match name_in(node) {
        Some(name) => (name.0 as usize) < program.names.len(),
        None => true,
    }
}

/// Whether a function, if there is one, is one of the program.
pub(crate) fn is_function_if_any(program: &Program, function: Option<FnId>) -> bool
    ensures { IsTrue result ↔ AllByRecursion (graph.IsFunction program.now)
        (option_to_list function) }
{
    match function {
        Some(function) => (function.0 as usize) < program.functions.len(),
        None => true,
    }
}

/// Whether a table has a row of the number, which says so many arguments.
fn row_takes(rows: &[(&[u8], u32)], which: u32, count: usize) -> bool
    ensures { IsTrue result ↔ (option_map (λ row. row.1) (slice_get rows.now which) ≡ Some count) }
{
    match rows.get(which as usize) {
        Some((_, taken)) => *taken as usize == count,
        None => false,
    }
}

/// Whether there is an operation of the number, and it takes so many arguments.
fn takes_arguments(which: u32, count: usize) -> bool
    ensures { IsTrue result ↔ (graph.arguments_taken which ≡ Some count) }
{
    row_takes(&INTRINSICS, which, count)
}

/// Whether a function may have a node of this kind.
fn is_allowed(program: &Program, function: &Function, node: &Node) -> bool
    ensures { IsTrue result ↔ graph.IsAllowed program.now function.now node.now }
{
    match node {
        Node::Call {
            args: Args::Tail,
            ..
        } => function.parameters.len() <= 1,
        Node::Intrinsic { which, args, .. } => takes_arguments(*which, args.len()),
        Node::Device { which, .. } => (*which as usize) < program.signatures.len(),
        _ => true,
    }
}

/// Whether a node of a function is well formed.
pub fn is_node_well_formed(program: &Program, function: &Function, info: &NodeInfo) -> bool
    ensures { IsTrue result ↔ graph.IsNodeWellFormed program.now function.now info.now }
{
    let nodes = function.nodes.len();
    sets_destination(function, &info.node)
        && all_registers_below(&info.node, function.registers)
        && has_name(program, &info.node)
        && is_function_if_any(program, function_in(&info.node))
        && is_allowed(program, function, &info.node)
        && (info.next.0 as usize) < nodes
        && (info.other.0 as usize) < nodes
        && (info.handler.0 as usize) < nodes
}
