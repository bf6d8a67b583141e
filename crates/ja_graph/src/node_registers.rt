//! How many registers it takes for those of a node to be among them.

ghost use Rattle.std.specs.Prelude.{◌≡◌, ◌+◌, max};
ghost use Rattle.std.specs.Option.{option_to_list};
ghost use Rattle.ja_graph.specs.Node as spec;

use crate::{Args, Node, register_set};
use ja_base::Reg;

/// As many registers as there were, or so many that this one is among them.
fn with_register(first: u64, register: Reg) -> u64
    ensures { result ≡ max first (register.0 + 1) }
{
    first.max(u64::from(register.0) + 1)
}

fn with_list(first: u64, registers: &[Reg]) -> u64
    ensures { result ≡ spec.registers_with first registers.now }
{
    let mut count = first;
    for register in registers {
        count = with_register(count, *register);
    }
    count
}

fn with_optional(first: u64, register: Option<Reg>) -> u64
    ensures { result ≡ spec.registers_with first (option_to_list register) }
{
    match register {
        None => first,
        Some(register) => with_register(first, register),
    }
}

fn with_arguments(first: u64, args: &Args) -> u64
    ensures { result ≡ spec.registers_with first (spec.argument_registers args.now) }
{
    match args {
        Args::Registers(list) => with_list(first, list.as_slice()),
        Args::Elements(array) => with_register(first, *array),
        Args::Tail => first,
    }
}

/// As many registers as there were, or so many that those that a node names are among them, but for
/// the one that it sets.
#[tactic(auto, unfolding(crate::specs::Node::registers_named))]
pub(crate) fn registers_with_named(first: u64, node: &Node) -> u64
    ensures { result ≡ spec.registers_with first (spec.registers_named node.now) }
{
    match node {
        Node::Move { src, .. }
        | Node::ReadRef { base: src, .. }
        | Node::ReadSoft { base: src, .. }
        | Node::DeleteRef { base: src, .. }
        | Node::ToObject { src, .. }
        | Node::NeedObject { src, .. }
        | Node::Bind { src, .. }
        | Node::Unary { src, .. }
        | Node::Branch { src }
        | Node::Throw { src }
        | Node::Return { src } => with_register(first, *src),
        Node::WriteRef { base, src, .. } => with_list(first, &[*base, *src]),
        Node::ReadProp { object, key, .. }
        | Node::DeleteProp { object, key, .. }
        | Node::HasProp { object, key, .. } => with_list(first, &[*object, *key]),
        Node::WriteProp {
            object,
            key,
            src,
            ..
        } => with_list(first, &[*object, *key, *src]),
        Node::InstanceOf { left, right, .. } => with_list(first, &[*left, *right]),
        Node::Convert { src, other, .. } => with_optional(with_register(first, *src), *other),
        Node::Binary { a, b, .. } => with_list(first, &[*a, *b]),
        Node::Call {
            callee,
            receiver,
            args,
            ..
        } => { with_arguments(with_list(first, &[*callee, *receiver]), args) }
        Node::New { callee, args, .. } => {
            with_list(with_register(first, *callee), args.as_slice())
        }
        Node::Names { list, object } | Node::Pick { list, object, .. } => {
            with_list(first, &[*list, *object])
        }
        Node::Intrinsic { args, .. } => with_list(first, args.as_slice()),
        _ => first,
    }
}

/// As many registers as there were, or so many that those of a node are among them: one more than
/// the greatest number of these.
pub fn registers_with(first: u64, node: &Node) -> u64
    ensures { result ≡ spec.registers_with first (spec.registers_in node.now) }
{
    registers_with_named(with_optional(first, register_set(node)), node)
}
