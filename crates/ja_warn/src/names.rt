//! The names of what operations are about.

ghost use Rattle.std.specs.Prelude.{◌≡◌, ◌<◌, ℕ, IfOk, IfSome, find, is_some, length, vec_len};
ghost use Rattle.std.specs.List.{AllByRecursion};
ghost use Rattle.std.specs.Option.{option_copied, option_map_or};
ghost use Rattle.ja_base.specs.declared.ids.Reg.{Reg};
ghost use Rattle.ja_graph.specs.declared.node.NodeInfo.{NodeInfo};
ghost use Rattle.ja_graph.specs.Node.{registers_named};
ghost use Rattle.ja_graph.specs.WellFormed.{IsWellFormed};
ghost use Rattle.ja_abstract.specs.AbstractValue.{no_value};
ghost use Rattle.ja_astate.specs.Looks.{view_of};
ghost use Rattle.ja_machine.specs.Nodes.{name_text};
ghost use Rattle.ja_rows.specs.Out.{at};
ghost use Rattle.ja_value.specs.Value.{value_of};
ghost use Rattle.ja_warn.specs.Told as spec;
ghost use Rattle.ja_warn.specs.Told.{named, text_value};
ghost use Rattle.ja_warn.specs.code.Names.{AreWithin, key_value};

use crate::reached::has_flag;
use ja_abstract::{NumberPart, TextPart};
use ja_astate::Reader;
use ja_base::{Memory, NameId, NodeId, Reg};
use ja_graph::{Node, NodeInfo, Program, register_set};
use ja_prim::{Primitive, Text16};
use ja_value::AValue;
use std::alloc::Global;

// ---- nodes beside a node

// The key of a property, if its object is in the register.
#[tactic(auto, unfolding(ja_graph::specs::Node::registers_named))]
fn key_of(register: Reg, node: &Node) -> Option<Reg>
    ensures value { result ≡ spec.key_of register node.now }
    ensures within { (count : ℕ) → AllByRecursion (λ (r : Reg). r.0 < count)
        (registers_named node.now) → IfSome result (λ key. key.0 < count) }
{
    match node {
        Node::ReadProp { object, key, .. }
        | Node::WriteProp { object, key, .. }
        | Node::DeleteProp { object, key, .. }
        | Node::HasProp { object, key, .. } => {
            if object.0 == register.0 {
                Some(*key)
            } else {
                None
            }
        }
        _ => None,
    }
}

// The first property whose object is in the register.
fn first_property(register: Reg, nodes: &[NodeInfo]) -> Option<&NodeInfo>
    ensures { option_copied result
        ≡ find (λ (i : NodeInfo). is_some (spec.key_of register i.node)) nodes.now }
{
    nodes
        .iter()
        .find(|info| key_of(register, &info.node).is_some())
}

// Whether a node sets the register.
fn is_set_by(register: Reg, node: &Node) -> bool
    ensures { result ≡ spec.is_set_by register node.now }
{
    match register_set(node) {
        Some(dst) => dst.0 == register.0,
        None => false,
    }
}

// The last node that sets the register.
fn setter(register: Reg, nodes: &[NodeInfo]) -> Option<&Node>
    ensures { option_copied result ≡ spec.setter register nodes.now }
{
    nodes
        .iter()
        .rev()
        .find(|info| is_set_by(register, &info.node))
        .map(|info| &info.node)
}

// ---- names as values

// A name of the program.
fn name_value(alloc: Global, program: &Program, name: NameId) -> Result<AValue, Memory>
    ensures { IfOk result (λ v. value_of v ≡ text_value (name_text program.now name)) }
{
    let text = match program.names.as_slice().get(name.0 as usize) {
        Some(text) => text.copy()?,
        None => Text16::from_ascii(alloc, b"")?,
    };
    Ok(AValue::of_text(alloc, text))
}

// The constant that the last of some nodes put into the register.
fn constant_name(alloc: Global, register: Reg, front: &[NodeInfo]) -> Result<AValue, Memory>
    ensures { IfOk result (λ v. value_of v
        ≡ spec.constant_name (spec.setter register front.now)) }
{
    match setter(register, front) {
        Some(
            Node::Const {
                prim: Primitive::Text(text),
                ..
            },
        ) => {
            let text = text.copy()?;
            Ok(AValue::of_text(alloc, text))
        }
        _ => Ok(AValue::empty(alloc)),
    }
}

// The name of the callee that the last of some nodes put into the register.
fn callee_name(
    alloc: Global,
    program: &Program,
    front: &[NodeInfo],
    callee: Reg,
) -> Result<AValue, Memory>
    ensures { IfOk result (λ v. value_of v
        ≡ spec.callee_name program.now front.now (spec.setter callee front.now)) }
{
    match setter(callee, front) {
        Some(Node::ReadRef { name, .. }) => name_value(alloc, program, *name),
        Some(Node::ReadProp { key, .. }) => constant_name(alloc, *key, front),
        _ => Ok(AValue::empty(alloc)),
    }
}

// The value of the key of a property, if its object is in the register.
fn value_of_key(reader: &Reader<'_>, register: Reg, node: &Node) -> Result<AValue, Memory>
    requires { AllByRecursion (λ (r : Reg). r.0 < vec_len reader.now.state.now.registers)
        (registers_named node.now) }
    ensures { IfOk result (λ v. value_of v
        ≡ option_map_or (at (view_of reader.now)) (spec.key_of register node.now) no_value) }
{
    match key_of(register, node) {
        Some(key) => reader.state.register(key).copy(reader.alloc),
        None => Ok(AValue::empty(reader.alloc)),
    }
}

// .. of the first property whose object is in the register.
fn key_value(reader: &Reader<'_>, register: Reg, behind: &[NodeInfo]) -> Result<AValue, Memory>
    requires { AreWithin (vec_len reader.now.state.now.registers) behind.now }
    ensures { IfOk result (λ v. value_of v ≡ key_value (view_of reader.now) register behind.now) }
{
    match first_property(register, behind) {
        Some(info) => value_of_key(reader, register, &info.node),
        None => Ok(AValue::empty(reader.alloc)),
    }
}

/// The value of the name of what a node is about, by a state at it: the name of a variable, the key
/// of a property, or what a callee was read by.
#[tactic(auto, unfolding(ja_graph::specs::Node::registers_named))]
pub(crate) fn name_at(
    reader: &Reader<'_>,
    nodes: &[NodeInfo],
    number: NodeId,
    node: &Node,
) -> Result<AValue, Memory>
    requires nodes { AreWithin (vec_len reader.now.state.now.registers) nodes.now }
    requires number { number.0 < length nodes.now }
    requires node { AllByRecursion (λ (r : Reg). r.0 < vec_len reader.now.state.now.registers)
        (registers_named node.now) }
    ensures { IfOk result (λ v. value_of v
        ≡ named (view_of reader.now) nodes.now number node.now) }
{
    let place = number.0 as usize;
    match node {
        Node::ReadRef { name, .. } | Node::ReadSoft { name, .. } => {
            name_value(reader.alloc, reader.program, *name)
        }
        Node::ReadProp { key, .. } => reader.state.register(*key).copy(reader.alloc),
        Node::ToObject { dst, .. } => key_value(reader, *dst, &nodes[place + 1..]),
        Node::Call { callee, .. } | Node::New { callee, .. } => {
            callee_name(reader.alloc, reader.program, &nodes[..place], *callee)
        }
        _ => Ok(AValue::empty(reader.alloc)),
    }
}

// ---- names as texts

/// The name that a value is: the one text, if the value is nothing else.
pub fn name_of<'a>(program: &Program, value: &'a AValue) -> Option<&'a Text16>
    requires { IsWellFormed program.now }
    ensures { option_copied result ≡ spec.name_of program.now (value_of value.now) }
{
    let others = has_flag(value.flags)
        | !matches!(value.number, NumberPart::Nothing)
        | value.has_labels(program.sites.len() as u32);
    if others {
        return None;
    }
    match &value.text {
        TextPart::One(text) => Some(text),
        _ => None,
    }
}
