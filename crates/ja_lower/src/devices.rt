//! The functions of host devices.

ghost use Rattle.std.specs.Prelude.{◌≡◌, ◌≤◌, ℕ, length, IfOk};
ghost use Rattle.std.specs.List.{AllByRecursion};
ghost use Rattle.ja_graph.specs.WellFormed.{max_registers};
ghost use Rattle.ja_graph.specs.declared.program.TheConstants.{MAX_DEVICES};
ghost use Rattle.ja_lower.specs.Lowering as spec;

use crate::Body;
use crate::whole::whole_of;
use ja_base::{Memory, NodeId, Place, Reg, Seq};
use ja_graph::{Function, Node, NodeInfo};
use ja_prim::Signature;
use std::alloc::Global;

/// The first temporary of a function without parameters.
const REGISTER: Reg = Reg(6);

/// A node of such a function, from which a run goes on at a node.
fn device_node(node: Node, next: u32) -> NodeInfo
    ensures { result ≡ spec.device_node node next }
{
    NodeInfo {
        node,
        next: NodeId(next),
        other: NodeId(2),
        handler: NodeId(2),
        place: Place { line: 0, column: 1 },
    }
}

/// The function of the device of a number: the device is asked, and its answer returned.
fn device_body(alloc: Global, which: u32, signature: &Signature) -> Result<Body, Memory>
    ensures { IfOk result (λ body. body ≡ spec.device_body which signature.now) }
{
    let mut nodes = Vec::with_capacity(alloc, 3)?;
    let asks = Node::Device {
        dst: REGISTER,
        which,
    };
    nodes.push(device_node(asks, 1))?;
    nodes.push(device_node(Node::Return { src: REGISTER }, 2))?;
    nodes.push(device_node(Node::Escape, 2))?;
    Ok(Body {
        name: signature.name.copy()?,
        parameters: Seq::new(alloc),
        nodes: Seq::from_vec(nodes),
    })
}

/// The functions of devices, each by its name.
#[tactic(auto, unfolding(crate::specs::Lowering::device_bodies))]
fn device_bodies(alloc: Global, signatures: &[Signature]) -> Result<Vec<Body>, Memory>
    requires few { length signatures.now ≤ MAX_DEVICES }
    ensures { IfOk result (λ bodies. bodies.items ≡ spec.device_bodies signatures.now) }
{
    let mut bodies = Vec::with_capacity(alloc, signatures.len())?;
    for (which, signature) in signatures.iter().enumerate() {
        bodies.push(device_body(alloc, which as u32, signature)?)?;
    }
    Ok(bodies)
}

/// The functions of at most 64 devices, one for each, in their order. They make nothing, so they
/// are the same wherever sites are numbered from. The error is want of memory.
#[tactic(auto, using(crate::proofs::DeviceBodies::devices_alike))]
pub fn device_functions(alloc: Global, signatures: &[Signature]) -> Result<Seq<Function>, Memory>
    requires few { length signatures.now ≤ MAX_DEVICES }
    ensures functions { IfOk result (λ functions. (first : ℕ)
        → functions ≡ spec.functions_of first (spec.device_bodies signatures.now)) }
    ensures registers { IfOk result (λ functions.
        AllByRecursion (λ fn. fn.registers ≤ max_registers) functions) }
{
    let bodies = device_bodies(alloc, signatures)?;
    let whole = whole_of(alloc, 0, 0, bodies)?;
    Ok(Seq::from_vec(whole.functions))
}
