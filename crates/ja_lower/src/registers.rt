//! How many registers a function has.

ghost use Rattle.std.specs.Prelude.{◌≡◌, ◌≤◌, IfOk};
ghost use Rattle.ja_graph.specs.WellFormed.{max_registers};
ghost use Rattle.ja_lower.specs.Lowering as spec;

use ja_base::Memory;
use ja_graph::{NodeInfo, registers_with};

/// The most registers that a function may have.
const MAX_REGISTERS: u64 = 262_144;

/// How many registers a function has: those that each function has, its parameters, and what its
/// nodes name. More than 262,144 count as refused memory.
#[tactic(auto, unfolding(crate::specs::Lowering::registers_of))]
pub(crate) fn register_count(parameters: usize, nodes: &[NodeInfo]) -> Result<u32, Memory>
    ensures count { IfOk result (λ count. count ≡ spec.registers_of parameters nodes.now) }
    ensures few { IfOk result (λ count. count ≤ max_registers) }
{
    if parameters > MAX_REGISTERS as usize {
        return Err(Memory);
    }
    let mut count = 6 + parameters as u64;
    for info in nodes {
        count = registers_with(count, &info.node);
    }
    if count > MAX_REGISTERS {
        return Err(Memory);
    }
    Ok(count as u32)
}
