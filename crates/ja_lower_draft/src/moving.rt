//! Nodes whose registers are moved up.

ghost use Rattle.std.specs.Prelude.{◌≡◌, IfOk};
ghost use Rattle.ja_graph.specs.Renaming as renaming;
ghost use Rattle.ja_lower_draft.specs.code.Registers as spec;
ghost use Rattle.ja_lower_draft.specs.Copies as copies;

use ja_base::{FnId, Memory, NameId, Reg, Site};
use ja_graph::{Node, Renames, registers_with, renamed};
use std::alloc::Global;

/// Registers from the first on move up, where that is a number of a register.
#[derive(Clone, Copy)]
struct Moving {
    first: u32,
    by: u32,
}

impl Renames for Moving {
    ghost renaming = { λ m. spec.moving_within m.first m.by };

    fn register(&self, register: Reg) -> Reg {
        if register.0 < self.first {
            return register;
        }
        match register.0.checked_add(self.by) {
            Some(number) => Reg(number),
            None => register,
        }
    }

    fn name(&self, name: NameId) -> NameId {
        name
    }

    fn function(&self, function: FnId) -> FnId {
        function
    }

    fn site(&self, site: Site) -> Site {
        site
    }
}

/// A copy of a node whose registers from the first on are moved up. Where a number would pass the
/// last one that a register may have, memory counts as refused.
#[tactic(auto, using(crate::proofs::MovingLemmas::moved_alike))]
pub(crate) fn moved(alloc: Global, node: &Node, first: u32, by: u32) -> Result<Node, Memory>
    ensures { IfOk result (λ copy. copy ≡ renaming.renamed (copies.moving first by) node.now) }
{
    if registers_with(0, node) > (1 << 32) - u64::from(by) {
        return Err(Memory);
    }
    renamed(alloc, node, &Moving { first, by })
}
