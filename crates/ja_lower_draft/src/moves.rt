//! Blocks whose temporaries are moved.

ghost use Rattle.std.specs.Prelude.{◌≡◌, IfOk};
ghost use Rattle.ja_lower_draft.specs.code.Parts as spec;
ghost use Rattle.ja_lower_draft.specs.Copies as copies;

use crate::moving::moved;
use ja_base::{Memory, Reg, Seq};
use ja_lower_listing::{Block, BlockNode};
use std::alloc::Global;

/// How a copy is moved: where the temporaries of its block begin, the register above which the copy
/// stands, and by how much its temporaries are moved up.
#[derive(Clone, Copy)]
pub struct Moves {
    pub(crate) temporary: u32,
    pub(crate) above: Reg,
    pub(crate) by: u32,
}

impl Moves {
    /// Whether what stands above this register, or in no copy, moves with the block.
    fn takes(self, inner: Option<Reg>) -> bool
        ensures { result ≡ copies.moves_with self.temporary inner }
    {
        match inner {
            None => true,
            Some(inner) => self.temporary <= inner.0,
        }
    }

    /// A node of the copy.
    fn node(self, alloc: Global, node: &BlockNode) -> Result<BlockNode, Memory>
        ensures { IfOk result (λ n. n ≡ copies.moved_node self.temporary self.above self.by
            node.now) }
    {
        let takes = self.takes(node.above);
        let by = if takes { self.by } else { 0 };
        Ok(BlockNode {
            node: moved(alloc, &node.node, self.temporary, by)?,
            next: node.next,
            other: node.other,
            handler: node.handler,
            place: node.place,
            above: if takes { Some(self.above) } else { node.above },
        })
    }

    /// The copy of a block.
    pub(crate) fn block(self, alloc: Global, block: &Block) -> Result<Block, Memory>
        ensures { IfOk result (λ b. b ≡ spec.moved_by self block.now) }
    {
        let mut nodes = Vec::with_capacity(alloc, block.nodes.len())?;
        for node in block.nodes.as_slice() {
            nodes.push(self.node(alloc, node)?)?;
        }
        Ok(Block {
            entry: block.entry,
            nodes: Seq::from_vec(nodes),
        })
    }
}
