//! What lines come to. The functions do nothing; their contracts are the laws.
ghost use Rattle.std.specs.Prelude.{◌≡◌, ◌++◌, ◌+◌, ℕ, List, ◌∷◌, length, map, Some, slice_get};
ghost use Rattle.ja_graph.specs.WellFormed.{LastIsEscape};
ghost use Rattle.ja_lower_listing.specs.declared.item.Block.{Block};
ghost use Rattle.ja_lower_listing.specs.declared.item.BlockNode.{BlockNode};
ghost use Rattle.ja_lower_listing.specs.declared.item.Item.{Item};
ghost use Rattle.ja_lower_listing.specs.declared.item.Item.TheVariants as item;
ghost use Rattle.ja_lower_listing.specs.declared.item.Spot.{Spot};
ghost use Rattle.ja_lower_listing.specs.Listing.{node_count, behind, led, jump_of, way_on, with_edges, block_of, assembled};
ghost use Rattle.ja_lower_listing.specs.Laws.{EndsWithEscape, EdgesLeadInside, IsWhole, CopiesAreWhole, node_at, placed};

/// Lines come to as many nodes as they have.
#[tactic(auto, using(crate::proofs::Kept::block_counted, crate::proofs::Kept::assembled_counted))]
pub fn nodes_are_counted()
    ensures block { (items : List Item) → length (block_of items).nodes ≡ node_count items }
    ensures graph { (whole : List Item) → length (assembled whole) ≡ node_count whole }
{}

/// The nodes, their places and their order are those of the lines.
#[tactic(auto, using(crate::proofs::Kept::block_kept, crate::proofs::Kept::assembled_kept))]
pub fn nodes_are_kept()
    ensures block { (items : List Item) → map node_at (block_of items).nodes ≡ placed items }
    ensures graph { (whole : List Item) → map (λ info. (info.node, info.place)) (assembled whole)
        ≡ placed whole }
{}

/// Of a listing that ends with Escape, the last node is Escape.
#[tactic(auto, using(crate::proofs::Kept::assembled_ends))]
pub fn last_node_is_escape()
    ensures { (whole : List Item) → EndsWithEscape whole → LastIsEscape (assembled whole) }
{}

/// Where a target is a node of the block, it is one of those that the block has; where the copies
/// in them are so, lines come to such a block. Of a listing that ends with Escape every edge then
/// leads to a node of its function.
#[tactic(auto, using(crate::proofs::Inside::block_whole, crate::proofs::Inside::assembled_inside))]
pub fn edges_lead_inside()
    ensures block { (items : List Item) → CopiesAreWhole items → IsWhole (block_of items) }
    ensures graph { (whole : List Item) → EndsWithEscape whole → CopiesAreWhole whole
        → EdgesLeadInside (assembled whole) }
{}

/// A jump or an edge to a spot leads to what stands behind the spot, also where that is a jump.
#[tactic(auto, using(crate::proofs::Jumps::jumps_lead_on))]
pub fn jumps_lead_on()
    ensures { (whole items : List Item) (s : Spot) → behind s whole ≡ Some items
        → jump_of whole s ≡ way_on whole items }
{}

/// The graph of a copy is that of its block: the nodes of the copy are those of the block, and each
/// edge leads as in the block, to a node of the copy, to a spot around it, or to what stands behind
/// it.
#[tactic(auto, using(crate::proofs::Copied::copies_lead_alike))]
pub fn copies_lead_alike()
    ensures { (front items : List Item) (block : Block) (k : ℕ) (n : BlockNode)
        → slice_get block.nodes k ≡ Some n → slice_get
        (block_of (front ++ item.Copy block ∷ items)).nodes (node_count front + k)
        ≡ Some (with_edges (led (node_count front) (jump_of (front ++ item.Copy block ∷ items))
        (way_on (front ++ item.Copy block ∷ items) items)) n) }
{}
