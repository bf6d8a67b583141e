use ja_base::{Place, Reg, Seq};
use ja_graph::Node;

/// A spot of a listing, by its number: edges and jumps lead to it.
#[derive(Clone, Copy, Debug, PartialEq, Eq)]
pub struct Spot(pub u32);

/// Where an edge of a block leads.
#[derive(Clone, Copy, Debug, PartialEq, Eq)]
pub enum Target {
    /// To a node of the block, by its number in it.
    Node(u32),
    /// To a spot around the block.
    Spot(Spot),
    /// To what stands behind the block.
    Behind,
    /// Out of the function.
    Out,
}

/// A node of a block with its edges. In a copy of a block it has the register above which the
/// temporaries of the copy begin.
#[derive(Drop)]
pub struct BlockNode {
    pub node: Node,
    pub next: Target,
    pub other: Target,
    pub handler: Target,
    pub place: Place,
    pub above: Option<Reg>,
}

/// What lines come to: where a run goes on that comes to them, and their nodes in order.
#[derive(Drop)]
pub struct Block {
    pub entry: Target,
    pub nodes: Seq<BlockNode>,
}

/// One line of a listing.
#[derive(Drop)]
pub enum Item {
    /// A node, with the spots of those of its edges that don't lead to what follows: `other` of a
    /// branch or of a list without names left, and its handler. Without a spot such an edge leads
    /// out of the function.
    Node {
        node: Node,
        other: Option<Spot>,
        handler: Option<Spot>,
        place: Place,
    },
    /// The spot of what follows.
    Spot(Spot),
    /// What comes here goes on at the spot.
    Jump(Spot),
    /// All nodes of a block.
    Copy(Block),
}
