//! The nodes of a block with their edges, and the graph of a function.

ghost use Rattle.std.specs.Prelude.{◌≡◌, ◌<◌, ◌++◌, List, ◌∷◌, map, Option, IfOk, OnOk};
ghost use Rattle.ja_lower_listing.specs.declared.item.BlockNode.{BlockNode};
ghost use Rattle.ja_lower_listing.specs.declared.item.Item.{Item};
ghost use Rattle.ja_lower_listing.specs.declared.item.Item.TheVariants as item;
ghost use Rattle.ja_lower_listing.specs.Listing.{node_count, led, jump_of, edge, with_edges, nodes_from, block_of, closed, assembled};
ghost use Rattle.ja_lower_listing.specs.code.Passes.{AreEdges, IsEnd, further, followed, landed, seen, ways_on};

use crate::facts::{goes_on, more, node_count};
use crate::passes::{node_of, passed};
use crate::spots::Spots;
use crate::{Block, BlockNode, Item, Spot, Target};
use ja_base::{Memory, NodeId, Place, Seq};
use ja_graph::{Node, NodeInfo, may_throw};
use std::alloc::Global;

/// Where the edges of a listing lead that go to its spots. More jumps than so many turns go round.
#[derive(Drop)]
struct Edges {
    turns: usize,
    at: Spots,
}

impl Edges {
    /// Where a run goes on, with one spot followed.
    fn further(&self, target: Target) -> Target
        ensures { (whole : List Item) → AreEdges self.now whole → result ≡ further whole target }
    {
        match target {
            Target::Spot(spot) => self.at.get(spot).unwrap_or(target),
            _ => target,
        }
    }

    /// Where a run goes on after all turns: out, where a spot of the listing is left.
    fn landed(&self, target: Target) -> Target
        ensures { (whole : List Item) → AreEdges self.now whole → result ≡ landed whole target }
    {
        match target {
            Target::Spot(spot) => match self.at.get(spot) {
                Some(_) => Target::Out,
                None => target,
            },
            _ => target,
        }
    }

    /// Where a run goes on in the end.
    #[tactic(auto, unfolding(crate::specs::code::Passes::after), using(crate::proofs::Followed::others_stay))]
    fn landing(&self, target: Target) -> Target
        ensures { (whole : List Item) → AreEdges self.now whole → result ≡ followed whole target }
    {
        let mut target = target;
        for _turn in 0..self.turns {
            if let Target::Spot(_) = target {
                target = self.further(target);
            } else {
                return target;
            }
        }
        self.landed(target)
    }

    /// Where a jump leads.
    #[tactic(auto, using(crate::proofs::Followed::jump_lands))]
    fn jump(&self, spot: Spot) -> Target
        ensures { (whole : List Item) → AreEdges self.now whole → result ≡ jump_of whole spot }
    {
        self.landing(Target::Spot(spot))
    }

    /// Where an edge leads.
    fn edge(&self, spot: Option<Spot>) -> Target
        ensures { (whole : List Item) → AreEdges self.now whole → result ≡ edge whole spot }
    {
        match spot {
            None => Target::Out,
            Some(spot) => self.jump(spot),
        }
    }

    /// A node with its edges, where `here` is where a run goes on behind it.
    #[tactic(auto, unfolding(crate::specs::Listing::nodes_from), using(crate::proofs::Followed::way_lands))]
    fn node(
        &self,
        node: Node,
        other: Option<Spot>,
        handler: Option<Spot>,
        place: Place,
        here: Target,
    ) -> BlockNode
        ensures { (whole items : List Item) → AreEdges self.now whole → IsEnd whole items
            → here ≡ (seen whole items).here → nodes_from whole
            (item.Node node other handler place ∷ items) ≡ result ∷ nodes_from whole items }
    {
        let next = if goes_on(&node) {
            self.landing(here)
        } else {
            Target::Out
        };
        let handler = if may_throw(&node) { handler } else { None };
        BlockNode {
            node,
            next,
            other: self.edge(other),
            handler: self.edge(handler),
            place,
            above: None,
        }
    }

    /// Where a target of a copy leads, whose first node has this number, where `next` is what
    /// stands behind it. Past the last number of a node memory counts as refused.
    fn led(&self, first: u32, next: Target, target: Target) -> Result<Target, Memory>
        ensures { (whole : List Item) → AreEdges self.now whole
            → IfOk result (λ t. t ≡ led first (jump_of whole) next target) }
    {
        match target {
            Target::Node(node) => node_of(first, node),
            Target::Spot(spot) => Ok(self.jump(spot)),
            Target::Behind => Ok(next),
            Target::Out => Ok(Target::Out),
        }
    }

    /// A node of a copy.
    fn copied(&self, first: u32, next: Target, node: BlockNode) -> Result<BlockNode, Memory>
        ensures { (whole : List Item) → AreEdges self.now whole
            → IfOk result (λ n. n ≡ with_edges (led first (jump_of whole) next) node) }
    {
        Ok(BlockNode {
            next: self.led(first, next, node.next)?,
            other: self.led(first, next, node.other)?,
            handler: self.led(first, next, node.handler)?,
            node: node.node,
            place: node.place,
            above: node.above,
        })
    }

    /// Adds the nodes of a copy, whose first node has this number.
    fn copy(
        &self,
        first: u32,
        next: Target,
        block: Vec<BlockNode>,
        nodes: &mut Vec<BlockNode>,
    ) -> Result<(), Memory>
        ensures { (whole : List Item) → AreEdges self.now whole
            → OnOk result (nodes.new.items ≡ nodes.old.items
            ++ map (with_edges (led first (jump_of whole) next)) block.items) }
    {
        for node in block {
            nodes.push(self.copied(first, next, node)?)?;
        }
        Ok(())
    }
}

/// The nodes of a listing, where `ways` are where a run goes on behind each of its nodes and
/// copies, the last one first.
fn linked(
    alloc: Global,
    items: Vec<Item>,
    edges: Edges,
    mut ways: Vec<Target>,
) -> Result<Vec<BlockNode>, Memory>
    requires edges { AreEdges edges items.items }
    requires ways { ways.items ≡ ways_on items.items items.items }
    ensures { IfOk result (λ nodes. nodes.items ≡ nodes_from items.items items.items) }
{
    let mut nodes = Vec::with_capacity(alloc, ways.len())?;
    for item in items {
        match item {
            Item::Node {
                node,
                other,
                handler,
                place,
            } => {
                let here = ways.pop().unwrap_or(Target::Behind);
                nodes.push(edges.node(node, other, handler, place, here))?;
            }
            Item::Copy(block) => {
                let here = ways.pop().unwrap_or(Target::Behind);
                let first = more(0, nodes.len())?;
                edges.copy(
                    first,
                    edges.landing(here),
                    block.nodes.into_vec(),
                    &mut nodes,
                )?;
            }
            Item::Spot(_) | Item::Jump(_) => {}
        }
    }
    Ok(nodes)
}

/// The block that lines come to: its nodes in their order, each with the targets of its edges. An
/// error says that memory was refused, or that there are more than 4,294,967,295 nodes.
#[tactic(auto, using(crate::proofs::Followed::entry_lands))]
pub fn block_of(alloc: Global, items: Vec<Item>) -> Result<Block, Memory>
    ensures { IfOk result (λ block. block ≡ block_of items.items) }
{
    let pass = passed(alloc, &items)?;
    let edges = Edges {
        turns: items.len() + 1,
        at: pass.at,
    };
    let entry = edges.landing(pass.here);
    let nodes = linked(alloc, items, edges, pass.ways)?;
    Ok(Block {
        entry,
        nodes: Seq::from_vec(nodes),
    })
}

/// The node of a function to which a target leads: Escape, where it is no node.
fn closed(escape: u32, target: Target) -> NodeId
    ensures { result ≡ closed escape target }
{
    match target {
        Target::Node(node) => NodeId(node),
        _ => NodeId(escape),
    }
}

/// The nodes of a listing in their order, each with the nodes to which its edges lead. An error
/// says that memory was refused, or that there are more than 4,294,967,295 nodes.
pub fn assembled(alloc: Global, items: Vec<Item>) -> Result<Seq<NodeInfo>, Memory>
    ensures { IfOk result (λ nodes. nodes ≡ assembled items.items) }
{
    let escape = node_count(&items)?.saturating_sub(1);
    let block = block_of(alloc, items)?;
    let mut nodes = Vec::with_capacity(alloc, block.nodes.len())?;
    for node in block.nodes.into_vec() {
        nodes.push(NodeInfo {
            node: node.node,
            next: closed(escape, node.next),
            other: closed(escape, node.other),
            handler: closed(escape, node.handler),
            place: node.place,
        })?;
    }
    Ok(Seq::from_vec(nodes))
}
