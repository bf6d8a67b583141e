//! The listing of a function, as it is written.

ghost use Rattle.std.specs.Prelude.{◌≡◌, ◌≤◌, ◌<◌, ◌+◌, ◌∷◌, ◌++◌, [], length, min, OnOk, OnErr, IfOk, None, Some};
ghost use Rattle.ja_lower_listing.specs.declared.item.Item.TheVariants as item;
ghost use Rattle.ja_lower_listing.specs.Listing.{node_count, begins_with_node, block_of};
ghost use Rattle.ja_lower_draft.specs.Lines as lines;
ghost use Rattle.ja_lower_draft.specs.code.Lines as code_lines;
ghost use Rattle.ja_lower_draft.specs.code.Parts.{line_of, lines_of, moved_by, nodes_counted};

use crate::listed::{Growth, Listed};
use crate::moves::Moves;
use crate::part::{Part, is_node, lines};
use ja_base::{Memory, Place, Reg};
use ja_graph::Node;
use ja_lower_listing::{Item, Spot};
use std::alloc::Global;
use std::marker::Model;

/// The most lines that are kept behind which a copy is added.
const MOST_LINES: usize = 16_777_216;

/// The most nodes of a listing whose lines are kept. A longer one is in no graph.
pub(crate) const MOST_NODES: u32 = 65_536;

/// A listing so far, with how many nodes it has and the numbers of its next temporary and its next
/// spot. Copies of blocks aren't written out. Of a listing with more than 65,536 nodes only these
/// numbers are known, and whether it begins with a node.
#[derive(Drop)]
pub struct Draft {
    /// All lines, which only contracts see.
    listed: Listed,
    /// The part of each line, unless there are more than 65,536 nodes.
    parts: Vec<Part>,
    /// Whether the first line that is no spot is a node, if there is one.
    begins: Option<bool>,
    nodes: u32,
    temporary: u32,
    spot: u32,
}

impl Model for Draft {
    ghost use Rattle.ja_lower_draft.specs.Lines as lines;
    ghost use Rattle.ja_lower_draft.specs.code.Lines as code_lines;
    ghost use Rattle.ja_lower_draft.specs.code.Kept.{IsKept};

    ghost Value = { lines.Listing };

    ghost view = { λ d. record { items = d.listed.lines; temporary = d.temporary; spot = d.spot } };

    ghost invariant = { λ d. IsKept d.listed.lines d.nodes d.begins d.parts.items };
}

/// Parts, and further ones behind them.
fn joined(mut parts: Vec<Part>, behind: Vec<Part>) -> Result<Vec<Part>, Memory>
    ensures { IfOk result (λ all. all.items ≡ parts.items ++ behind.items) }
{
    for part in behind {
        parts.push(part)?;
    }
    Ok(parts)
}

/// Puts a part behind others, unless there are more nodes with it than in a listing that is kept.
fn keep(parts: &mut Vec<Part>, part: Part, nodes: u32) -> Result<(), Memory>
    ensures kept { OnOk result (nodes ≤ 65536 → parts.new.items ≡ parts.old.items ++ part ∷ []) }
    ensures stays { OnErr result (parts.new.items ≡ parts.old.items) }
{
    if nodes > MOST_NODES {
        return Ok(());
    }
    parts.push(part)?;
    Ok(())
}

impl Draft {
    /// An empty listing, whose temporaries and spots begin at these numbers.
    #[tactic(auto, unfolding(ja_lower_listing::specs::Listing::node_count))]
    pub fn new(alloc: Global, temporary: u32, spot: u32) -> Draft
        ensures { result ≡ record { items = []; temporary = temporary; spot = spot } }
    {
        Draft {
            listed: Listed::grown(&Growth::Nothing),
            parts: Vec::new(alloc),
            begins: None,
            nodes: 0,
            temporary,
            spot,
        }
    }

    /// The number of the next temporary.
    pub fn temporary(&self) -> u32
        ensures { result ≡ self.now.temporary }
    {
        self.temporary
    }

    /// How many nodes there are, or 4,294,967,295 where there are more.
    pub fn nodes(&self) -> u32
        ensures { result ≡ nodes_counted self.now.items }
    {
        self.nodes
    }

    /// Adds a part, which has so many nodes.
    fn part(&mut self, part: Part, nodes: u32) -> Result<(), Memory>
        requires { nodes ≡ nodes_counted (line_of part ∷ []) }
        ensures { code_lines.Adds (lines.with_item self.old (line_of part)) result self.new }
    {
        let nodes = self.nodes.saturating_add(nodes);
        let begins = self.begins.or(is_node(&part));
        let listed = Listed::grown(&Growth::With(&self.listed, &part));
        keep(&mut self.parts, part, nodes)?;
        self.listed = listed;
        self.begins = begins;
        self.nodes = nodes;
        Ok(())
    }

    /// Adds a copy of a block, which has so many nodes. Behind 16,777,216 lines that are kept
    /// memory counts as refused.
    pub(crate) fn copy(&mut self, copy: Part, nodes: u32) -> Result<(), Memory>
        requires { nodes ≡ nodes_counted (line_of copy ∷ []) }
        ensures { code_lines.Adds (lines.with_item self.old (line_of copy)) result self.new }
    {
        if self.parts.len() >= MOST_LINES {
            return Err(Memory);
        }
        self.part(copy, nodes)
    }

    /// Adds a copy of a block with more nodes than a listing may have whose lines are kept.
    pub(crate) fn long_copy(&mut self, block: &Listed, moves: Moves, nodes: u32)
        requires long { 65536 < nodes }
        requires counted { nodes ≡ min (length (block_of block.now.lines).nodes) 4294967295 }
        ensures { self.new ≡ lines.with_item self.old
            (item.Copy (moved_by moves (block_of block.now.lines))) }
    {
        self.nodes = self.nodes.saturating_add(nodes);
        self.begins = self.begins.or(Some(false));
        self.listed = Listed::grown(&Growth::WithCopy(&self.listed, block, moves));
    }

    /// Takes the next temporary. Past the last number that a register may have memory counts as
    /// refused.
    pub fn fresh(&mut self) -> Result<Reg, Memory>
        ensures value { IfOk result (λ reg. reg.0 ≡ self.old.temporary) }
        ensures next { OnOk result (self.new ≡ record self.old
            { temporary = self.old.temporary + 1 }) }
    {
        if self.temporary == u32::MAX {
            return Err(Memory);
        }
        let reg = Reg(self.temporary);
        self.temporary += 1;
        Ok(reg)
    }

    /// Takes the next spot.
    pub fn fresh_spot(&mut self) -> Result<Spot, Memory>
        ensures value { IfOk result (λ spot. spot.0 ≡ self.old.spot) }
        ensures next { OnOk result (self.new ≡ record self.old { spot = self.old.spot + 1 }) }
    {
        if self.spot == u32::MAX {
            return Err(Memory);
        }
        let spot = Spot(self.spot);
        self.spot += 1;
        Ok(spot)
    }

    /// The number of the next spot.
    pub fn spot(&self) -> u32
        ensures { result ≡ self.now.spot }
    {
        self.spot
    }

    /// Takes the next spots, and tells the number of the first one.
    pub fn take_spots(&mut self, count: u32) -> Result<u32, Memory>
        ensures value { IfOk result (λ first. first ≡ self.old.spot) }
        ensures next { OnOk result (self.new ≡ lines.behind_spots count self.old) }
    {
        let first = self.spot;
        match first.checked_add(count) {
            Some(next) => {
                self.spot = next;
                Ok(first)
            }
            None => Err(Memory),
        }
    }

    /// Begins the temporaries again at a register.
    pub fn restart(&mut self, temporary: u32)
        ensures { self.new ≡ lines.restarted temporary self.old }
    {
        self.temporary = temporary;
    }

    /// Adds the spot of what follows.
    #[tactic(auto, using(crate::proofs::Rulesets::for_mark))]
    pub fn mark(&mut self, spot: Spot) -> Result<(), Memory>
        ensures { code_lines.Adds (lines.with_spot spot self.old) result self.new }
    {
        self.part(Part::Spot(spot), 0)
    }

    /// Adds a jump.
    #[tactic(auto, using(crate::proofs::Rulesets::for_jump))]
    pub fn jump(&mut self, spot: Spot) -> Result<(), Memory>
        ensures { code_lines.Adds (lines.with_jump spot self.old) result self.new }
    {
        self.part(Part::Jump(spot), 0)
    }

    /// Adds a node, with the spots of its edges.
    #[tactic(auto, using(crate::proofs::Rulesets::for_with_edges))]
    fn with_edges(
        &mut self,
        node: Node,
        other: Option<Spot>,
        handler: Option<Spot>,
        place: Place,
    ) -> Result<(), Memory>
        ensures { code_lines.Adds (lines.with_item self.old (item.Node node other handler place))
            result self.new }
    {
        let part = Part::Node {
            node,
            other,
            handler,
            place,
        };
        self.part(part, 1)
    }

    /// Adds a node.
    pub fn node(&mut self, handler: Option<Spot>, place: Place, node: Node) -> Result<(), Memory>
        ensures { code_lines.Adds (lines.with_item self.old (item.Node node None handler place))
            result self.new }
    {
        self.with_edges(node, None, handler, place)
    }

    /// Adds a node that leads to a spot by its edge `other`.
    pub fn branch(
        &mut self,
        handler: Option<Spot>,
        place: Place,
        node: Node,
        other: Spot,
    ) -> Result<(), Memory>
        ensures { code_lines.Adds (lines.with_item self.old
            (item.Node node (Some other) handler place)) result self.new }
    {
        self.with_edges(node, Some(other), handler, place)
    }

    /// Whether the first line that is no spot is a node.
    pub fn begins_with_node(&self) -> bool
        ensures { result ≡ begins_with_node self.now.items }
    {
        self.begins.unwrap_or(false)
    }

    /// This listing with another one behind it, whose temporaries and spots go on.
    pub fn then(self, listing: Draft) -> Result<Draft, Memory>
        ensures { IfOk result (λ whole. whole
            ≡ record listing { items = self.items ++ listing.items }) }
    {
        let listed = Listed::grown(&Growth::Both(&self.listed, &listing.listed));
        let parts = joined(self.parts, listing.parts)?;
        Ok(Draft {
            listed,
            parts,
            begins: self.begins.or(listing.begins),
            nodes: self.nodes.saturating_add(listing.nodes),
            temporary: listing.temporary,
            spot: listing.spot,
        })
    }

    /// The lines, their parts, which are kept of at most 65,536 nodes, and how many nodes there
    /// are, or 4,294,967,295 where there are more.
    pub(crate) fn into_parts(self) -> (Listed, Vec<Part>, u32)
        ensures lines { result.0.lines ≡ self.items }
        ensures parts { result.2 ≤ 65536 → lines_of result.1.items ≡ self.items }
        ensures nodes { result.2 ≡ nodes_counted self.items }
    {
        let Draft {
            listed,
            parts,
            nodes,
            ..
        } = self;
        (listed, parts, nodes)
    }

    /// The lines of a listing with at most 65,536 nodes, with the nodes of the copies written out.
    pub fn into_items(self, alloc: Global) -> Result<Vec<Item>, Memory>
        requires { node_count self.items ≤ 65536 }
        ensures { IfOk result (λ items. items.items ≡ self.items) }
    {
        lines(alloc, &self.parts)
    }
}
