//! The parts of a listing: its lines, where those of copies refer to their blocks and are written
//! out when the listing is read.

ghost use Rattle.std.specs.Prelude.{◌≡◌, List, ◌∷◌, unwrap_or, IfOk};
ghost use Rattle.ja_graph.specs.Renaming.{identity};
ghost use Rattle.ja_lower_listing.specs.declared.item.Item.{Item};
ghost use Rattle.ja_lower_listing.specs.Listing.{begins_with_node};
ghost use Rattle.ja_lower_draft.specs.code.Parts as spec;

use crate::moves::Moves;
use ja_base::{FnId, Memory, NameId, Place, Reg, Site};
use ja_graph::{Node, Renames, renamed};
use ja_lower_listing::{Block, Item, Spot, block_of};
use sqlite_items::Items;
use std::alloc::Global;
use std::rc::Rc;

/// A line. A copy has its block, or the parts that come to it.
#[derive(Drop)]
pub enum Part {
    Node {
        node: Node,
        other: Option<Spot>,
        handler: Option<Spot>,
        place: Place,
    },
    Spot(Spot),
    Jump(Spot),
    Written {
        block: Rc<Block>,
        moves: Moves,
    },
    Copy {
        parts: Rc<Items<Part>>,
        moves: Moves,
    },
}

/// Each number stays.
#[derive(Drop)]
struct Staying {}

impl Renames for Staying {
    ghost renaming = { λ s. identity };

    fn register(&self, register: Reg) -> Reg {
        register
    }

    fn name(&self, name: NameId) -> NameId {
        name
    }

    fn function(&self, function: FnId) -> FnId {
        function
    }

    fn site(&self, site: Site) -> Site {
        site
    }
}

/// A copy of a node.
#[tactic(auto, using(ja_graph::proofs::RenamingLemmas::identity_keeps))]
fn copy_of(alloc: Global, node: &Node) -> Result<Node, Memory>
    ensures { IfOk result (λ copy. copy ≡ node.now) }
{
    renamed(alloc, node, &Staying {})
}

/// The line of a part.
#[cycle(lines)]
#[tactic(auto, using(crate::proofs::Rulesets::for_line))]
fn line(alloc: Global, part: &Part) -> Result<Item, Memory>
    ensures { IfOk result (λ item. item ≡ spec.line_of part.now) }
{
    match part {
        Part::Node {
            node,
            other,
            handler,
            place,
        } => Ok(Item::Node {
            node: copy_of(alloc, node)?,
            other: *other,
            handler: *handler,
            place: *place,
        }),
        Part::Spot(spot) => Ok(Item::Spot(*spot)),
        Part::Jump(spot) => Ok(Item::Jump(*spot)),
        Part::Written { block, moves } => {
            let copy = moves.block(alloc, block)?;
            Ok(Item::Copy(copy))
        }
        Part::Copy { parts, moves } => {
            let lines = lines(alloc, parts.as_slice())?;
            let block = block_of(alloc, lines)?;
            let copy = moves.block(alloc, &block)?;
            Ok(Item::Copy(copy))
        }
    }
}

/// The lines of parts.
#[cycle(lines)]
pub(crate) fn lines(alloc: Global, parts: &[Part]) -> Result<Vec<Item>, Memory>
    ensures { IfOk result (λ items. items.items ≡ spec.lines_of parts.now) }
{
    let mut items = Vec::with_capacity(alloc, parts.len())?;
    for part in parts {
        items.push(line(alloc, part)?)?;
    }
    Ok(items)
}

/// Whether a line is a node, unless it is a spot.
#[tactic(auto, unfolding(ja_lower_listing::specs::Listing::begins_with_node), using(crate::proofs::Rulesets::for_line))]
pub(crate) fn is_node(part: &Part) -> Option<bool>
    ensures { (items : List Item) → begins_with_node (spec.line_of part.now ∷ items)
        ≡ unwrap_or result (begins_with_node items) }
{
    match part {
        Part::Node { .. } => Some(true),
        Part::Spot(_) => None,
        Part::Jump(_) | Part::Written { .. } | Part::Copy { .. } => Some(false),
    }
}
