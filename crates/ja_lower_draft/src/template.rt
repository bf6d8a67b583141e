//! The block of a `finally`, and its copies.

ghost use Rattle.std.specs.Prelude.{◌≡◌, IfOk};
ghost use Rattle.ja_lower_listing.specs.Listing.{block_of};
ghost use Rattle.ja_lower_draft.specs.code.Lines as lines;
ghost use Rattle.ja_lower_draft.specs.Copies as copies;

use crate::draft::{Draft, MOST_NODES};
use crate::listed::Listed;
use crate::moves::Moves;
use crate::part::{Part, lines};
use ja_base::{Memory, Reg};
use ja_lower_listing::{Block, Target, block_of};
use sqlite_items::Items;
use std::alloc::Global;
use std::marker::Model;
use std::rc::Rc;

/// A block, or the parts that come to it, which the copies share. Of a block with more than 65,536
/// nodes nothing is kept.
#[derive(Drop)]
pub enum Source {
    Written(Rc<Block>),
    Parts(Rc<Items<Part>>),
    TooLong(Listed),
}

/// The block of a `finally`, how many nodes it has, or 4,294,967,295 where it has more, and where
/// its temporaries begin.
#[derive(Drop)]
pub struct Template {
    source: Source,
    nodes: u32,
    temporary: u32,
}

impl Model for Template {
    ghost use Rattle.ja_lower_draft.specs.code.Sources.{source_block, IsSource};
    ghost use Rattle.ja_lower_draft.specs.Copies as copies;

    ghost Value = { copies.Template };

    ghost view = { λ t. record { block = source_block t.source; temporary = t.temporary } };

    ghost invariant = { λ t. IsSource t.source t.nodes };
}

/// The most nodes of a block that is written out once for all its copies. A larger one stays in its
/// parts, since it may have any number of nodes; few copies of it are ever written out. One without
/// nodes is always written out: where it leads tells whether it has copies.
const MOST_WRITTEN: u32 = 4_096;

impl Template {
    /// The block that was listed, whose temporaries begin at this one, with so many nodes listed
    /// around it.
    #[tactic(auto, using(ja_lower_listing::proofs::Kept::block_counted))]
    pub fn new(alloc: Global, draft: Draft, temporary: u32, around: u32) -> Result<Template, Memory>
        ensures { IfOk result (λ t. t ≡ record {
          block = block_of draft.items;
          temporary = temporary;
        }) }
    {
        let (listed, parts, nodes) = draft.into_parts();
        let source = if nodes > MOST_NODES {
            Source::TooLong(listed)
        } else if nodes == 0 || (nodes <= MOST_WRITTEN && around <= MOST_NODES) {
            let items = lines(alloc, &parts)?;
            let block = block_of(alloc, items)?;
            Source::Written(Rc::new(alloc, block)?)
        } else {
            Source::Parts(Rc::new(alloc, Items::from_vec(parts))?)
        };
        Ok(Template {
            source,
            nodes,
            temporary,
        })
    }
}

/// Whether a block has no nodes, and what comes to it goes on behind it.
fn does_nothing(block: &Block) -> bool
    ensures { result ≡ copies.does_nothing block.now }
{
    match block.entry {
        Target::Behind => block.nodes.is_empty(),
        Target::Node(_) | Target::Spot(_) | Target::Out => false,
    }
}

impl Template {
    /// Whether the block does nothing.
    #[tactic(auto, using(crate::proofs::CopyLemmas::does_something))]
    fn does_nothing(&self) -> bool
        ensures { result ≡ copies.does_nothing self.now.block }
    {
        match &self.source {
            Source::Written(block) => does_nothing(block),
            Source::Parts(_) | Source::TooLong(_) => false,
        }
    }
}

impl Draft {
    /// Adds a copy of a block.
    #[tactic(auto, using(crate::proofs::Rulesets::for_block))]
    fn copy_of(&mut self, template: &Template, above: Reg) -> Result<(), Memory>
        ensures { lines.Adds (copies.with_copy_of template.now above self.old) result self.new }
    {
        let Some(base) = above.0.checked_add(1) else {
            return Err(Memory);
        };
        let moves = Moves {
            temporary: template.temporary,
            above,
            by: base.saturating_sub(template.temporary),
        };
        let nodes = template.nodes;
        match &template.source {
            Source::Written(block) => {
                let block = block.clone()?;
                self.copy(Part::Written { block, moves }, nodes)
            }
            Source::Parts(parts) => {
                let parts = parts.clone()?;
                self.copy(Part::Copy { parts, moves }, nodes)
            }
            Source::TooLong(block) => {
                self.long_copy(block, moves, nodes);
                Ok(())
            }
        }
    }

    /// Adds a copy of a block, whose temporaries begin behind a register, unless it does nothing.
    /// Past the last number of a register, and behind 16,777,216 lines that are kept, memory counts
    /// as refused.
    #[tactic(auto, unfolding(crate::specs::Copies::with_block))]
    pub fn block(&mut self, template: &Template, above: Reg) -> Result<(), Memory>
        ensures { lines.Adds (copies.with_block template.now above self.old) result self.new }
    {
        if template.does_nothing() {
            return Ok(());
        }
        self.copy_of(template, above)
    }
}
