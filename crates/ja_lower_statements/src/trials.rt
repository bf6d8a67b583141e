//! What is listed of a `try` beside the statements in it (ES3 12.14).

ghost use Rattle.ja_lower_draft.specs.code.Lines as lines;
ghost use Rattle.ja_lower_statements.specs.code.Standing.{guarded_at};
ghost use Rattle.ja_lower_statements.specs.Statements as spec;

use crate::around::{four_spots, later, two_spots};
use ja_base::{Memory, Place, Reg, Site};
use ja_graph::{Node, SCOPE, THROWN};
use ja_lower_draft::conversion::{copy, set};
use ja_lower_draft::{Draft, Scene, Template};
use ja_syntax::Name;

/// The first of the spots of a block whose errors are caught, and the register that keeps the scope
/// chain.
#[derive(Clone, Copy)]
pub(crate) struct Guarded {
    pub(crate) first: u32,
    pub(crate) saved: Reg,
}

/// The first of the spots of a block with a `finally`, the register that keeps the scope chain, and
/// what was listed of the block of the `finally`.
pub(crate) struct Kept {
    pub(crate) first: u32,
    pub(crate) saved: Reg,
    pub(crate) template: Template,
}

impl Drop for Kept {
    fn drop(self) {
        let Kept {
            first: _,
            saved: _,
            template: _,
        } = self;
    }
}

/// The beginning of a handler: the scope chain is set again, and an object before it binds the
/// parameter.
#[tactic(auto, unfolding(crate::specs::Statements::list_handler))]
pub(crate) fn handler(
    parameter: &Name,
    scene: &Scene<'_, '_>,
    place: Place,
    guarded: Guarded,
    draft: &mut Draft,
) -> Result<(), Memory>
    ensures { lines.Adds (spec.list_handler parameter.now place scene.now
        (guarded_at guarded draft.old)) result draft.new }
{
    let (handler, end) = two_spots(guarded.first)?;
    draft.jump(end)?;
    draft.mark(handler)?;
    set(scene, place, SCOPE, guarded.saved, draft)?;
    draft.node(scene.handler, place, Node::PushScope { site: Site(0) })?;
    let node = Node::Bind {
        name: scene.name(parameter.text.units()),
        src: THROWN,
        read_only: false,
    };
    draft.node(scene.handler, place, node)
}

/// The way of an error: the block, and the error is thrown again.
#[tactic(auto, unfolding(crate::specs::Statements::list_rethrow))]
pub(crate) fn rethrow(
    template: &Template,
    scene: &Scene<'_, '_>,
    place: Place,
    base: u32,
    draft: &mut Draft,
) -> Result<(), Memory>
    ensures { lines.Adds (spec.list_rethrow template.now place scene.now base draft.old) result
        draft.new }
{
    let inner = later(base, 1)?;
    draft.restart(inner);
    let src = copy(scene, place, THROWN, draft)?;
    draft.block(template, src)?;
    draft.node(scene.handler, place, Node::Throw { src })
}

/// The ways out of a block with a `finally` that are no jumps.
#[tactic(auto, unfolding(crate::specs::Statements::list_ways_out))]
pub(crate) fn ways_out(
    kept: &Kept,
    scene: &Scene<'_, '_>,
    place: Place,
    base: u32,
    draft: &mut Draft,
) -> Result<(), Memory>
    ensures { lines.Adds (spec.list_ways_out place scene.now base kept.now.first kept.now.saved
        kept.now.template draft.old) result draft.new }
{
    let (handler, normal, exceptional, end) = four_spots(kept.first)?;
    draft.jump(normal)?;
    draft.mark(handler)?;
    set(scene, place, SCOPE, kept.saved, draft)?;
    draft.jump(exceptional)?;
    draft.mark(normal)?;
    draft.block(&kept.template, kept.saved)?;
    draft.jump(end)?;
    draft.mark(exceptional)?;
    rethrow(&kept.template, scene, place, base, draft)?;
    draft.mark(end)
}
