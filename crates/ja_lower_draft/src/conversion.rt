//! Nodes that set the next temporary.

ghost use Rattle.ja_lower_draft.specs.Lines as lines;
ghost use Rattle.ja_lower_draft.specs.code.Lines as code_lines;

use crate::draft::Draft;
use crate::scene::Scene;
use ja_base::{Memory, Place, Reg};
use ja_graph::{Hint, Node, UnaryOp};
use ja_prim::Primitive;

/// Adds a constant.
pub fn constant(
    scene: &Scene<'_, '_>,
    place: Place,
    prim: Primitive,
    draft: &mut Draft,
) -> Result<Reg, Memory>
    ensures { code_lines.Gives (lines.with_const scene.now place prim draft.old) result draft.new }
{
    let dst = draft.fresh()?;
    draft.node(scene.handler, place, Node::Const { dst, prim })?;
    Ok(dst)
}

/// Adds a copy of a constant.
pub fn literal(
    scene: &Scene<'_, '_>,
    place: Place,
    prim: &Primitive,
    draft: &mut Draft,
) -> Result<Reg, Memory>
    ensures { code_lines.Gives (lines.with_const scene.now place prim.now draft.old) result
        draft.new }
{
    let prim = prim.copy()?;
    constant(scene, place, prim, draft)
}

/// Moves a register to the next temporary.
pub fn copy(scene: &Scene<'_, '_>, place: Place, src: Reg, draft: &mut Draft) -> Result<Reg, Memory>
    ensures { code_lines.Gives (lines.with_copy scene.now place src draft.old) result draft.new }
{
    let dst = draft.fresh()?;
    draft.node(scene.handler, place, Node::Move { dst, src })?;
    Ok(dst)
}

/// Moves a register to another one.
pub fn set(
    scene: &Scene<'_, '_>,
    place: Place,
    dst: Reg,
    src: Reg,
    draft: &mut Draft,
) -> Result<(), Memory>
    ensures { code_lines.Adds (lines.with_move scene.now place dst src draft.old) result draft.new }
{
    draft.node(scene.handler, place, Node::Move { dst, src })
}

/// Adds the default value of a register, with a hint.
pub fn default_value(
    scene: &Scene<'_, '_>,
    place: Place,
    hint: Hint,
    src: Reg,
    draft: &mut Draft,
) -> Result<Reg, Memory>
    ensures { code_lines.Gives (lines.with_default scene.now place hint src draft.old) result
        draft.new }
{
    let dst = draft.fresh()?;
    draft.node(
        scene.handler,
        place,
        Node::Convert {
            dst,
            src,
            hint,
            other: None,
        },
    )?;
    Ok(dst)
}

/// Adds an operation on a register.
pub fn unary(
    scene: &Scene<'_, '_>,
    place: Place,
    op: UnaryOp,
    src: Reg,
    draft: &mut Draft,
) -> Result<Reg, Memory>
    ensures { code_lines.Gives (lines.with_unary scene.now place op src draft.old) result draft.new }
{
    let dst = draft.fresh()?;
    draft.node(scene.handler, place, Node::Unary { dst, op, src })?;
    Ok(dst)
}

/// Adds ToNumber of a register.
#[tactic(auto, unfolding(crate::specs::Lines::with_number))]
pub fn number(
    scene: &Scene<'_, '_>,
    place: Place,
    src: Reg,
    draft: &mut Draft,
) -> Result<Reg, Memory>
    ensures { code_lines.Gives (lines.with_number scene.now place src draft.old) result draft.new }
{
    let value = default_value(scene, place, Hint::Number, src, draft)?;
    unary(scene, place, UnaryOp::ToNum, value, draft)
}

/// Adds ToString of a register.
#[tactic(auto, unfolding(crate::specs::Lines::with_text))]
pub fn text(scene: &Scene<'_, '_>, place: Place, src: Reg, draft: &mut Draft) -> Result<Reg, Memory>
    ensures { code_lines.Gives (lines.with_text scene.now place src draft.old) result draft.new }
{
    let value = default_value(scene, place, Hint::Text, src, draft)?;
    unary(scene, place, UnaryOp::ToText, value, draft)
}

/// Adds ToBoolean of a register.
pub fn truth(
    scene: &Scene<'_, '_>,
    place: Place,
    src: Reg,
    draft: &mut Draft,
) -> Result<Reg, Memory>
    ensures { code_lines.Gives (lines.with_truth scene.now place src draft.old) result draft.new }
{
    unary(scene, place, UnaryOp::ToBool, src, draft)
}
