//! `&&`, `||` and `?` (ES3 11.11, 11.12).

ghost use Rattle.std.specs.Prelude.{◌≡◌, IfOk};
ghost use Rattle.ja_lower_draft.specs.code.Lines as lines;
ghost use Rattle.ja_lower_expressions.specs.Expressions as expressions;
ghost use Rattle.ja_lower_expressions.specs.Operators as spec;

use crate::expression::value;
use ja_base::{Memory, Place, Reg};
use ja_graph::Node;
use ja_lower_draft::conversion::{copy, set, truth};
use ja_lower_draft::{Draft, Scene};
use ja_lower_listing::Spot;
use ja_syntax::Expression;

/// `&&` behind its left operand.
#[cycle(forms)]
#[tactic(auto, unfolding(crate::specs::Operators::and_then))]
pub(crate) fn and_then(
    scene: &Scene<'_, '_>,
    right: &Expression,
    place: Place,
    left: Reg,
    draft: &mut Draft,
) -> Result<Reg, Memory>
    ensures { lines.Gives (spec.and_then (expressions.form right.now) place scene.now left
        draft.old) result draft.new }
{
    let end = draft.fresh_spot()?;
    let dst = copy(scene, place, left, draft)?;
    let test = truth(scene, place, left, draft)?;
    draft.branch(scene.handler, place, Node::Branch { src: test }, end)?;
    let src = value(scene, right, draft)?;
    set(scene, place, dst, src, draft)?;
    draft.mark(end)?;
    Ok(dst)
}

/// `||` behind its left operand.
#[cycle(forms)]
#[tactic(auto, unfolding(crate::specs::Operators::or_else))]
pub(crate) fn or_else(
    scene: &Scene<'_, '_>,
    right: &Expression,
    place: Place,
    left: Reg,
    draft: &mut Draft,
) -> Result<Reg, Memory>
    ensures { lines.Gives (spec.or_else (expressions.form right.now) place scene.now left draft.old)
        result draft.new }
{
    let end = draft.fresh_spot()?;
    let other = draft.fresh_spot()?;
    let dst = copy(scene, place, left, draft)?;
    let test = truth(scene, place, left, draft)?;
    draft.branch(scene.handler, place, Node::Branch { src: test }, other)?;
    draft.jump(end)?;
    draft.mark(other)?;
    let src = value(scene, right, draft)?;
    set(scene, place, dst, src, draft)?;
    draft.mark(end)?;
    Ok(dst)
}

/// What stands of `?` behind its consequent: where its value goes, and the spots of the other
/// expression and of what follows.
#[derive(Clone, Copy)]
pub(crate) struct Choice {
    pub(crate) value: Reg,
    pub(crate) other: Spot,
    pub(crate) end: Spot,
}

/// The consequent of `?` behind the condition's value.
#[cycle(forms)]
#[tactic(auto, unfolding(crate::specs::Operators::consequence))]
pub(crate) fn consequence(
    scene: &Scene<'_, '_>,
    consequent: &Expression,
    place: Place,
    condition: Reg,
    draft: &mut Draft,
) -> Result<Choice, Memory>
    ensures { IfOk result (λ choice. spec.consequence (expressions.form consequent.now) place
        scene.now condition draft.old ≡ record {
          listing = draft.new;
          value = choice.value;
          other = choice.other;
          end = choice.end;
        }) }
{
    let test = truth(scene, place, condition, draft)?;
    let other = draft.fresh_spot()?;
    let end = draft.fresh_spot()?;
    draft.branch(scene.handler, place, Node::Branch { src: test }, other)?;
    let src = value(scene, consequent, draft)?;
    let value = copy(scene, place, src, draft)?;
    Ok(Choice { value, other, end })
}

/// The other expression of `?`.
#[cycle(forms)]
#[tactic(auto, unfolding(crate::specs::Operators::alternative))]
pub(crate) fn alternative(
    scene: &Scene<'_, '_>,
    otherwise: &Expression,
    place: Place,
    choice: Choice,
    draft: &mut Draft,
) -> Result<Reg, Memory>
    ensures { lines.Gives (spec.alternative (expressions.form otherwise.now) place scene.now
        (record {
          listing = draft.old;
          value = choice.value;
          other = choice.other;
          end = choice.end;
        })) result draft.new }
{
    draft.jump(choice.end)?;
    draft.mark(choice.other)?;
    let src = value(scene, otherwise, draft)?;
    set(scene, place, choice.value, src, draft)?;
    draft.mark(choice.end)?;
    Ok(choice.value)
}
