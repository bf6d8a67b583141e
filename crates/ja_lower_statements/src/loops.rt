//! Loops (ES3 12.6).

ghost use Rattle.std.specs.Option.{option_map};
ghost use Rattle.ja_lower_expressions.specs.Expressions.{form};
ghost use Rattle.ja_lower_draft.specs.code.Lines as lines;
ghost use Rattle.ja_lower_statements.specs.code.Standing.{around_of};
ghost use Rattle.ja_lower_statements.specs.Statements as spec;
ghost use Rattle.ja_lower_statements.specs.code.Statements as code;

use crate::around::{Around, later, take_three, take_two, with_way};
use crate::statement_list::statement;
use crate::statement_parts::{
    branch, condition, for_condition, for_first, for_in_first, for_in_reference, for_update,
};
use crate::way::Way;
use ja_base::{Memory, Place, Reg};
use ja_graph::Node;
use ja_lower_draft::{Draft, Scene};
use ja_lower_expressions::reference::{object, put_value};
use ja_lower_expressions::value;
use ja_lower_listing::Spot;
use ja_syntax::{Expression, ForFirst, ForTarget, Statement};
use sqlite_items::Boxed;

/// The body of a loop, from which `break` goes to its end and `continue` to its next turn.
#[cycle(statements)]
fn turn_body(
    body: &Statement,
    around: &Around<'_, '_, '_>,
    base: u32,
    end: Spot,
    turn: Spot,
    draft: &mut Draft,
) -> Result<(), Memory>
    ensures { lines.Adds (spec.list_body (spec.does body.now) (around_of around.now) base end turn
        draft.old) result draft.new }
{
    let scene = around.scene;
    let ways = with_way(
        scene.alloc,
        Way::of_loop(around.labels, end, turn),
        around.ways,
    )?;
    let inner = Around {
        scene,
        ways: ways.as_slice(),
        labels: &[],
    };
    statement(&inner, base, body, draft)
}

/// `do` (12.6.1): the body first, then the condition.
#[cycle(statements)]
#[tactic(auto, unfolding(crate::specs::Statements::list_do))]
pub(crate) fn do_loop(
    body: &Statement,
    test: &Expression,
    around: &Around<'_, '_, '_>,
    base: u32,
    place: Place,
    draft: &mut Draft,
) -> Result<(), Memory>
    ensures { lines.Adds (spec.list_do (spec.does body.now) (form test.now) place
        (around_of around.now) base draft.old) result draft.new }
{
    let scene = around.scene;
    let (top, turn, end) = take_three(draft)?;
    draft.mark(top)?;
    turn_body(body, around, base, end, turn, draft)?;
    draft.mark(turn)?;
    draft.restart(base);
    let src = condition(test, scene, place, draft)?;
    branch(scene, place, Node::Branch { src }, end, draft)?;
    draft.jump(top)?;
    draft.mark(end)
}

/// `while` (12.6.2).
#[cycle(statements)]
#[tactic(auto, unfolding(crate::specs::Statements::list_while))]
pub(crate) fn while_loop(
    body: &Statement,
    test: &Expression,
    around: &Around<'_, '_, '_>,
    base: u32,
    place: Place,
    draft: &mut Draft,
) -> Result<(), Memory>
    ensures { lines.Adds (spec.list_while (form test.now) (spec.does body.now) place
        (around_of around.now) base draft.old) result draft.new }
{
    let scene = around.scene;
    let (turn, end) = take_two(draft)?;
    draft.mark(turn)?;
    draft.restart(base);
    let src = condition(test, scene, place, draft)?;
    branch(scene, place, Node::Branch { src }, end, draft)?;
    turn_body(body, around, base, end, turn, draft)?;
    draft.jump(turn)?;
    draft.mark(end)
}

/// `for` (12.6.3): the temporaries of the update go on from those of the condition.
#[cycle(statements)]
#[tactic(auto, unfolding(crate::specs::Statements::list_for))]
pub(crate) fn for_loop(
    body: &Statement,
    head: &ForFirst<Expression>,
    test: &Option<Boxed<Expression>>,
    update: &Option<Boxed<Expression>>,
    around: &Around<'_, '_, '_>,
    base: u32,
    place: Place,
    draft: &mut Draft,
) -> Result<(), Memory>
    ensures { lines.Adds (spec.list_for (code.for_first_of head.now) (option_map form test.now)
        (option_map form update.now) (spec.does body.now) place (around_of around.now) base
        draft.old) result draft.new }
{
    let scene = around.scene;
    let (top, turn, end) = take_three(draft)?;
    draft.restart(base);
    for_first(head, scene, base, draft)?;
    draft.mark(top)?;
    let src = for_condition(test, scene, place, draft)?;
    let behind = draft.temporary();
    branch(scene, place, Node::Branch { src }, end, draft)?;
    turn_body(body, around, base, end, turn, draft)?;
    draft.mark(turn)?;
    draft.restart(behind);
    for_update(update, scene, draft)?;
    draft.jump(top)?;
    draft.mark(end)
}

/// A turn of a `for`-`in` up to its body. Gives the register of the list.
fn for_in_turn(
    target: &ForTarget<Expression>,
    subject: &Expression,
    scene: &Scene<'_, '_>,
    base: u32,
    place: Place,
    turn: Spot,
    end: Spot,
    draft: &mut Draft,
) -> Result<Reg, Memory>
    ensures { lines.Gives (spec.for_in_turn (code.target_of target.now) (form subject.now) place
        scene.now base turn end draft.old) result draft.new }
{
    draft.restart(base);
    for_in_first(target, scene, draft)?;
    let src = value(scene, subject, draft)?;
    let object = object(scene, place, src, draft)?;
    let list = draft.fresh()?;
    draft.node(scene.handler, place, Node::Names { list, object })?;
    draft.mark(turn)?;
    let dst = draft.fresh()?;
    branch(scene, place, Node::Pick { list, dst, object }, end, draft)?;
    let outcome = for_in_reference(target, scene, draft)?;
    put_value(scene, place, outcome, dst, draft)?;
    Ok(list)
}

/// `for`-`in` (12.6.4): the object and the list are kept while the loop runs.
#[cycle(statements)]
#[tactic(auto, unfolding(crate::specs::Statements::list_for_in))]
pub(crate) fn for_in_loop(
    body: &Statement,
    target: &ForTarget<Expression>,
    subject: &Expression,
    around: &Around<'_, '_, '_>,
    base: u32,
    place: Place,
    draft: &mut Draft,
) -> Result<(), Memory>
    ensures { lines.Adds (spec.list_for_in (code.target_of target.now) (form subject.now)
        (spec.does body.now) place (around_of around.now) base draft.old) result draft.new }
{
    let (turn, end) = take_two(draft)?;
    let list = for_in_turn(target, subject, around.scene, base, place, turn, end, draft)?;
    let inner = later(list.0, 1)?;
    turn_body(body, around, inner, end, turn, draft)?;
    draft.jump(turn)?;
    draft.mark(end)
}
