//! What is listed of a statement beside the statements in it (ES3 12).

ghost use Rattle.std.specs.Prelude.{map};
ghost use Rattle.std.specs.Option.{option_map};
ghost use Rattle.ja_lower_expressions.specs.Expressions.{form};
ghost use Rattle.ja_lower_draft.specs.Lines as lines;
ghost use Rattle.ja_lower_draft.specs.code.Lines as code_lines;
ghost use Rattle.ja_lower_expressions.specs.References as references;
ghost use Rattle.ja_lower_expressions.specs.code.References as code_references;
ghost use Rattle.ja_lower_statements.specs.code.Standing.{around_of};
ghost use Rattle.ja_lower_statements.specs.Statements as spec;
ghost use Rattle.ja_lower_statements.specs.code.Statements as code;

use crate::around::{Around, first_spot};
use crate::way::leave_all;
use ja_base::{Memory, Place, Reg};
use ja_graph::Node;
use ja_lower_draft::conversion::{constant, truth};
use ja_lower_draft::{Draft, Scene};
use ja_lower_expressions::reference::name;
use ja_lower_expressions::{Outcome, assign, form, value};
use ja_lower_listing::Spot;
use ja_prim::Primitive;
use ja_syntax::{Declaration, Expression, ForFirst, ForTarget};
use sqlite_items::Boxed;

/// Adds a node that leads to a spot by its edge `other`.
pub(crate) fn branch(
    scene: &Scene<'_, '_>,
    place: Place,
    node: Node,
    other: Spot,
    draft: &mut Draft,
) -> Result<(), Memory>
    ensures { code_lines.Adds (lines.with_branch scene.now place node other draft.old) result
        draft.new }
{
    draft.branch(scene.handler, place, node, other)
}

/// A variable of a `var` (12.2).
pub(crate) fn declare(
    declaration: &Declaration<Expression>,
    scene: &Scene<'_, '_>,
    draft: &mut Draft,
) -> Result<(), Memory>
    ensures { code_lines.Adds (spec.declare_with declaration.now.name
        (code.declaration_of declaration.now).initialiser scene.now draft.old) result draft.new }
{
    match &declaration.initialiser {
        None => Ok(()),
        Some(initialiser) => {
            let place = initialiser.place;
            assign(scene, &declaration.name, &initialiser.value, place, draft)?;
            Ok(())
        }
    }
}

/// The variables of a `var`: the numbers of temporaries begin again at each.
#[tactic(auto, unfolding(crate::specs::Statements::declare_all))]
pub(crate) fn declare_all(
    declarations: &[Declaration<Expression>],
    scene: &Scene<'_, '_>,
    base: u32,
    draft: &mut Draft,
) -> Result<(), Memory>
    ensures { code_lines.Adds (spec.declare_all (map code.declaration_of declarations.now) scene.now
        base draft.old) result draft.new }
{
    for declaration in declarations {
        draft.restart(base);
        declare(declaration, scene, draft)?;
    }
    Ok(())
}

/// A condition, as a truth value.
pub(crate) fn condition(
    condition: &Expression,
    scene: &Scene<'_, '_>,
    place: Place,
    draft: &mut Draft,
) -> Result<Reg, Memory>
    ensures { code_lines.Gives (spec.with_condition (form condition.now) scene.now place draft.old)
        result draft.new }
{
    let value = value(scene, condition, draft)?;
    truth(scene, place, value, draft)
}

/// A condition, and a branch to the first of some new spots.
#[tactic(auto, unfolding(crate::specs::Statements::list_branch))]
pub(crate) fn branch_on(
    test: &Expression,
    spots: u32,
    scene: &Scene<'_, '_>,
    place: Place,
    draft: &mut Draft,
) -> Result<u32, Memory>
    ensures { code.Spots (spec.list_branch spots (form test.now) scene.now place draft.old) result
        draft.new }
{
    let src = condition(test, scene, place, draft)?;
    let first = draft.take_spots(spots)?;
    branch(scene, place, Node::Branch { src }, first_spot(first), draft)?;
    Ok(first)
}

/// The condition of a `for`; a missing one is true.
pub(crate) fn for_condition(
    test: &Option<Boxed<Expression>>,
    scene: &Scene<'_, '_>,
    place: Place,
    draft: &mut Draft,
) -> Result<Reg, Memory>
    ensures { code_lines.Gives (spec.for_condition (option_map form test.now) scene.now place
        draft.old) result draft.new }
{
    match test {
        None => {
            let value = constant(scene, place, Primitive::Bool(true), draft)?;
            truth(scene, place, value, draft)
        }
        Some(test) => condition(test.get(), scene, place, draft),
    }
}

/// The update of a `for`.
pub(crate) fn for_update(
    update: &Option<Boxed<Expression>>,
    scene: &Scene<'_, '_>,
    draft: &mut Draft,
) -> Result<(), Memory>
    ensures { code_lines.Adds (spec.for_update (option_map form update.now) scene.now draft.old)
        result draft.new }
{
    match update {
        None => Ok(()),
        Some(update) => {
            value(scene, update.get(), draft)?;
            Ok(())
        }
    }
}

/// What stands before the first `;` of a `for`.
pub(crate) fn for_first(
    first: &ForFirst<Expression>,
    scene: &Scene<'_, '_>,
    base: u32,
    draft: &mut Draft,
) -> Result<(), Memory>
    ensures { code_lines.Adds (spec.for_first (code.for_first_of first.now) scene.now base
        draft.old) result draft.new }
{
    match first {
        ForFirst::Nothing => Ok(()),
        ForFirst::Expression(expression) => {
            value(scene, expression, draft)?;
            Ok(())
        }
        ForFirst::Variables(declarations) => {
            declare_all(declarations.as_slice(), scene, base, draft)
        }
    }
}

/// What a `for`-`in` writes.
pub(crate) fn for_in_reference(
    target: &ForTarget<Expression>,
    scene: &Scene<'_, '_>,
    draft: &mut Draft,
) -> Result<Outcome, Memory>
    ensures { code_references.Comes (spec.for_in_reference (code.target_of target.now) scene.now
        draft.old) result draft.new }
{
    match target {
        ForTarget::Variable(declaration) => {
            let place = declaration.name.place;
            name(scene, &declaration.name.text, place, draft)
        }
        ForTarget::Reference(expression) => form(scene, expression, draft),
    }
}

/// What the head of a `for`-`in` does first.
pub(crate) fn for_in_first(
    target: &ForTarget<Expression>,
    scene: &Scene<'_, '_>,
    draft: &mut Draft,
) -> Result<(), Memory>
    ensures { code_lines.Adds (spec.for_in_first (code.target_of target.now) scene.now draft.old)
        result draft.new }
{
    match target {
        ForTarget::Variable(declaration) => declare(declaration, scene, draft),
        ForTarget::Reference(_) => Ok(()),
    }
}

/// The value that is returned.
fn returned(
    value: &Option<Expression>,
    scene: &Scene<'_, '_>,
    place: Place,
    draft: &mut Draft,
) -> Result<Reg, Memory>
    ensures { code_lines.Gives (spec.returned (option_map form value.now) scene.now place draft.old)
        result draft.new }
{
    match value {
        None => constant(scene, place, Primitive::Undefined, draft),
        Some(expression) => ja_lower_expressions::value(scene, expression, draft),
    }
}

/// `return` (12.9).
pub(crate) fn return_from(
    value: &Option<Expression>,
    around: &Around<'_, '_, '_>,
    base: u32,
    place: Place,
    draft: &mut Draft,
) -> Result<(), Memory>
    ensures { code_lines.Adds (spec.list_return (option_map form value.now) place
        (around_of around.now) base draft.old) result draft.new }
{
    let scene = around.scene;
    draft.restart(base);
    let src = returned(value, scene, place, draft)?;
    leave_all(scene, place, src, around.ways, draft)?;
    draft.node(scene.handler, place, Node::Return { src })
}

/// `throw` (12.13).
pub(crate) fn throw(
    expression: &Expression,
    scene: &Scene<'_, '_>,
    base: u32,
    place: Place,
    draft: &mut Draft,
) -> Result<(), Memory>
    ensures { code_lines.Adds (spec.list_throw (form expression.now) place scene.now base draft.old)
        result draft.new }
{
    draft.restart(base);
    let src = value(scene, expression, draft)?;
    draft.node(scene.handler, place, Node::Throw { src })
}

/// An expression as a statement (12.4).
pub(crate) fn evaluate(
    expression: &Expression,
    scene: &Scene<'_, '_>,
    base: u32,
    draft: &mut Draft,
) -> Result<(), Memory>
    ensures { code_lines.Adds (references.value_of (form expression.now) scene.now
        (lines.restarted base draft.old)).listing result draft.new }
{
    draft.restart(base);
    value(scene, expression, draft)?;
    Ok(())
}
