//! Expressions (ES3 11).

ghost use Rattle.std.specs.Prelude.{map};
ghost use Rattle.std.specs.List.{fold};
ghost use Rattle.ja_lower_draft.specs.code.Lines as lines;
ghost use Rattle.ja_lower_draft.specs.Lines.{Listing, Valued};
ghost use Rattle.ja_lower_expressions.specs.References as references;
ghost use Rattle.ja_lower_expressions.specs.code.References as code_references;
ghost use Rattle.ja_lower_expressions.specs.Operators as operators;
ghost use Rattle.ja_lower_expressions.specs.Expressions as spec;
ghost use Rattle.ja_lower_expressions.specs.code.Expressions as code;

use crate::call::{call, new_of};
use crate::choice::{alternative, and_then, consequence, or_else};
use crate::literal::{array, function, object};
use crate::operator::{apply_binary, on_outcome, update_outcome};
use crate::outcome::Outcome;
use crate::reference::{element, get_value, member, name, put_value};
use ja_base::{Memory, Place, Reg};
use ja_lower_draft::conversion::{copy, literal};
use ja_lower_draft::{Draft, Scene};
use ja_syntax::{BinaryOperator, Expression, Name, Operation, Suffix};

/// The register of `this`.
const THIS: Reg = Reg(1);

/// What comes to a value, unless memory was refused.
fn valued(value: Result<Reg, Memory>) -> Result<Outcome, Memory>
    ensures { (v : Valued) (new : Listing) → lines.Gives v value new
        → code_references.Comes (references.valued v) result new }
{
    match value {
        Ok(value) => Ok(Outcome::Value(value)),
        Err(memory) => Err(memory),
    }
}

/// A suffix behind what stands before it (11.2).
#[cycle(forms)]
fn suffix(
    scene: &Scene<'_, '_>,
    suffix: &Suffix<Expression>,
    before: Outcome,
    draft: &mut Draft,
) -> Result<Outcome, Memory>
    ensures { code_references.Comes (spec.with_suffix scene.now
        (record { listing = draft.old; outcome = before }) (code.suffix_of suffix.now)) result
        draft.new }
{
    match suffix {
        Suffix::Member { name, place } => {
            let object = get_value(scene, before, draft)?;
            member(scene, &name.text, *place, object, draft)
        }
        Suffix::Index { key, place } => {
            let object = get_value(scene, before, draft)?;
            let key = value(scene, key, draft)?;
            element(scene, *place, object, key, draft)
        }
        Suffix::Call { arguments, place } => {
            valued(call(scene, arguments.as_slice(), *place, before, draft))
        }
    }
}

/// Suffixes behind what stands before them, from the left to the right.
#[cycle(forms)]
fn suffixes(
    scene: &Scene<'_, '_>,
    suffixes: &[Suffix<Expression>],
    head: Outcome,
    draft: &mut Draft,
) -> Result<Outcome, Memory>
    ensures { code_references.Comes (fold (spec.with_suffix scene.now)
        (record { listing = draft.old; outcome = head }) (map code.suffix_of suffixes.now)) result
        draft.new }
{
    let mut outcome = head;
    for next in suffixes {
        outcome = suffix(scene, next, outcome, draft)?;
    }
    Ok(outcome)
}

/// An operation behind its left operand.
#[cycle(forms)]
#[tactic(auto, unfolding(crate::specs::Operators::apply_operation))]
fn operation(
    scene: &Scene<'_, '_>,
    operation: &Operation<Expression>,
    first: Place,
    left: Reg,
    draft: &mut Draft,
) -> Result<Reg, Memory>
    ensures { lines.Gives (operators.apply_operation operation.now.operator
        (spec.form operation.now.right) first operation.now.place scene.now
        (record { listing = draft.old; value = left })) result draft.new }
{
    match operation.operator {
        BinaryOperator::And => and_then(scene, &operation.right, first, left, draft),
        BinaryOperator::Or => or_else(scene, &operation.right, first, left, draft),
        operator => {
            let right = value(scene, &operation.right, draft)?;
            apply_binary(operator, scene, operation.place, left, right, draft)
        }
    }
}

/// Operations behind a first operand, from the left to the right.
#[cycle(forms)]
#[tactic(auto, unfolding(crate::specs::Expressions::apply_operations))]
fn operations(
    scene: &Scene<'_, '_>,
    operations: &[Operation<Expression>],
    place: Place,
    first: Reg,
    draft: &mut Draft,
) -> Result<Reg, Memory>
    ensures { lines.Gives (spec.apply_operations place (map code.operation_of operations.now)
        scene.now (record { listing = draft.old; value = first })) result draft.new }
{
    let mut left = first;
    for next in operations {
        left = operation(scene, next, place, left, draft)?;
    }
    Ok(left)
}

/// Expressions behind commas; the value is that of the last one (11.14).
#[cycle(forms)]
#[tactic(auto, unfolding(crate::specs::Expressions::list_others))]
fn others(
    scene: &Scene<'_, '_>,
    others: &[Expression],
    first: Reg,
    draft: &mut Draft,
) -> Result<Reg, Memory>
    ensures { lines.Gives (spec.list_others (map spec.form others.now) scene.now
        (record { listing = draft.old; value = first })) result draft.new }
{
    let mut last = first;
    for other in others {
        last = value(scene, other, draft)?;
    }
    Ok(last)
}

/// Writes the value of an expression to what a target comes to (11.13.1).
#[cycle(forms)]
#[tactic(auto, unfolding(crate::specs::Operators::assign_to))]
fn assign_to(
    scene: &Scene<'_, '_>,
    source: &Expression,
    place: Place,
    target: Outcome,
    draft: &mut Draft,
) -> Result<Reg, Memory>
    ensures { lines.Gives (operators.assign_to (spec.form source.now) place scene.now target
        draft.old) result draft.new }
{
    let src = value(scene, source, draft)?;
    put_value(scene, place, target, src, draft)?;
    Ok(src)
}

/// Writes an operation of what a target comes to and of an expression (11.13.2).
#[cycle(forms)]
#[tactic(auto, unfolding(crate::specs::Operators::assign_to_by))]
fn assign_to_by(
    operator: BinaryOperator,
    scene: &Scene<'_, '_>,
    source: &Expression,
    place: Place,
    target: Outcome,
    draft: &mut Draft,
) -> Result<Reg, Memory>
    ensures { lines.Gives (operators.assign_to_by operator (spec.form source.now) place scene.now
        target draft.old) result draft.new }
{
    let old = get_value(scene, target, draft)?;
    let right = value(scene, source, draft)?;
    let src = apply_binary(operator, scene, place, old, right, draft)?;
    put_value(scene, place, target, src, draft)?;
    Ok(src)
}

/// Lists an expression, and says what it comes to. It fails where memory is refused, or where the
/// numbers of temporaries, spots or functions are used up.
#[cycle(forms)]
#[tactic(auto, using(crate::proofs::Rulesets::for_form), unfolding(crate::specs::Operators::list_unary, crate::specs::Operators::list_update, crate::specs::Operators::list_conditional, crate::specs::Operators::assign, crate::specs::Operators::assign_by, crate::specs::Calls::list_new))]
pub fn form(
    scene: &Scene<'_, '_>,
    expression: &Expression,
    draft: &mut Draft,
) -> Result<Outcome, Memory>
    ensures { code_references.Comes (spec.form expression.now scene.now draft.old) result draft.new }
{
    match expression {
        Expression::This { place } => valued(copy(scene, *place, THIS, draft)),
        Expression::Name(at) => name(scene, &at.text, at.place, draft),
        Expression::Literal { value, place } => valued(literal(scene, *place, value, draft)),
        Expression::Array { elements, place } => {
            valued(array(scene, elements.as_slice(), *place, draft))
        }
        Expression::Object { properties, place } => {
            valued(object(scene, properties.as_slice(), *place, draft))
        }
        Expression::Function(tree) => {
            let tree = tree.get();
            valued(function(scene, &tree.name, tree.place, draft))
        }
        Expression::Chain {
            head,
            suffixes: behind,
        } => {
            let head = form(scene, head.get(), draft)?;
            suffixes(scene, behind.as_slice(), head, draft)
        }
        Expression::New {
            callee,
            arguments,
            place,
        } => {
            let callee = value(scene, callee.get(), draft)?;
            valued(new_of(scene, arguments.as_slice(), *place, callee, draft))
        }
        Expression::Unary {
            operator,
            operand,
            place,
        } => {
            let outcome = form(scene, operand.get(), draft)?;
            valued(on_outcome(*operator, scene, *place, outcome, draft))
        }
        Expression::Update {
            operator,
            operand,
            place,
        } => {
            let outcome = form(scene, operand.get(), draft)?;
            valued(update_outcome(*operator, scene, *place, outcome, draft))
        }
        Expression::Binary {
            first,
            operations: behind,
            place,
        } => {
            let first = value(scene, first.get(), draft)?;
            valued(operations(scene, behind.as_slice(), *place, first, draft))
        }
        Expression::Conditional {
            condition,
            then,
            otherwise,
            place,
        } => {
            let condition = value(scene, condition.get(), draft)?;
            let choice = consequence(scene, then.get(), *place, condition, draft)?;
            valued(alternative(scene, otherwise.get(), *place, choice, draft))
        }
        Expression::Assign {
            target,
            operator,
            value: source,
            place,
        } => {
            let target = form(scene, target.get(), draft)?;
            match operator {
                None => valued(assign_to(scene, source.get(), *place, target, draft)),
                Some(operator) => {
                    let operator = *operator;
                    valued(assign_to_by(operator, scene, source.get(), *place, target, draft))
                }
            }
        }
        Expression::Sequence {
            first,
            others: behind,
            ..
        } => {
            let first = value(scene, first.get(), draft)?;
            valued(others(scene, behind.as_slice(), first, draft))
        }
    }
}

/// Lists an expression and what reads its value, and gives the value's register. It fails as
/// [`form`] does.
#[cycle(forms)]
#[tactic(auto, unfolding(crate::specs::References::value_of))]
pub fn value(
    scene: &Scene<'_, '_>,
    expression: &Expression,
    draft: &mut Draft,
) -> Result<Reg, Memory>
    ensures { lines.Gives (references.value_of (spec.form expression.now) scene.now draft.old)
        result draft.new }
{
    let outcome = form(scene, expression, draft)?;
    get_value(scene, outcome, draft)
}

/// Lists the assignment of an expression's value to a name, and gives the value's register. It
/// fails as [`form`] does.
#[tactic(auto, unfolding(crate::specs::Operators::assign))]
pub fn assign(
    scene: &Scene<'_, '_>,
    target: &Name,
    source: &Expression,
    place: Place,
    draft: &mut Draft,
) -> Result<Reg, Memory>
    ensures { lines.Gives (operators.assign (references.with_name target.now.text target.now.place)
        (spec.form source.now) place scene.now draft.old) result draft.new }
{
    let outcome = name(scene, &target.text, target.place, draft)?;
    assign_to(scene, source, place, outcome, draft)
}
