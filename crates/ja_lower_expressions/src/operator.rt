//! Operators on values in registers (ES3 11.4 to 11.11).

ghost use Rattle.std.specs.Prelude.{◌≡◌, pos};
ghost use Rattle.ja_lower_draft.specs.Lines as lines;
ghost use Rattle.ja_lower_draft.specs.code.Lines as code_lines;
ghost use Rattle.ja_lower_expressions.specs.Operators as spec;

use crate::outcome::Outcome;
use crate::reference::{get_value, put_value};
use ja_base::{Memory, Place, Reg, Site};
use ja_graph::{BinaryOp, Hint, Node, UnaryOp};
use ja_lower_draft::conversion::{constant, default_value, number, text, truth, unary};
use ja_lower_draft::{Draft, Scene};
use ja_prim::{Int, Num, Primitive};
use ja_syntax::{BinaryOperator, UnaryOperator, UpdateOperator};

/// `delete` of what an operand comes to.
fn delete(
    scene: &Scene<'_, '_>,
    place: Place,
    outcome: Outcome,
    draft: &mut Draft,
) -> Result<Reg, Memory>
    ensures { code_lines.Gives (spec.with_delete scene.now place outcome draft.old) result draft.new }
{
    match outcome {
        Outcome::Value(_) | Outcome::Special { .. } => {
            constant(scene, place, Primitive::Bool(true), draft)
        }
        Outcome::Name { base, name, .. } => {
            let dst = draft.fresh()?;
            draft.node(scene.handler, place, Node::DeleteRef { dst, base, name })?;
            Ok(dst)
        }
        Outcome::Member { object, key, .. } => {
            let dst = draft.fresh()?;
            draft.node(scene.handler, place, Node::DeleteProp { dst, object, key })?;
            Ok(dst)
        }
    }
}

/// Reads what an operand comes to; a name that nothing binds is no error.
fn get_softly(scene: &Scene<'_, '_>, outcome: Outcome, draft: &mut Draft) -> Result<Reg, Memory>
    ensures { code_lines.Gives (spec.get_softly scene.now outcome draft.old) result draft.new }
{
    match outcome {
        Outcome::Name { base, name, place } => {
            let dst = draft.fresh()?;
            draft.node(scene.handler, place, Node::ReadSoft { dst, base, name })?;
            Ok(dst)
        }
        Outcome::Value(_) | Outcome::Member { .. } | Outcome::Special { .. } => {
            get_value(scene, outcome, draft)
        }
    }
}

/// `typeof` of what an operand comes to.
fn type_of(
    scene: &Scene<'_, '_>,
    place: Place,
    outcome: Outcome,
    draft: &mut Draft,
) -> Result<Reg, Memory>
    ensures { code_lines.Gives (spec.with_type scene.now place outcome draft.old) result draft.new }
{
    let value = get_softly(scene, outcome, draft)?;
    unary(scene, place, UnaryOp::TypeOf, value, draft)
}

/// A unary operator on a value.
fn apply_unary(
    operator: UnaryOperator,
    scene: &Scene<'_, '_>,
    place: Place,
    value: Reg,
    draft: &mut Draft,
) -> Result<Reg, Memory>
    ensures { code_lines.Gives (spec.apply_unary operator scene.now place value draft.old) result
        draft.new }
{
    match operator {
        UnaryOperator::Void => constant(scene, place, Primitive::Undefined, draft),
        UnaryOperator::Plus => number(scene, place, value, draft),
        UnaryOperator::Minus => {
            let src = number(scene, place, value, draft)?;
            unary(scene, place, UnaryOp::Neg, src, draft)
        }
        UnaryOperator::Complement => {
            let src = number(scene, place, value, draft)?;
            unary(scene, place, UnaryOp::BitNot, src, draft)
        }
        UnaryOperator::Not => {
            let src = truth(scene, place, value, draft)?;
            unary(scene, place, UnaryOp::Not, src, draft)
        }
        UnaryOperator::Delete | UnaryOperator::Typeof => Ok(value),
    }
}

/// A unary operator before what its operand comes to.
pub(crate) fn on_outcome(
    operator: UnaryOperator,
    scene: &Scene<'_, '_>,
    place: Place,
    outcome: Outcome,
    draft: &mut Draft,
) -> Result<Reg, Memory>
    ensures { code_lines.Gives (spec.on_outcome operator scene.now place outcome draft.old) result
        draft.new }
{
    match operator {
        UnaryOperator::Delete => delete(scene, place, outcome, draft),
        UnaryOperator::Typeof => type_of(scene, place, outcome, draft),
        UnaryOperator::Void
        | UnaryOperator::Plus
        | UnaryOperator::Minus
        | UnaryOperator::Complement
        | UnaryOperator::Not => {
            let value = get_value(scene, outcome, draft)?;
            apply_unary(operator, scene, place, value, draft)
        }
    }
}

/// The constant 1.
fn one(scene: &Scene<'_, '_>, place: Place, draft: &mut Draft) -> Result<Reg, Memory>
    ensures { code_lines.Gives (lines.with_const scene.now place
        (Primitive.Number (Num.Whole (pos 1))) draft.old) result draft.new }
{
    match Int::new(1) {
        None => Err(Memory),
        Some(int) => constant(scene, place, Primitive::Number(Num::Whole(int)), draft),
    }
}

/// The operation of `++` or `--`.
fn update_op(operator: UpdateOperator) -> BinaryOp
    ensures { result ≡ spec.update_op operator }
{
    match operator {
        UpdateOperator::IncrementBefore | UpdateOperator::IncrementBehind => BinaryOp::Add,
        UpdateOperator::DecrementBefore | UpdateOperator::DecrementBehind => BinaryOp::Sub,
    }
}

/// The value of `++` or `--`.
fn update_value(operator: UpdateOperator, old: Reg, new: Reg) -> Reg
    ensures { result ≡ spec.update_value operator old new }
{
    match operator {
        UpdateOperator::IncrementBefore | UpdateOperator::DecrementBefore => new,
        UpdateOperator::IncrementBehind | UpdateOperator::DecrementBehind => old,
    }
}

/// Adds an operation on two registers.
pub(crate) fn binary(
    scene: &Scene<'_, '_>,
    place: Place,
    op: BinaryOp,
    a: Reg,
    b: Reg,
    draft: &mut Draft,
) -> Result<Reg, Memory>
    ensures { code_lines.Gives (spec.with_binary scene.now place op a b draft.old) result draft.new }
{
    let dst = draft.fresh()?;
    draft.node(scene.handler, place, Node::Binary { dst, op, a, b })?;
    Ok(dst)
}

/// An operation on the default values of two registers, the first one first.
#[tactic(auto, unfolding(crate::specs::Operators::on_defaults))]
fn on_defaults(
    op: BinaryOp,
    scene: &Scene<'_, '_>,
    place: Place,
    a: Reg,
    b: Reg,
    draft: &mut Draft,
) -> Result<Reg, Memory>
    ensures { code_lines.Gives (spec.on_defaults op scene.now place a b draft.old) result draft.new }
{
    let x = default_value(scene, place, Hint::Number, a, draft)?;
    let y = default_value(scene, place, Hint::Number, b, draft)?;
    binary(scene, place, op, x, y, draft)
}

/// An operation on the default values of two registers, the second one first.
#[tactic(auto, unfolding(crate::specs::Operators::on_defaults_backwards))]
fn on_defaults_backwards(
    op: BinaryOp,
    scene: &Scene<'_, '_>,
    place: Place,
    a: Reg,
    b: Reg,
    draft: &mut Draft,
) -> Result<Reg, Memory>
    ensures { code_lines.Gives (spec.on_defaults_backwards op scene.now place a b draft.old) result
        draft.new }
{
    let y = default_value(scene, place, Hint::Number, b, draft)?;
    let x = default_value(scene, place, Hint::Number, a, draft)?;
    binary(scene, place, op, x, y, draft)
}

/// An operation on two registers as numbers.
#[tactic(auto, unfolding(crate::specs::Operators::on_numbers))]
fn on_numbers(
    op: BinaryOp,
    scene: &Scene<'_, '_>,
    place: Place,
    a: Reg,
    b: Reg,
    draft: &mut Draft,
) -> Result<Reg, Memory>
    ensures { code_lines.Gives (spec.on_numbers op scene.now place a b draft.old) result draft.new }
{
    let x = number(scene, place, a, draft)?;
    let y = number(scene, place, b, draft)?;
    binary(scene, place, op, x, y, draft)
}

/// One operand of `==` or `!=`, beside the other.
fn beside(
    scene: &Scene<'_, '_>,
    place: Place,
    src: Reg,
    other: Reg,
    draft: &mut Draft,
) -> Result<Reg, Memory>
    ensures { code_lines.Gives (spec.beside scene.now place src other draft.old) result draft.new }
{
    let dst = draft.fresh()?;
    let node = Node::Convert {
        dst,
        src,
        hint: Hint::Number,
        other: Some(other),
    };
    draft.node(scene.handler, place, node)?;
    Ok(dst)
}

/// `==` or `!=` of two registers.
#[tactic(auto, unfolding(crate::specs::Operators::on_loose))]
fn on_loose(
    op: BinaryOp,
    scene: &Scene<'_, '_>,
    place: Place,
    a: Reg,
    b: Reg,
    draft: &mut Draft,
) -> Result<Reg, Memory>
    ensures { code_lines.Gives (spec.on_loose op scene.now place a b draft.old) result draft.new }
{
    let x = beside(scene, place, a, b, draft)?;
    let y = beside(scene, place, b, a, draft)?;
    binary(scene, place, op, x, y, draft)
}

/// `in` of two registers.
#[tactic(auto, unfolding(crate::specs::Operators::on_in))]
fn on_in(
    scene: &Scene<'_, '_>,
    place: Place,
    a: Reg,
    b: Reg,
    draft: &mut Draft,
) -> Result<Reg, Memory>
    ensures { code_lines.Gives (spec.on_in scene.now place a b draft.old) result draft.new }
{
    draft.node(
        scene.handler,
        place,
        Node::NeedObject {
            src: b,
            error: Site(0),
        },
    )?;
    let key = text(scene, place, a, draft)?;
    let dst = draft.fresh()?;
    let node = Node::HasProp {
        dst,
        object: b,
        key,
    };
    draft.node(scene.handler, place, node)?;
    Ok(dst)
}

/// `instanceof` of two registers.
fn on_instance(
    scene: &Scene<'_, '_>,
    place: Place,
    left: Reg,
    right: Reg,
    draft: &mut Draft,
) -> Result<Reg, Memory>
    ensures { code_lines.Gives (spec.on_instance scene.now place left right draft.old) result
        draft.new }
{
    let dst = draft.fresh()?;
    let node = Node::InstanceOf {
        dst,
        left,
        right,
        not_function: Site(0),
        not_object: Site(1),
    };
    draft.node(scene.handler, place, node)?;
    Ok(dst)
}

/// The operation of arithmetic, shifts and bits.
fn binary_op(operator: BinaryOperator) -> BinaryOp
    ensures { result ≡ spec.binary_op operator }
{
    match operator {
        BinaryOperator::Times => BinaryOp::Mul,
        BinaryOperator::Divide => BinaryOp::Div,
        BinaryOperator::Remainder => BinaryOp::Rem,
        BinaryOperator::Minus => BinaryOp::Sub,
        BinaryOperator::ShiftLeft => BinaryOp::Shl,
        BinaryOperator::ShiftRight => BinaryOp::Shr,
        BinaryOperator::ShiftRightUnsigned => BinaryOp::Ushr,
        BinaryOperator::BitAnd => BinaryOp::And,
        BinaryOperator::BitXor => BinaryOp::Xor,
        BinaryOperator::BitOr => BinaryOp::Or,
        _ => BinaryOp::Add,
    }
}

/// An operator between two values. `&&` and `||` don't come here.
pub(crate) fn apply_binary(
    operator: BinaryOperator,
    scene: &Scene<'_, '_>,
    place: Place,
    a: Reg,
    b: Reg,
    draft: &mut Draft,
) -> Result<Reg, Memory>
    ensures { code_lines.Gives (spec.apply_binary operator scene.now place a b draft.old) result
        draft.new }
{
    match operator {
        BinaryOperator::Plus => on_defaults(BinaryOp::Add, scene, place, a, b, draft),
        BinaryOperator::Less => on_defaults(BinaryOp::Lt, scene, place, a, b, draft),
        BinaryOperator::GreaterEqual => on_defaults(BinaryOp::Ge, scene, place, a, b, draft),
        BinaryOperator::Greater => on_defaults_backwards(BinaryOp::Gt, scene, place, a, b, draft),
        BinaryOperator::LessEqual => on_defaults_backwards(BinaryOp::Le, scene, place, a, b, draft),
        BinaryOperator::Equal => on_loose(BinaryOp::LooseEq, scene, place, a, b, draft),
        BinaryOperator::NotEqual => on_loose(BinaryOp::LooseNe, scene, place, a, b, draft),
        BinaryOperator::StrictEqual => binary(scene, place, BinaryOp::StrictEq, a, b, draft),
        BinaryOperator::StrictNotEqual => binary(scene, place, BinaryOp::StrictNe, a, b, draft),
        BinaryOperator::In => on_in(scene, place, a, b, draft),
        BinaryOperator::Instanceof => on_instance(scene, place, a, b, draft),
        _ => on_numbers(binary_op(operator), scene, place, a, b, draft),
    }
}

/// `++` or `--` at what its operand comes to (11.3, 11.4.4, 11.4.5).
#[tactic(auto, unfolding(crate::specs::Operators::update_outcome))]
pub(crate) fn update_outcome(
    operator: UpdateOperator,
    scene: &Scene<'_, '_>,
    place: Place,
    outcome: Outcome,
    draft: &mut Draft,
) -> Result<Reg, Memory>
    ensures { code_lines.Gives (spec.update_outcome operator scene.now place outcome draft.old)
        result draft.new }
{
    let value = get_value(scene, outcome, draft)?;
    let old = number(scene, place, value, draft)?;
    let one = one(scene, place, draft)?;
    let new = binary(scene, place, update_op(operator), old, one, draft)?;
    put_value(scene, place, outcome, new, draft)?;
    Ok(update_value(operator, old, new))
}
