//! Builds the nodes of a tree.

ghost use Rattle.std.specs.Prelude.{◌≡◌, IfOk};
ghost use Rattle.ja_grammar.specs.Forms as forms;
ghost use Rattle.ja_syntax.specs.declared.tree.Expression.TheVariants as e;
ghost use Rattle.ja_syntax.specs.declared.tree.Statement.TheVariants as s;

use crate::held::Held;
use ja_base::Place;
use ja_syntax::{
    BinaryOperator, Expression, ForFirst, ForTarget, Name, Operation, Statement, Suffix,
    UnaryOperator, UpdateOperator,
};
use sqlite_items::{Boxed, Items};
use std::alloc::{AllocError, Global};

/// A head with its suffixes (11.2); a head with none stands for itself.
#[tactic(auto, unfolding(ja_grammar::specs::Forms::chained))]
pub fn chained(
    alloc: Global,
    head: Held<Expression>,
    suffixes: Items<Suffix<Expression>>,
) -> Result<Held<Expression>, AllocError>
    ensures { IfOk result (λ x. x ≡ forms.chained head suffixes) }
{
    if suffixes.is_empty() {
        return Ok(head);
    }
    Held::new(
        alloc,
        Expression::Chain {
            head: head.into_boxed(),
            suffixes,
        },
    )
}

/// A first operand with its operations (11.5 to 11.11); an operand with none stands for itself.
#[tactic(auto, unfolding(ja_grammar::specs::Forms::operated))]
pub fn operated(
    alloc: Global,
    place: Place,
    first: Held<Expression>,
    operations: Items<Operation<Expression>>,
) -> Result<Held<Expression>, AllocError>
    ensures { IfOk result (λ x. x ≡ forms.operated place first operations) }
{
    if operations.is_empty() {
        return Ok(first);
    }
    Held::new(
        alloc,
        Expression::Binary {
            first: first.into_boxed(),
            operations,
            place,
        },
    )
}

/// Expressions between commas (11.14), the first of them at this place; one stands for itself, and
/// for none, which no text has, `this`.
pub fn sequence(
    alloc: Global,
    place: Place,
    mut found: Items<Expression>,
) -> Result<Held<Expression>, AllocError>
    ensures { IfOk result (λ x. x ≡ forms.sequence place found) }
{
    if found.is_empty() {
        return Held::new(alloc, Expression::This { place });
    }
    let first = Held::new(alloc, found.remove(0))?;
    if found.is_empty() {
        return Ok(first);
    }
    Held::new(
        alloc,
        Expression::Sequence {
            first: first.into_boxed(),
            others: found,
            place,
        },
    )
}

/// An object made by `new` (11.2.2). Its place is that of the `new`.
pub fn created(
    alloc: Global,
    callee: Held<Expression>,
    arguments: Items<Expression>,
    place: Place,
) -> Result<Held<Expression>, AllocError>
    ensures { IfOk result (λ x. x ≡ e.New callee arguments place) }
{
    Held::new(
        alloc,
        Expression::New {
            callee: callee.into_boxed(),
            arguments,
            place,
        },
    )
}

/// An operand behind its operator (11.4), at whose place it stands; `++` and `--` are an `update`.
pub fn unary(
    alloc: Global,
    operator: UnaryOperator,
    operand: Held<Expression>,
    place: Place,
) -> Result<Held<Expression>, AllocError>
    ensures { IfOk result (λ x. x ≡ e.Unary operator operand place) }
{
    Held::new(
        alloc,
        Expression::Unary {
            operator,
            operand: operand.into_boxed(),
            place,
        },
    )
}

/// An operand with the `++` or `--` before or behind it (11.3, 11.4.4, 11.4.5), at whose place it
/// stands.
pub fn update(
    alloc: Global,
    operator: UpdateOperator,
    operand: Held<Expression>,
    place: Place,
) -> Result<Held<Expression>, AllocError>
    ensures { IfOk result (λ x. x ≡ e.Update operator operand place) }
{
    Held::new(
        alloc,
        Expression::Update {
            operator,
            operand: operand.into_boxed(),
            place,
        },
    )
}

/// A condition with the value of each of its cases (11.12), at the place where the condition
/// begins.
pub fn conditional(
    alloc: Global,
    condition: Held<Expression>,
    then: Held<Expression>,
    otherwise: Held<Expression>,
    place: Place,
) -> Result<Held<Expression>, AllocError>
    ensures { IfOk result (λ x. x ≡ e.Conditional condition then otherwise place) }
{
    Held::new(
        alloc,
        Expression::Conditional {
            condition: condition.into_boxed(),
            then: then.into_boxed(),
            otherwise: otherwise.into_boxed(),
            place,
        },
    )
}

/// An assignment (11.13) at the place of its operator; `=` has no binary operator.
pub fn assign(
    alloc: Global,
    target: Held<Expression>,
    operator: Option<BinaryOperator>,
    value: Held<Expression>,
    place: Place,
) -> Result<Held<Expression>, AllocError>
    ensures { IfOk result (λ x. x ≡ e.Assign target operator value place) }
{
    Held::new(
        alloc,
        Expression::Assign {
            target: target.into_boxed(),
            operator,
            value: value.into_boxed(),
            place,
        },
    )
}

/// An `if` with its `else`, if any (12.5).
pub fn if_of(
    alloc: Global,
    condition: Held<Expression>,
    then: Held<Statement>,
    otherwise: Option<Held<Statement>>,
    place: Place,
) -> Result<Held<Statement>, AllocError>
    ensures { IfOk result (λ x. x ≡ s.If condition then otherwise place) }
{
    let otherwise = match otherwise {
        Some(statement) => Some(statement.into_boxed()),
        None => None,
    };
    Held::new(
        alloc,
        Statement::If {
            condition: condition.into_inner(),
            then: then.into_boxed(),
            otherwise,
            place,
        },
    )
}

/// A `do` loop (12.6.1).
pub fn do_of(
    alloc: Global,
    body: Held<Statement>,
    condition: Held<Expression>,
    place: Place,
) -> Result<Held<Statement>, AllocError>
    ensures { IfOk result (λ x. x ≡ s.Do body condition place) }
{
    Held::new(
        alloc,
        Statement::Do {
            body: body.into_boxed(),
            condition: condition.into_inner(),
            place,
        },
    )
}

/// A `while` loop (12.6.2).
pub fn while_of(
    alloc: Global,
    condition: Held<Expression>,
    body: Held<Statement>,
    place: Place,
) -> Result<Held<Statement>, AllocError>
    ensures { IfOk result (λ x. x ≡ s.While condition body place) }
{
    Held::new(
        alloc,
        Statement::While {
            condition: condition.into_inner(),
            body: body.into_boxed(),
            place,
        },
    )
}

/// The expression that is held, if any.
pub fn taken(part: Option<Held<Expression>>) -> Option<Expression>
    ensures { result ≡ part }
{
    match part {
        Some(expression) => Some(expression.into_inner()),
        None => None,
    }
}

/// The expression that is held, if any, in its own memory.
fn taken_boxed(part: Option<Held<Expression>>) -> Option<Boxed<Expression>>
    ensures { result ≡ part }
{
    match part {
        Some(expression) => Some(expression.into_boxed()),
        None => None,
    }
}

/// A `for` loop (12.6.3).
pub fn for_of(
    alloc: Global,
    first: Held<ForFirst<Expression>>,
    condition: Option<Held<Expression>>,
    update: Option<Held<Expression>>,
    body: Held<Statement>,
    place: Place,
) -> Result<Held<Statement>, AllocError>
    ensures { IfOk result (λ x. x ≡ s.For first condition update body place) }
{
    Held::new(
        alloc,
        Statement::For {
            first: first.into_inner(),
            condition: taken_boxed(condition),
            update: taken_boxed(update),
            body: body.into_boxed(),
            place,
        },
    )
}

/// A `for`-`in` loop (12.6.4).
pub fn for_in_of(
    alloc: Global,
    target: Held<ForTarget<Expression>>,
    object: Held<Expression>,
    body: Held<Statement>,
    place: Place,
) -> Result<Held<Statement>, AllocError>
    ensures { IfOk result (λ x. x ≡ s.ForIn target object body place) }
{
    Held::new(
        alloc,
        Statement::ForIn {
            target: target.into_inner(),
            object: object.into_boxed(),
            body: body.into_boxed(),
            place,
        },
    )
}

/// A statement behind its label (12.12).
pub fn labelled_of(
    alloc: Global,
    label: Name,
    body: Held<Statement>,
) -> Result<Held<Statement>, AllocError>
    ensures { IfOk result (λ x. x ≡ s.Labelled label body) }
{
    Held::new(
        alloc,
        Statement::Labelled {
            label,
            body: body.into_boxed(),
        },
    )
}
