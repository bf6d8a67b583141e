//! Expressions, and ends of expressions, of one or two tokens (ES3 11.1, 11.2). They read alike at
//! every level.

ghost use Rattle.std.specs.Prelude.{ℕ};
ghost use Rattle.ja_syntax.specs.declared.tree.Expression.TheVariants as e;
ghost use Rattle.ja_grammar.specs.Forms.{name_of};
ghost use Rattle.ja_grammar.specs.Input.{Done, behind, head, strict};
ghost use Rattle.ja_grammar.specs.code.Input.{Follows};
ghost use Rattle.ja_grammar.specs.ReadExpression as spec;
ghost use Rattle.ja_grammar.specs.ReadExpression.{Below};

use crate::cursor::Cursor;
use crate::held::Held;
use crate::literal::literal_of;
use crate::operator::postfix_of;
use ja_base::Place;
use ja_grammar::{Refusal, Stop};
use ja_syntax::{Expression, Suffix, Symbol, is_reference};
use std::alloc::Global;

/// Reads `this` (11.1.1).
pub fn this_expression(alloc: Global, cursor: &mut Cursor<'_>) -> Result<Held<Expression>, Stop>
    ensures { Follows (Done (e.This (head cursor.old).place) (behind cursor.old)) result cursor.new }
{
    let place = cursor.place();
    cursor.take();
    Ok(Held::new(alloc, Expression::This { place })?)
}

/// Reads a name (11.1.2), which the next token is.
pub fn name_expression(alloc: Global, cursor: &mut Cursor<'_>) -> Result<Held<Expression>, Stop>
    ensures { Follows (Done (e.Name (name_of (head cursor.old))) (behind cursor.old)) result
        cursor.new }
{
    let name = cursor.name(alloc)?;
    cursor.take();
    Ok(Held::new(alloc, Expression::Name(name))?)
}

/// Reads a literal (7.8). Any other token is refused as `Unexpected`.
#[tactic(auto, unfolding(ja_grammar::specs::ReadExpression::literal))]
pub fn literal_expression(alloc: Global, cursor: &mut Cursor<'_>) -> Result<Held<Expression>, Stop>
    ensures { (depth : ℕ) (below : Below) → Follows (spec.literal (strict depth) below cursor.old)
        result cursor.new }
{
    let place = cursor.place();
    let Some(value) = literal_of(alloc, cursor)? else {
        return Err(Stop::Refused(Refusal::Unexpected));
    };
    cursor.take();
    Ok(Held::new(alloc, Expression::Literal { value, place })?)
}

/// Reads `.NAME` (11.2.1), of which the next token is the dot. Where no name follows, that token is
/// refused as `Unexpected`.
#[tactic(auto, unfolding(ja_grammar::specs::ReadExpression::dotted))]
pub fn dotted(alloc: Global, cursor: &mut Cursor<'_>) -> Result<Suffix<Expression>, Stop>
    ensures { (depth : ℕ) (below : Below) → Follows (spec.dotted (strict depth) below cursor.old)
        result cursor.new }
{
    let place = cursor.place();
    cursor.take();
    let name = cursor.name(alloc)?;
    cursor.expect(Symbol::Name)?;
    Ok(Suffix::Member { name, place })
}

/// Reads what stands behind an element of an array literal (11.1.4): takes a comma, and leaves the
/// `]`. Any other token is refused as `Unexpected`.
#[tactic(auto, unfolding(ja_grammar::specs::ReadExpression::element_close))]
pub fn element_close(
    cursor: &mut Cursor<'_>,
    x: Held<Expression>,
) -> Result<Option<Expression>, Stop>
    ensures { (depth : ℕ) (below : Below) → Follows
        (spec.element_close (strict depth) below x cursor.old) result cursor.new }
{
    match cursor.symbol() {
        Symbol::Comma => {
            cursor.take();
            Ok(Some(x.into_inner()))
        }
        Symbol::CloseBracket => Ok(Some(x.into_inner())),
        _ => Err(Stop::Refused(Refusal::Unexpected)),
    }
}

/// Ends the operand of the `++` or `--` at `place`, which is complete (11.4.4, 11.4.5). Where it is
/// no reference, it is refused as `Operand` at `place`, and where a `++` or `--` stands behind it
/// on its line as `Broken` there.
#[tactic(auto, unfolding(ja_grammar::specs::ReadExpression::operand_close, ja_grammar::specs::Input::strict))]
pub fn operand_close(
    cursor: &Cursor<'_>,
    x: Held<Expression>,
    place: Place,
) -> Result<Held<Expression>, Stop>
    ensures { (depth : ℕ) (below : Below) → Follows
        (spec.operand_close (strict depth) below place x cursor.now) result cursor.now }
{
    if !is_reference(x.get()) {
        return Err(Stop::Refused(Refusal::Operand(place)));
    }
    match postfix_of(cursor) {
        Some(_) => Err(Stop::Refused(Refusal::Broken(place))),
        None => Ok(x),
    }
}
