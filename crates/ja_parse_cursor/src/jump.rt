//! Statements within which nothing stands one level below: the empty one, and jumps to a label (ES3
//! 12.3, 12.7, 12.8).

ghost use Rattle.std.specs.Prelude.{ℕ};
ghost use Rattle.ja_syntax.specs.declared.tree.Statement.TheVariants as s;
ghost use Rattle.ja_grammar.specs.Contexts.{may_break};
ghost use Rattle.ja_grammar.specs.code.Contexts.{context_of};
ghost use Rattle.ja_grammar.specs.Input.{Done, behind, head, strict};
ghost use Rattle.ja_grammar.specs.code.Input.{Follows};
ghost use Rattle.ja_grammar.specs.ReadExpression.{Below};
ghost use Rattle.ja_grammar.specs.ReadStatement as spec;

use crate::context::may_break;
use crate::cursor::Cursor;
use crate::held::Held;
use crate::semicolon::ended;
use crate::target::{break_target, continue_target, without_target};
use ja_grammar::{Context, Stop};
use ja_syntax::Statement;
use std::alloc::Global;

/// Reads an empty statement (12.3).
pub fn empty_statement(alloc: Global, cursor: &mut Cursor<'_>) -> Result<Held<Statement>, Stop>
    ensures { Follows (Done (s.Empty (head cursor.old).place) (behind cursor.old)) result cursor.new }
{
    let place = cursor.place();
    cursor.take();
    Ok(Held::new(alloc, Statement::Empty { place })?)
}

/// Reads a `continue` statement (12.7). Where no loop is around, it is refused as `without_target`
/// says; a label behind it as `continue_target` does, and what stands behind as `ended` does.
pub fn continue_statement(
    alloc: Global,
    cursor: &mut Cursor<'_>,
    context: &Context<'_>,
) -> Result<Held<Statement>, Stop>
    ensures { (depth : ℕ) (below : Below) → Follows
        (spec.continue_by (strict depth) below (context_of context.now) context.now.in_loop
        cursor.old) result cursor.new }
{
    if !context.in_loop {
        return Err(Stop::Refused(without_target(cursor, context)));
    }
    let place = cursor.place();
    cursor.take();
    let label = continue_target(alloc, cursor, context, place)?;
    ended(cursor)?;
    Ok(Held::new(alloc, Statement::Continue { label, place })?)
}

/// Reads a `break` statement (12.8). Where there is nothing to break, it is refused as
/// `without_target` says; a label behind it as `break_target` does, and what stands behind as
/// `ended` does.
pub fn break_statement(
    alloc: Global,
    cursor: &mut Cursor<'_>,
    context: &Context<'_>,
) -> Result<Held<Statement>, Stop>
    ensures { (depth : ℕ) (below : Below) → Follows
        (spec.break_by (strict depth) below (context_of context.now)
        (may_break (context_of context.now)) cursor.old) result cursor.new }
{
    if !may_break(context) {
        return Err(Stop::Refused(without_target(cursor, context)));
    }
    let place = cursor.place();
    cursor.take();
    let label = break_target(alloc, cursor, context, place)?;
    ended(cursor)?;
    Ok(Held::new(alloc, Statement::Break { label, place })?)
}
