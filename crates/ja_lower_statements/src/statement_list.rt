//! Statements (ES3 12).

ghost use Rattle.std.specs.Prelude.{map};
ghost use Rattle.ja_lower_draft.specs.code.Lines as lines;
ghost use Rattle.ja_lower_statements.specs.code.Standing.{around_of};
ghost use Rattle.ja_lower_statements.specs.Statements as spec;

use crate::around::Around;
use crate::blocks::trial;
use crate::choices::{if_alone, if_else, if_then, labelled, switch};
use crate::loops::{do_loop, for_in_loop, for_loop, while_loop};
use crate::statement_parts::{declare_all, evaluate, return_from, throw};
use crate::way::{Jump, jump_out};
use ja_base::Memory;
use ja_lower_draft::Draft;
use ja_syntax::Statement;

/// Statements, one after another.
#[cycle(statements)]
#[tactic(auto, unfolding(crate::specs::Statements::list_all_statements))]
pub fn statements(
    around: &Around<'_, '_, '_>,
    base: u32,
    statements: &[Statement],
    draft: &mut Draft,
) -> Result<(), Memory>
    ensures { lines.Adds (spec.list_all_statements (map spec.does statements.now)
        (around_of around.now) base draft.old) result draft.new }
{
    let inner = around.unlabelled();
    for next in statements {
        statement(&inner, base, next, draft)?;
    }
    Ok(())
}

/// Lists a statement, with temporaries from a register on. It fails where memory is refused, or
/// where the numbers of temporaries, spots or functions are used up.
#[cycle(statements)]
#[tactic(auto, using(crate::proofs::StatementLemmas::does_if_else))]
pub fn statement(
    around: &Around<'_, '_, '_>,
    base: u32,
    statement: &Statement,
    draft: &mut Draft,
) -> Result<(), Memory>
    ensures { lines.Adds (spec.does statement.now (around_of around.now) base draft.old) result
        draft.new }
{
    let scene = around.scene;
    match statement {
        Statement::Block { body, .. } => statements(around, base, body.as_slice(), draft),
        Statement::Variables { declarations, .. } => {
            declare_all(declarations.as_slice(), scene, base, draft)
        }
        Statement::Empty { .. } => Ok(()),
        Statement::Expression { value, .. } => evaluate(value, scene, base, draft),
        Statement::If {
            condition,
            then,
            otherwise,
            place,
        } => match otherwise {
            None => if_alone(then.get(), condition, around, base, *place, draft),
            Some(otherwise) => {
                let first = if_then(then.get(), condition, around, base, *place, draft)?;
                if_else(otherwise.get(), first, around, base, draft)
            }
        },
        Statement::Do {
            body,
            condition,
            place,
        } => do_loop(body.get(), condition, around, base, *place, draft),
        Statement::While {
            condition,
            body,
            place,
        } => while_loop(body.get(), condition, around, base, *place, draft),
        Statement::For {
            first,
            condition,
            update,
            body,
            place,
        } => for_loop(
            body.get(),
            first,
            condition,
            update,
            around,
            base,
            *place,
            draft,
        ),
        Statement::ForIn {
            target,
            object,
            body,
            place,
        } => for_in_loop(
            body.get(),
            target,
            object.get(),
            around,
            base,
            *place,
            draft,
        ),
        Statement::Continue { label, place } => {
            jump_out(scene, *place, Jump::Continue, label, around.ways, draft)
        }
        Statement::Break { label, place } => {
            jump_out(scene, *place, Jump::Break, label, around.ways, draft)
        }
        Statement::Return { value, place } => return_from(value, around, base, *place, draft),
        Statement::Labelled { label, body } => labelled(body.get(), label, around, base, draft),
        Statement::Switch {
            value,
            cases,
            place,
        } => switch(cases.as_slice(), value, around, base, *place, draft),
        Statement::Throw { value, place } => throw(value, scene, base, *place, draft),
        Statement::Try { .. } => trial(statement, around, base, draft),
        Statement::Function(_) => Ok(()),
    }
}
