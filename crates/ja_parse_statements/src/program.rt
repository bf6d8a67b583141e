//! The program (ES3 14), and how the parts of statements read one another.

ghost use Rattle.ja_grammar.specs.code.Contexts.{context_of};
ghost use Rattle.ja_grammar.specs.Input.{strict};
ghost use Rattle.ja_grammar.specs.code.Input.{Follows};
ghost use Rattle.ja_grammar.specs.Language.{max_levels};
ghost use Rattle.ja_grammar.specs.ReadStatement as spec;
ghost use Rattle.ja_grammar.specs.ReadStatement.{below};

use crate::grammar::Grammar;
use ja_grammar::{Context, StatementPart, Stop};
use ja_parse_cursor::{Cursor, Held, program_context};
use ja_syntax::Statement;
use sqlite_items::Items;
use std::alloc::Global;

/// How many levels a program has.
const MAX_LEVELS: usize = 200;

/// Reads a part of a statement where `depth` levels are left.
#[cycle(parser)]
fn statement_at(
    alloc: Global,
    cursor: &mut Cursor<'_>,
    depth: usize,
    context: &Context<'_>,
    part: StatementPart,
) -> Result<Held<Statement>, Stop>
    ensures { Follows (spec.statement_part (strict depth) (below strict depth)
        (context_of context.now) part cursor.old) result cursor.new }
{
    Grammar {
        alloc,
        depth,
        statement: statement_at,
    }
    .statement_part(cursor, context, part)
}

/// Reads the statements of a program with at most 200 levels, up to the token `End`. Where the
/// tokens are no program, the cursor stands at the first token that no program has behind those
/// before it. `Memory` comes only where memory was refused.
#[tactic(auto, unfolding(ja_grammar::specs::ReadStatement::program))]
pub fn read_program(alloc: Global, cursor: &mut Cursor<'_>) -> Result<Items<Statement>, Stop>
    ensures { Follows (spec.program strict max_levels cursor.old) result cursor.new }
{
    let context = program_context(alloc);
    Grammar {
        alloc,
        depth: MAX_LEVELS,
        statement: statement_at,
    }
    .program_statements(cursor, &context)
}
