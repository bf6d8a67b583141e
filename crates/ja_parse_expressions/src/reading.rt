//! How the parts of expressions read one another.

ghost use Rattle.ja_grammar.specs.Input.{strict};
ghost use Rattle.ja_grammar.specs.code.Input.{Follows};
ghost use Rattle.ja_grammar.specs.ReadStatement.{below};
ghost use Rattle.ja_parse_expressions.specs.code.Nests.{Nests};
ghost use Rattle.ja_parse_expressions.specs.code.Pieces.{piece};

use crate::body::function;
use crate::grammar::{Grammar, Piece};
use ja_grammar::{Context, StatementPart, Stop};
use ja_parse_cursor::{Cursor, Held};
use ja_syntax::{Expression, Statement};
use sqlite_items::Boxed;
use std::alloc::Global;

/// Reads a part of an expression, or a function, where `depth` levels are left, with the function
/// that reads the statements of a function's body. Where the tokens are none, the cursor stands at
/// the first token that none has behind those before it. `Memory` comes only where memory was
/// refused.
#[cycle(expressions)]
pub fn expression_at<
    G: Fn(
        Global,
        &mut Cursor<'_>,
        usize,
        &Context<'_>,
        StatementPart,
    ) -> Result<Held<Statement>, Stop>,
>(
    alloc: Global,
    cursor: &mut Cursor<'_>,
    depth: usize,
    asked: Piece,
    statement: &G,
) -> Result<Held<Expression>, Stop>
    requires { Nests depth (G.pre statement.now) (G.post statement.now) }
    ensures { Follows (piece (strict depth) (below strict depth) asked cursor.old) result cursor.new }
{
    match asked {
        Piece::Function => {
            let found = Boxed::new(alloc, function(alloc, cursor, depth, statement, false)?)?;
            Ok(Held::new(alloc, Expression::Function(found))?)
        }
        Piece::Part(part) => Grammar {
            alloc,
            depth,
            read: expression_at::<G>,
            statement,
        }
        .expression_part(cursor, part),
    }
}
