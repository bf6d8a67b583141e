//! The rules take the function that reads the parts one level below as a parameter, so that each is
//! proved by itself.

ghost use Rattle.ja_grammar.specs.Input.{strict};
ghost use Rattle.ja_grammar.specs.code.Input.{Follows};
ghost use Rattle.ja_grammar.specs.ReadStatement.{below};
ghost use Rattle.ja_parse_expressions.specs.code.Nests.{Reads};

use ja_grammar::{ExpressionPart, Refusal, Stop};
use ja_parse_cursor::{Cursor, Held};
use ja_syntax::Expression;
use std::alloc::Global;

/// What a function that reads expressions is asked for.
#[derive(Clone, Copy)]
pub enum Piece {
    /// A part of an expression.
    Part(ExpressionPart),
    /// A function, from the word `function` on.
    Function,
}

/// Reads the expressions that stand where `depth` levels are left.
#[derive(Clone, Copy)]
pub struct Grammar<'a, F, G> {
    pub alloc: Global,
    pub depth: usize,
    /// Reads a part of an expression one level below, or a function.
    pub read: F,
    /// Reads a part of a statement.
    pub statement: &'a G,
}

impl<F: Fn(Global, &mut Cursor<'_>, usize, Piece, &G) -> Result<Held<Expression>, Stop>, G> Grammar<
    '_,
    F,
    G,
> {
    /// Reads a part of an expression one level below.
    #[tactic(auto, using(crate::proofs::Rulesets::for_expression_below))]
    pub fn expression_below(
        &self,
        cursor: &mut Cursor<'_>,
        part: ExpressionPart,
    ) -> Result<Held<Expression>, Stop>
        requires { Reads self.now.depth self.now.statement (F.pre self.now.read)
            (F.post self.now.read) }
        ensures { Follows ((below strict self.now.depth).expression part cursor.old) result
            cursor.new }
    {
        if self.depth == 0 {
            return Err(Stop::Refused(Refusal::Deep));
        }
        (self.read)(
            self.alloc,
            cursor,
            self.depth - 1,
            Piece::Part(part),
            self.statement,
        )
    }
}
