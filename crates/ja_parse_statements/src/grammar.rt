//! The rules take the function that reads the parts of statements one level below as a parameter,
//! so that each is proved by itself.

ghost use Rattle.std.specs.Prelude.{false};
ghost use Rattle.ja_grammar.specs.declared.part.StatementPart.TheVariants as part;
ghost use Rattle.ja_grammar.specs.code.Contexts.{context_of};
ghost use Rattle.ja_grammar.specs.Input.{until, strict};
ghost use Rattle.ja_grammar.specs.code.Input.{Follows};
ghost use Rattle.ja_grammar.specs.ReadExpression as expressions;
ghost use Rattle.ja_grammar.specs.ReadStatement.{below};
ghost use Rattle.ja_parse_expressions.specs.code.Ends.{ends};
ghost use Rattle.ja_parse_expressions.specs.code.Nests.{Nests};

use ja_grammar::{Context, ExpressionPart, Refusal, StatementPart, Stop};
use ja_parse_cursor::{Cursor, Held};
use ja_parse_expressions::{ListEnd, Piece, expression_at, statement_below, statements_below};
use ja_syntax::{Expression, Statement};
use sqlite_items::Items;
use std::alloc::Global;

/// Reads what stands where `depth` levels are left.
#[derive(Clone, Copy)]
pub struct Grammar<G> {
    pub alloc: Global,
    pub depth: usize,
    /// Reads a part of a statement.
    pub statement: G,
}

impl<
    G: Fn(
        Global,
        &mut Cursor<'_>,
        usize,
        &Context<'_>,
        StatementPart,
    ) -> Result<Held<Statement>, Stop>,
> Grammar<G> {
    /// Reads a part of an expression one level below.
    #[tactic(auto, using(crate::proofs::Rulesets::for_expression_below))]
    pub fn expression_below(
        &self,
        cursor: &mut Cursor<'_>,
        part: ExpressionPart,
    ) -> Result<Held<Expression>, Stop>
        requires { Nests self.now.depth (G.pre self.now.statement) (G.post self.now.statement) }
        ensures { Follows ((below strict self.now.depth).expression part cursor.old) result
            cursor.new }
    {
        if self.depth == 0 {
            return Err(Stop::Refused(Refusal::Deep));
        }
        expression_at(
            self.alloc,
            cursor,
            self.depth - 1,
            Piece::Part(part),
            &self.statement,
        )
    }

    /// Reads an expression, with commas, at this level.
    #[tactic(auto, unfolding(ja_grammar::specs::ReadExpression::expression_part))]
    pub fn whole(&self, cursor: &mut Cursor<'_>) -> Result<Held<Expression>, Stop>
        requires { Nests self.now.depth (G.pre self.now.statement) (G.post self.now.statement) }
        ensures { Follows (expressions.whole (strict self.now.depth) (below strict self.now.depth)
            false cursor.old) result cursor.new }
    {
        let part = ExpressionPart::Whole { no_in: false };
        expression_at(
            self.alloc,
            cursor,
            self.depth,
            Piece::Part(part),
            &self.statement,
        )
    }

    /// Reads an expression without commas at this level.
    #[tactic(auto, unfolding(ja_grammar::specs::ReadExpression::expression_part))]
    pub fn assignment(&self, cursor: &mut Cursor<'_>) -> Result<Held<Expression>, Stop>
        requires { Nests self.now.depth (G.pre self.now.statement) (G.post self.now.statement) }
        ensures { Follows (expressions.assignment (strict self.now.depth)
            (below strict self.now.depth) false cursor.old) result cursor.new }
    {
        let part = ExpressionPart::Assignment { no_in: false };
        expression_at(
            self.alloc,
            cursor,
            self.depth,
            Piece::Part(part),
            &self.statement,
        )
    }

    /// Reads a part of a statement one level below.
    pub fn statement_below(
        &self,
        cursor: &mut Cursor<'_>,
        context: &Context<'_>,
        part: StatementPart,
    ) -> Result<Held<Statement>, Stop>
        requires { Nests self.now.depth (G.pre self.now.statement) (G.post self.now.statement) }
        ensures { Follows ((below strict self.now.depth).statement (context_of context.now) part
            cursor.old) result cursor.new }
    {
        statement_below(
            self.alloc,
            cursor,
            self.depth,
            &self.statement,
            context,
            part,
        )
    }

    /// Reads statements one level below, up to the end of their list.
    pub fn list_below(
        &self,
        cursor: &mut Cursor<'_>,
        context: &Context<'_>,
        end: ListEnd,
    ) -> Result<Items<Statement>, Stop>
        requires { Nests self.now.depth (G.pre self.now.statement) (G.post self.now.statement) }
        ensures { Follows (until (ends end) ((below strict self.now.depth).statement
            (context_of context.now) (part.Whole 0 false)) cursor.old) result cursor.new }
    {
        statements_below(
            self.alloc,
            cursor,
            self.depth,
            &self.statement,
            context,
            end,
            false,
        )
    }
}
