//! Loops (ES3 12.6).

ghost use Rattle.std.specs.Prelude.{true, false};
ghost use Rattle.ja_grammar.specs.code.Contexts.{context_of};
ghost use Rattle.ja_grammar.specs.Input.{strict};
ghost use Rattle.ja_grammar.specs.code.Input.{Follows};
ghost use Rattle.ja_grammar.specs.ReadStatement as spec;
ghost use Rattle.ja_grammar.specs.ReadStatement.{below};
ghost use Rattle.ja_parse_expressions.specs.code.Nests.{Nests};
ghost use Rattle.ja_parse_statements.specs.code.Clauses.{for_behind, for_rest_behind, variables_behind};
ghost use Rattle.ja_syntax.specs.declared.tree.ForFirst.TheVariants as first;

use crate::grammar::Grammar;
use ja_base::Place;
use ja_grammar::{Context, ExpressionPart, Refusal, StatementPart, Stop};
use ja_parse_cursor::{Cursor, Held, do_of, ended, for_in_of, for_of, loop_context, while_of};
use ja_syntax::{Declaration, Expression, ForFirst, ForTarget, Statement, Symbol, is_reference};
use sqlite_items::Items;
use std::alloc::Global;

impl<
    G: Fn(
        Global,
        &mut Cursor<'_>,
        usize,
        &Context<'_>,
        StatementPart,
    ) -> Result<Held<Statement>, Stop>,
> Grammar<G> {
    /// Reads the rest of the `do` at `place`, which `labels` labels stand directly before (12.6.1).
    #[tactic(auto, unfolding(ja_grammar::specs::ReadStatement::do_part))]
    pub fn do_part(
        &self,
        cursor: &mut Cursor<'_>,
        context: &Context<'_>,
        place: Place,
        labels: usize,
    ) -> Result<Held<Statement>, Stop>
        requires { Nests self.now.depth (G.pre self.now.statement) (G.post self.now.statement) }
        ensures { Follows (spec.do_part (strict self.now.depth) (below strict self.now.depth)
            (context_of context.now) place labels cursor.old) result cursor.new }
    {
        let inner = loop_context(self.alloc, context, labels)?;
        let body = self.single(cursor, &inner, 0, false)?;
        cursor.expect(Symbol::While)?;
        let condition = self.bracketed(cursor)?;
        ended(cursor)?;
        Ok(do_of(self.alloc, body, condition, place)?)
    }

    /// Reads the rest of the `while` at `place`, which `labels` labels stand directly before
    /// (12.6.2).
    #[tactic(auto, unfolding(ja_grammar::specs::ReadStatement::while_part))]
    pub fn while_part(
        &self,
        cursor: &mut Cursor<'_>,
        context: &Context<'_>,
        place: Place,
        labels: usize,
    ) -> Result<Held<Statement>, Stop>
        requires { Nests self.now.depth (G.pre self.now.statement) (G.post self.now.statement) }
        ensures { Follows (spec.while_part (strict self.now.depth) (below strict self.now.depth)
            (context_of context.now) place labels cursor.old) result cursor.new }
    {
        let condition = self.bracketed(cursor)?;
        let inner = loop_context(self.alloc, context, labels)?;
        let body = self.single(cursor, &inner, 0, false)?;
        Ok(while_of(self.alloc, condition, body, place)?)
    }

    /// Reads an expression, if any, and a closing token.
    #[tactic(auto, unfolding(ja_grammar::specs::ReadStatement::optional))]
    fn optional(
        &self,
        cursor: &mut Cursor<'_>,
        close: Symbol,
    ) -> Result<Option<Held<Expression>>, Stop>
        requires { Nests self.now.depth (G.pre self.now.statement) (G.post self.now.statement) }
        ensures { Follows (spec.optional (strict self.now.depth) (below strict self.now.depth) close
            cursor.old) result cursor.new }
    {
        if cursor.sees(close) {
            cursor.take();
            return Ok(None);
        }
        let x = self.expression_below(cursor, ExpressionPart::Whole { no_in: false })?;
        cursor.expect(close)?;
        Ok(Some(x))
    }

    /// Reads what stands behind the first `;` of a `for` (12.6.3).
    #[tactic(auto, unfolding(ja_grammar::specs::ReadStatement::for_rest))]
    fn for_rest(
        &self,
        cursor: &mut Cursor<'_>,
        context: &Context<'_>,
        place: Place,
        first: Held<ForFirst<Expression>>,
    ) -> Result<Held<Statement>, Stop>
        requires { Nests self.now.depth (G.pre self.now.statement) (G.post self.now.statement) }
        ensures { Follows (spec.for_rest (strict self.now.depth) (below strict self.now.depth)
            (context_of context.now) place first cursor.old) result cursor.new }
    {
        let condition = self.optional(cursor, Symbol::Semicolon)?;
        let update = self.optional(cursor, Symbol::CloseParenthesis)?;
        let body = self.single(cursor, context, 0, false)?;
        Ok(for_of(self.alloc, first, condition, update, body, place)?)
    }

    /// Reads a `for`-`in` from its `in` on (12.6.4).
    #[tactic(auto, unfolding(ja_grammar::specs::ReadStatement::in_rest))]
    fn in_rest(
        &self,
        cursor: &mut Cursor<'_>,
        context: &Context<'_>,
        place: Place,
        target: Held<ForTarget<Expression>>,
    ) -> Result<Held<Statement>, Stop>
        requires { Nests self.now.depth (G.pre self.now.statement) (G.post self.now.statement) }
        ensures { Follows (spec.in_rest (strict self.now.depth) (below strict self.now.depth)
            (context_of context.now) place target cursor.old) result cursor.new }
    {
        cursor.take();
        let object = self.expression_below(cursor, ExpressionPart::Whole { no_in: false })?;
        cursor.expect(Symbol::CloseParenthesis)?;
        let body = self.single(cursor, context, 0, false)?;
        Ok(for_in_of(self.alloc, target, object, body, place)?)
    }

    /// Reads a `for` from the `;` behind its variables on.
    fn for_declared(
        &self,
        cursor: &mut Cursor<'_>,
        context: &Context<'_>,
        place: Place,
        found: Items<Declaration<Expression>>,
    ) -> Result<Held<Statement>, Stop>
        requires { Nests self.now.depth (G.pre self.now.statement) (G.post self.now.statement) }
        ensures { Follows (for_rest_behind (strict self.now.depth) (below strict self.now.depth)
            (context_of context.now) place (first.Variables found) cursor.old) result cursor.new }
    {
        cursor.expect(Symbol::Semicolon)?;
        let first = Held::new(self.alloc, ForFirst::Variables(found))?;
        self.for_rest(cursor, context, place, first)
    }

    /// Reads a `for` from the token behind its variables on.
    #[tactic(auto, using(crate::proofs::Rulesets::for_for_variables_behind))]
    fn for_variables_behind(
        &self,
        cursor: &mut Cursor<'_>,
        context: &Context<'_>,
        place: Place,
        mut found: Items<Declaration<Expression>>,
    ) -> Result<Held<Statement>, Stop>
        requires { Nests self.now.depth (G.pre self.now.statement) (G.post self.now.statement) }
        ensures { Follows (variables_behind (strict self.now.depth) (below strict self.now.depth)
            (context_of context.now) place found cursor.old) result cursor.new }
    {
        if found.len() == 1 {
            return match cursor.symbol() {
                Symbol::In => {
                    let target = Held::new(self.alloc, ForTarget::Variable(found.remove(0)))?;
                    self.in_rest(cursor, context, place, target)
                }
                _ => self.for_declared(cursor, context, place, found),
            };
        }
        self.for_declared(cursor, context, place, found)
    }

    /// Reads a `for` from its `var` on.
    #[tactic(auto, unfolding(ja_grammar::specs::ReadStatement::for_variables))]
    fn for_variables(
        &self,
        cursor: &mut Cursor<'_>,
        context: &Context<'_>,
        place: Place,
    ) -> Result<Held<Statement>, Stop>
        requires { Nests self.now.depth (G.pre self.now.statement) (G.post self.now.statement) }
        ensures { Follows (spec.for_variables (strict self.now.depth) (below strict self.now.depth)
            (context_of context.now) place cursor.old) result cursor.new }
    {
        cursor.take();
        let found = self.declarations(cursor, true)?;
        self.for_variables_behind(cursor, context, place, found)
    }

    /// Reads a `for` whose head begins with an expression.
    #[tactic(auto, unfolding(ja_grammar::specs::ReadStatement::for_expression))]
    fn for_expression(
        &self,
        cursor: &mut Cursor<'_>,
        context: &Context<'_>,
        place: Place,
    ) -> Result<Held<Statement>, Stop>
        requires { Nests self.now.depth (G.pre self.now.statement) (G.post self.now.statement) }
        ensures { Follows (spec.for_expression (strict self.now.depth) (below strict self.now.depth)
            (context_of context.now) place cursor.old) result cursor.new }
    {
        let x = self.expression_below(cursor, ExpressionPart::Whole { no_in: true })?;
        match cursor.symbol() {
            Symbol::In => {
                if !is_reference(x.get()) {
                    return Err(Stop::Refused(Refusal::Unexpected));
                }
                let target = Held::new(self.alloc, ForTarget::Reference(x.into_inner()))?;
                self.in_rest(cursor, context, place, target)
            }
            _ => {
                cursor.expect(Symbol::Semicolon)?;
                let first = Held::new(self.alloc, ForFirst::Expression(x.into_inner()))?;
                self.for_rest(cursor, context, place, first)
            }
        }
    }

    /// Reads a `for` from the token behind its `(` on.
    fn for_head(
        &self,
        cursor: &mut Cursor<'_>,
        context: &Context<'_>,
        place: Place,
    ) -> Result<Held<Statement>, Stop>
        requires { Nests self.now.depth (G.pre self.now.statement) (G.post self.now.statement) }
        ensures { Follows (for_behind (strict self.now.depth) (below strict self.now.depth)
            (context_of context.now) place cursor.old) result cursor.new }
    {
        match cursor.symbol() {
            Symbol::Var => self.for_variables(cursor, context, place),
            Symbol::Semicolon => {
                cursor.take();
                let first = Held::new(self.alloc, ForFirst::Nothing)?;
                self.for_rest(cursor, context, place, first)
            }
            _ => self.for_expression(cursor, context, place),
        }
    }

    /// Reads the rest of the `for` at `place`, which `labels` labels stand directly before
    /// (12.6.3).
    #[tactic(auto, unfolding(ja_grammar::specs::ReadStatement::for_part))]
    pub fn for_part(
        &self,
        cursor: &mut Cursor<'_>,
        context: &Context<'_>,
        place: Place,
        labels: usize,
    ) -> Result<Held<Statement>, Stop>
        requires { Nests self.now.depth (G.pre self.now.statement) (G.post self.now.statement) }
        ensures { Follows (spec.for_part (strict self.now.depth) (below strict self.now.depth)
            (context_of context.now) place labels cursor.old) result cursor.new }
    {
        cursor.opening(self.depth, Symbol::OpenParenthesis)?;
        let inner = loop_context(self.alloc, context, labels)?;
        self.for_head(cursor, &inner, place)
    }
}
