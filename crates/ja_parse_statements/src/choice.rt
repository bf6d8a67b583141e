//! `switch`, `try` and `if` (ES3 12.5, 12.11, 12.14).

ghost use Rattle.std.specs.Prelude.{true, false};
ghost use Rattle.ja_syntax.specs.declared.symbol.Symbol.TheVariants as k;
ghost use Rattle.ja_grammar.specs.code.Contexts.{context_of};
ghost use Rattle.ja_grammar.specs.Input.{strict};
ghost use Rattle.ja_grammar.specs.code.Input.{Follows};
ghost use Rattle.ja_grammar.specs.ReadStatement as spec;
ghost use Rattle.ja_grammar.specs.ReadStatement.{below};
ghost use Rattle.ja_parse_expressions.specs.code.Nests.{Nests};
ghost use Rattle.ja_parse_statements.specs.code.Clauses.{clauses_behind, try_behind_catch, try_whole};

use crate::grammar::Grammar;
use ja_base::Place;
use ja_grammar::{Context, ExpressionPart, Refusal, StatementPart, Stop};
use ja_parse_cursor::{Cursor, Held, declared, if_of, switch_context};
use ja_parse_expressions::ListEnd;
use ja_syntax::{Case, CatchOf, Expression, Statement, Symbol};
use sqlite_items::Items;
use std::alloc::Global;

impl<
    G: Fn(
        Global,
        &mut Cursor<'_>,
        usize,
        &Context<'_>,
        StatementPart,
    ) -> Result<Held<Statement>, Stop>,
> Grammar<G> {
    /// Reads the `:` and the statements of a clause.
    #[tactic(auto, unfolding(ja_grammar::specs::ReadStatement::clause))]
    fn clause(
        &self,
        cursor: &mut Cursor<'_>,
        context: &Context<'_>,
    ) -> Result<Items<Statement>, Stop>
        requires { Nests self.now.depth (G.pre self.now.statement) (G.post self.now.statement) }
        ensures { Follows (spec.clause (strict self.now.depth) (below strict self.now.depth)
            (context_of context.now) cursor.old) result cursor.new }
    {
        cursor.expect(Symbol::Colon)?;
        self.list_below(cursor, context, ListEnd::Clause)
    }

    /// Reads a clause with a test.
    #[tactic(auto, unfolding(ja_grammar::specs::ReadStatement::case))]
    fn case(&self, cursor: &mut Cursor<'_>, context: &Context<'_>) -> Result<Case, Stop>
        requires { Nests self.now.depth (G.pre self.now.statement) (G.post self.now.statement) }
        ensures { Follows (spec.case (strict self.now.depth) (below strict self.now.depth)
            (context_of context.now) cursor.old) result cursor.new }
    {
        let place = cursor.place();
        cursor.take();
        let test = self.expression_below(cursor, ExpressionPart::Whole { no_in: false })?;
        let body = self.clause(cursor, context)?;
        Ok(Case {
            test: Some(test.into_inner()),
            body,
            place,
        })
    }

    /// Reads a `default` clause.
    #[tactic(auto, unfolding(ja_grammar::specs::ReadStatement::default))]
    fn default_case(&self, cursor: &mut Cursor<'_>, context: &Context<'_>) -> Result<Case, Stop>
        requires { Nests self.now.depth (G.pre self.now.statement) (G.post self.now.statement) }
        ensures { Follows (spec.default (strict self.now.depth) (below strict self.now.depth)
            (context_of context.now) cursor.old) result cursor.new }
    {
        let place = cursor.place();
        cursor.take();
        let body = self.clause(cursor, context)?;
        Ok(Case {
            test: None,
            body,
            place,
        })
    }

    /// Reads the clauses of a `switch` and its `}`.
    fn clauses(&self, cursor: &mut Cursor<'_>, context: &Context<'_>) -> Result<Items<Case>, Stop>
        requires { Nests self.now.depth (G.pre self.now.statement) (G.post self.now.statement) }
        ensures { Follows (clauses_behind (strict self.now.depth) (below strict self.now.depth)
            (context_of context.now) cursor.old) result cursor.new }
    {
        let mut found = Items::new(self.alloc);
        let mut defaulted = false;
        for _turn in 0..cursor.left() {
            match cursor.symbol() {
                Symbol::CloseBrace => {
                    cursor.take();
                    return Ok(found);
                }
                Symbol::Case => {
                    let item = self.case(cursor, context)?;
                    found.push(item)?;
                    continue;
                }
                Symbol::Default => {
                    if defaulted {
                        return Err(Stop::Refused(Refusal::Unexpected));
                    }
                }
                _ => return Err(Stop::Refused(Refusal::Unexpected)),
            }
            let last = self.default_case(cursor, context)?;
            found.push(last)?;
            defaulted = true;
        }
        cursor.expect(Symbol::CloseBrace)?;
        Ok(found)
    }

    /// Reads the clauses of a `switch` with their braces.
    #[tactic(auto, unfolding(ja_grammar::specs::ReadStatement::cases, crate::specs::code::Clauses::clauses_behind))]
    fn cases(&self, cursor: &mut Cursor<'_>, context: &Context<'_>) -> Result<Items<Case>, Stop>
        requires { Nests self.now.depth (G.pre self.now.statement) (G.post self.now.statement) }
        ensures { Follows (spec.cases (strict self.now.depth) (below strict self.now.depth)
            (context_of context.now) cursor.old) result cursor.new }
    {
        cursor.opening(self.depth, Symbol::OpenBrace)?;
        self.clauses(cursor, context)
    }

    /// Reads a `switch` statement (12.11).
    #[tactic(auto, unfolding(ja_grammar::specs::ReadStatement::switch))]
    pub fn switch_statement(
        &self,
        cursor: &mut Cursor<'_>,
        context: &Context<'_>,
    ) -> Result<Held<Statement>, Stop>
        requires { Nests self.now.depth (G.pre self.now.statement) (G.post self.now.statement) }
        ensures { Follows (spec.switch (strict self.now.depth) (below strict self.now.depth)
            (context_of context.now) cursor.old) result cursor.new }
    {
        let place = cursor.place();
        cursor.take();
        let value = self.bracketed(cursor)?;
        let inner = switch_context(self.alloc, context)?;
        let cases = self.cases(cursor, &inner)?;
        Ok(Held::new(
            self.alloc,
            Statement::Switch {
                value: value.into_inner(),
                cases,
                place,
            },
        )?)
    }

    /// Reads a `catch`.
    #[tactic(auto, unfolding(ja_grammar::specs::ReadStatement::catch))]
    fn catch(
        &self,
        cursor: &mut Cursor<'_>,
        context: &Context<'_>,
    ) -> Result<Held<CatchOf<Statement>>, Stop>
        requires { Nests self.now.depth (G.pre self.now.statement) (G.post self.now.statement) }
        ensures { Follows (spec.catch (strict self.now.depth) (below strict self.now.depth)
            (context_of context.now) cursor.old) result cursor.new }
    {
        cursor.take();
        cursor.opening(self.depth, Symbol::OpenParenthesis)?;
        let parameter = declared(self.alloc, cursor)?;
        cursor.expect(Symbol::CloseParenthesis)?;
        let body = self.block(cursor, context)?;
        Ok(Held::new(self.alloc, CatchOf { parameter, body })?)
    }

    /// Reads a `finally`.
    #[tactic(auto, unfolding(ja_grammar::specs::ReadStatement::finally))]
    fn finally(
        &self,
        cursor: &mut Cursor<'_>,
        context: &Context<'_>,
    ) -> Result<Items<Statement>, Stop>
        requires { Nests self.now.depth (G.pre self.now.statement) (G.post self.now.statement) }
        ensures { Follows (spec.finally (strict self.now.depth) (below strict self.now.depth)
            (context_of context.now) cursor.old) result cursor.new }
    {
        cursor.take();
        self.block(cursor, context)
    }

    /// Reads a `try` statement (12.14).
    pub fn try_statement(
        &self,
        cursor: &mut Cursor<'_>,
        context: &Context<'_>,
    ) -> Result<Held<Statement>, Stop>
        requires { Nests self.now.depth (G.pre self.now.statement) (G.post self.now.statement) }
        ensures { Follows (try_whole (strict self.now.depth) (below strict self.now.depth)
            (context_of context.now) cursor.old) result cursor.new }
    {
        let place = cursor.place();
        cursor.take();
        let block = self.block(cursor, context)?;
        match cursor.symbol() {
            Symbol::Catch => {
                let catch = self.catch(cursor, context)?;
                self.caught(cursor, context, block, catch, place)
            }
            Symbol::Finally => {
                let finally = self.finally(cursor, context)?;
                Ok(Held::new(
                    self.alloc,
                    Statement::Try {
                        block,
                        catch: None,
                        finally: Some(finally),
                        place,
                    },
                )?)
            }
            _ => Err(Stop::Refused(Refusal::Unexpected)),
        }
    }

    /// Reads what stands behind the `catch` of the `try` at `place`.
    fn caught(
        &self,
        cursor: &mut Cursor<'_>,
        context: &Context<'_>,
        block: Items<Statement>,
        catch: Held<CatchOf<Statement>>,
        place: Place,
    ) -> Result<Held<Statement>, Stop>
        requires { Nests self.now.depth (G.pre self.now.statement) (G.post self.now.statement) }
        ensures { Follows (try_behind_catch (strict self.now.depth) (below strict self.now.depth)
            (context_of context.now) place block catch cursor.old) result cursor.new }
    {
        match cursor.symbol() {
            Symbol::Finally => {
                let finally = self.finally(cursor, context)?;
                Ok(Held::new(
                    self.alloc,
                    Statement::Try {
                        block,
                        catch: Some(catch.into_inner()),
                        finally: Some(finally),
                        place,
                    },
                )?)
            }
            _ => Ok(Held::new(
                self.alloc,
                Statement::Try {
                    block,
                    catch: Some(catch.into_inner()),
                    finally: None,
                    place,
                },
            )?),
        }
    }

    /// Reads the `else` of the `if` at `place` (12.5).
    fn if_behind(
        &self,
        cursor: &mut Cursor<'_>,
        context: &Context<'_>,
        place: Place,
        condition: Held<Expression>,
        then: Held<Statement>,
    ) -> Result<Held<Statement>, Stop>
        requires { Nests self.now.depth (G.pre self.now.statement) (G.post self.now.statement) }
        ensures { Follows (spec.else_by (strict self.now.depth) (below strict self.now.depth)
            (context_of context.now) place condition then k.Else cursor.old) result cursor.new }
    {
        cursor.enter(self.depth)?;
        let otherwise = self.statement_below(
            cursor,
            context,
            StatementPart::Whole {
                labels: 0,
                outermost: false,
            },
        )?;
        Ok(if_of(self.alloc, condition, then, Some(otherwise), place)?)
    }

    /// Reads the rest of the `if` at `place` (12.5).
    #[tactic(auto, unfolding(ja_grammar::specs::ReadStatement::if_part))]
    pub fn if_part(
        &self,
        cursor: &mut Cursor<'_>,
        context: &Context<'_>,
        place: Place,
    ) -> Result<Held<Statement>, Stop>
        requires { Nests self.now.depth (G.pre self.now.statement) (G.post self.now.statement) }
        ensures { Follows (spec.if_part (strict self.now.depth) (below strict self.now.depth)
            (context_of context.now) place cursor.old) result cursor.new }
    {
        let condition = self.bracketed(cursor)?;
        let then = self.single(cursor, context, 0, false)?;
        match cursor.symbol() {
            Symbol::Else => self.if_behind(cursor, context, place, condition, then),
            _ => Ok(if_of(self.alloc, condition, then, None, place)?),
        }
    }
}
