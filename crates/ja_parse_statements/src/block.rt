//! Blocks, declared variables and expression statements (ES3 12.1, 12.2, 12.4).

ghost use Rattle.std.specs.Prelude.{true, false};
ghost use Rattle.ja_grammar.specs.code.Contexts.{context_of};
ghost use Rattle.ja_grammar.specs.Input.{separated, strict};
ghost use Rattle.ja_grammar.specs.code.Input.{Follows};
ghost use Rattle.ja_grammar.specs.ReadStatement as spec;
ghost use Rattle.ja_grammar.specs.ReadStatement.{below};
ghost use Rattle.ja_parse_statements.specs.code.Clauses.{variable_value};
ghost use Rattle.ja_parse_expressions.specs.code.Nests.{Nests};

use crate::grammar::Grammar;
use ja_grammar::{Context, ExpressionPart, StatementPart, Stop};
use ja_parse_cursor::{Cursor, Held, declared, ended};
use ja_parse_expressions::ListEnd;
use ja_syntax::{Declaration, Expression, Initialiser, Statement, Symbol};
use sqlite_items::Items;
use std::alloc::Global;

impl<
    G: Fn(
        Global,
        &mut Cursor<'_>,
        usize,
        &Context<'_>,
        StatementPart,
    ) -> Result<Held<Statement>, Stop>,
> Grammar<G> {
    /// Reads a block with its braces (12.1).
    #[tactic(auto, unfolding(ja_grammar::specs::ReadStatement::block))]
    pub fn block(
        &self,
        cursor: &mut Cursor<'_>,
        context: &Context<'_>,
    ) -> Result<Items<Statement>, Stop>
        requires { Nests self.now.depth (G.pre self.now.statement) (G.post self.now.statement) }
        ensures { Follows (spec.block (strict self.now.depth) (below strict self.now.depth)
            (context_of context.now) cursor.old) result cursor.new }
    {
        cursor.opening(self.depth, Symbol::OpenBrace)?;
        let found = self.list_below(cursor, context, ListEnd::Brace)?;
        cursor.expect(Symbol::CloseBrace)?;
        Ok(found)
    }

    /// Reads an expression in parentheses, behind the word of a statement.
    #[tactic(auto, unfolding(ja_grammar::specs::ReadStatement::bracketed))]
    pub fn bracketed(&self, cursor: &mut Cursor<'_>) -> Result<Held<Expression>, Stop>
        requires { Nests self.now.depth (G.pre self.now.statement) (G.post self.now.statement) }
        ensures { Follows (spec.bracketed (strict self.now.depth) (below strict self.now.depth)
            cursor.old) result cursor.new }
    {
        cursor.opening(self.depth, Symbol::OpenParenthesis)?;
        let x = self.expression_below(cursor, ExpressionPart::Whole { no_in: false })?;
        cursor.expect(Symbol::CloseParenthesis)?;
        Ok(x)
    }

    /// Reads the value of a variable that is declared, in the head of a `for` or elsewhere.
    fn variable_value(
        &self,
        cursor: &mut Cursor<'_>,
        in_head: bool,
    ) -> Result<Held<Expression>, Stop>
        requires { Nests self.now.depth (G.pre self.now.statement) (G.post self.now.statement) }
        ensures { Follows (variable_value (strict self.now.depth) (below strict self.now.depth)
            in_head cursor.old) result cursor.new }
    {
        if in_head {
            self.expression_below(cursor, ExpressionPart::Assignment { no_in: true })
        } else {
            self.assignment(cursor)
        }
    }

    /// Reads a declared variable and its value (12.2, 12.6).
    #[tactic(auto, unfolding(ja_grammar::specs::ReadStatement::variable))]
    fn variable(
        &self,
        cursor: &mut Cursor<'_>,
        in_head: bool,
    ) -> Result<Declaration<Expression>, Stop>
        requires { Nests self.now.depth (G.pre self.now.statement) (G.post self.now.statement) }
        ensures { Follows (spec.variable (strict self.now.depth)
            (variable_value (strict self.now.depth) (below strict self.now.depth) in_head)
            cursor.old) result cursor.new }
    {
        let name = declared(self.alloc, cursor)?;
        match cursor.symbol() {
            Symbol::Assign => {
                let place = cursor.place();
                cursor.take();
                let value = self.variable_value(cursor, in_head)?;
                Ok(Declaration {
                    name,
                    initialiser: Some(Initialiser {
                        value: value.into_inner(),
                        place,
                    }),
                })
            }
            _ => Ok(Declaration {
                name,
                initialiser: None,
            }),
        }
    }

    /// Reads declared variables with commas between, in the head of a `for` or elsewhere.
    pub fn declarations(
        &self,
        cursor: &mut Cursor<'_>,
        in_head: bool,
    ) -> Result<Items<Declaration<Expression>>, Stop>
        requires { Nests self.now.depth (G.pre self.now.statement) (G.post self.now.statement) }
        ensures { Follows (separated (spec.variable (strict self.now.depth)
            (variable_value (strict self.now.depth) (below strict self.now.depth) in_head))
            cursor.old) result cursor.new }
    {
        let mut found = Items::new(self.alloc);
        let first = self.variable(cursor, in_head)?;
        found.push(first)?;
        for _turn in 0..cursor.left() {
            if !cursor.sees(Symbol::Comma) {
                return Ok(found);
            }
            cursor.take();
            let item = self.variable(cursor, in_head)?;
            found.push(item)?;
        }
        Ok(found)
    }

    /// Reads a `var` statement (12.2).
    #[tactic(auto, unfolding(ja_grammar::specs::ReadStatement::variables))]
    pub fn variables(&self, cursor: &mut Cursor<'_>) -> Result<Held<Statement>, Stop>
        requires { Nests self.now.depth (G.pre self.now.statement) (G.post self.now.statement) }
        ensures { Follows (spec.variables (strict self.now.depth) (below strict self.now.depth)
            cursor.old) result cursor.new }
    {
        let place = cursor.place();
        cursor.take();
        let declarations = self.declarations(cursor, false)?;
        ended(cursor)?;
        Ok(Held::new(
            self.alloc,
            Statement::Variables {
                declarations,
                place,
            },
        )?)
    }

    /// Reads an expression statement (12.4).
    #[tactic(auto, unfolding(ja_grammar::specs::ReadStatement::expression_statement))]
    pub fn expression_statement(&self, cursor: &mut Cursor<'_>) -> Result<Held<Statement>, Stop>
        requires { Nests self.now.depth (G.pre self.now.statement) (G.post self.now.statement) }
        ensures { Follows (spec.expression_statement (strict self.now.depth)
            (below strict self.now.depth) cursor.old) result cursor.new }
    {
        let place = cursor.place();
        let value = self.whole(cursor)?;
        ended(cursor)?;
        Ok(Held::new(
            self.alloc,
            Statement::Expression {
                value: value.into_inner(),
                place,
            },
        )?)
    }
}
