//! Statements (ES3 12, 13) and the program (14).

ghost use Rattle.std.specs.Prelude.{true, false};
ghost use Rattle.ja_syntax.specs.declared.symbol.Symbol.TheVariants as k;
ghost use Rattle.ja_grammar.specs.code.Contexts.{context_of};
ghost use Rattle.ja_grammar.specs.Input.{head, until, strict};
ghost use Rattle.ja_grammar.specs.code.Input.{Follows};
ghost use Rattle.ja_grammar.specs.ReadStatement as spec;
ghost use Rattle.ja_grammar.specs.ReadStatement.{below};
ghost use Rattle.ja_parse_expressions.specs.code.Nests.{Nests};

use crate::grammar::Grammar;
use ja_grammar::{Context, Refusal, StatementPart, Stop};
use ja_parse_cursor::{
    Cursor, Held, break_statement, continue_statement, empty_statement, is_label,
};
use ja_parse_expressions::function;
use ja_syntax::{Statement, Symbol};
use sqlite_items::Items;
use std::alloc::Global;

impl<
    G: Fn(
        Global,
        &mut Cursor<'_>,
        usize,
        &Context<'_>,
        StatementPart,
    ) -> Result<Held<Statement>, Stop>,
> Grammar<G> {
    /// Reads a word that counts, and what stands behind it.
    fn headed(
        &self,
        cursor: &mut Cursor<'_>,
        context: &Context<'_>,
        part: StatementPart,
    ) -> Result<Held<Statement>, Stop>
        requires { Nests self.now.depth (G.pre self.now.statement) (G.post self.now.statement) }
        ensures { Follows (spec.headed (strict self.now.depth) (below strict self.now.depth)
            (context_of context.now) part cursor.old) result cursor.new }
    {
        cursor.enter(self.depth)?;
        self.statement_below(cursor, context, part)
    }

    /// Reads a function declaration (13).
    fn function_statement(
        &self,
        cursor: &mut Cursor<'_>,
        outermost: bool,
    ) -> Result<Held<Statement>, Stop>
        requires { Nests self.now.depth (G.pre self.now.statement) (G.post self.now.statement) }
        ensures { Follows (spec.function_statement (strict self.now.depth)
            (below strict self.now.depth) outermost cursor.old) result cursor.new }
    {
        if !outermost {
            return Err(Stop::Refused(Refusal::Unexpected));
        }
        let found = function(self.alloc, cursor, self.depth, &self.statement, true)?;
        Ok(Held::new(self.alloc, Statement::Function(found))?)
    }

    /// Reads a block statement (12.1).
    fn block_statement(
        &self,
        cursor: &mut Cursor<'_>,
        context: &Context<'_>,
    ) -> Result<Held<Statement>, Stop>
        requires { Nests self.now.depth (G.pre self.now.statement) (G.post self.now.statement) }
        ensures { Follows (spec.single_by (strict self.now.depth) (below strict self.now.depth)
            (context_of context.now) 0 false (head cursor.old) k.OpenBrace cursor.old) result
            cursor.new }
    {
        let place = cursor.place();
        let body = self.block(cursor, context)?;
        Ok(Held::new(self.alloc, Statement::Block { body, place })?)
    }

    /// Reads a statement, which `labels` labels stand directly before; `outermost`: it stands
    /// directly in the program or in the body of a function.
    #[tactic(auto, unfolding(ja_grammar::specs::ReadStatement::single))]
    pub fn single(
        &self,
        cursor: &mut Cursor<'_>,
        context: &Context<'_>,
        labels: usize,
        outermost: bool,
    ) -> Result<Held<Statement>, Stop>
        requires { Nests self.now.depth (G.pre self.now.statement) (G.post self.now.statement) }
        ensures { Follows (spec.single (strict self.now.depth) (below strict self.now.depth)
            (context_of context.now) labels outermost cursor.old) result cursor.new }
    {
        let place = cursor.place();
        match cursor.symbol() {
            Symbol::OpenBrace => self.block_statement(cursor, context),
            Symbol::Var => self.variables(cursor),
            Symbol::Semicolon => empty_statement(self.alloc, cursor),
            Symbol::If => self.headed(cursor, context, StatementPart::If { place }),
            Symbol::Do => self.headed(cursor, context, StatementPart::Do { place, labels }),
            Symbol::While => self.headed(cursor, context, StatementPart::While { place, labels }),
            Symbol::For => self.headed(cursor, context, StatementPart::For { place, labels }),
            Symbol::Continue => continue_statement(self.alloc, cursor, context),
            Symbol::Break => break_statement(self.alloc, cursor, context),
            Symbol::Return => self.return_statement(cursor, context),
            Symbol::Switch => self.switch_statement(cursor, context),
            Symbol::Throw => self.throw_statement(cursor),
            Symbol::Try => self.try_statement(cursor, context),
            Symbol::Function => self.function_statement(cursor, outermost),
            Symbol::Name => {
                if is_label(cursor) {
                    self.labelled(cursor, context, labels)
                } else {
                    self.expression_statement(cursor)
                }
            }
            _ => self.expression_statement(cursor),
        }
    }

    /// Reads a part of a statement.
    #[tactic(auto, unfolding(ja_grammar::specs::ReadStatement::statement_part))]
    pub fn statement_part(
        &self,
        cursor: &mut Cursor<'_>,
        context: &Context<'_>,
        part: StatementPart,
    ) -> Result<Held<Statement>, Stop>
        requires { Nests self.now.depth (G.pre self.now.statement) (G.post self.now.statement) }
        ensures { Follows (spec.statement_part (strict self.now.depth) (below strict self.now.depth)
            (context_of context.now) part cursor.old) result cursor.new }
    {
        match part {
            StatementPart::Whole { labels, outermost } => self.single(
                cursor, context, labels, outermost,
            ),
            StatementPart::If { place } => self.if_part(cursor, context, place),
            StatementPart::Do { place, labels } => self.do_part(cursor, context, place, labels),
            StatementPart::While { place, labels } => self.while_part(
                cursor, context, place, labels,
            ),
            StatementPart::For { place, labels } => self.for_part(cursor, context, place, labels),
        }
    }

    /// Reads the statements of a program.
    pub fn program_statements(
        &self,
        cursor: &mut Cursor<'_>,
        context: &Context<'_>,
    ) -> Result<Items<Statement>, Stop>
        requires { Nests self.now.depth (G.pre self.now.statement) (G.post self.now.statement) }
        ensures { Follows (until spec.is_end (spec.single (strict self.now.depth)
            (below strict self.now.depth) (context_of context.now) 0 true) cursor.old) result
            cursor.new }
    {
        let mut found = Items::new(self.alloc);
        for _turn in 0..cursor.left() {
            if cursor.sees(Symbol::End) {
                return Ok(found);
            }
            let item = self.single(cursor, context, 0, true)?;
            found.push(item.into_inner())?;
        }
        Ok(found)
    }
}
