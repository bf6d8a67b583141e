//! `return`, `throw` and labels (ES3 12.9, 12.12, 12.13).

ghost use Rattle.std.specs.Prelude.{false};
ghost use Rattle.ja_grammar.specs.code.Contexts.{context_of};
ghost use Rattle.ja_grammar.specs.Input.{strict};
ghost use Rattle.ja_grammar.specs.code.Input.{Follows};
ghost use Rattle.ja_grammar.specs.ReadStatement as spec;
ghost use Rattle.ja_grammar.specs.ReadStatement.{below};
ghost use Rattle.ja_parse_expressions.specs.code.Nests.{Nests};

use crate::grammar::Grammar;
use ja_grammar::{Context, Refusal, StatementPart, Stop};
use ja_parse_cursor::{
    Cursor, Held, ended, ends_return, label, labelled_context, labelled_of, taken,
};
use ja_syntax::{Expression, Statement};
use std::alloc::Global;

impl<
    G: Fn(
        Global,
        &mut Cursor<'_>,
        usize,
        &Context<'_>,
        StatementPart,
    ) -> Result<Held<Statement>, Stop>,
> Grammar<G> {
    /// Reads the value of a `return`.
    #[tactic(auto, unfolding(ja_grammar::specs::ReadStatement::returned))]
    fn returned(&self, cursor: &mut Cursor<'_>) -> Result<Option<Held<Expression>>, Stop>
        requires { Nests self.now.depth (G.pre self.now.statement) (G.post self.now.statement) }
        ensures { Follows (spec.returned (strict self.now.depth) (below strict self.now.depth)
            cursor.old) result cursor.new }
    {
        if ends_return(cursor) {
            return Ok(None);
        }
        Ok(Some(self.whole(cursor)?))
    }

    /// Reads a `return` statement (12.9).
    pub fn return_statement(
        &self,
        cursor: &mut Cursor<'_>,
        context: &Context<'_>,
    ) -> Result<Held<Statement>, Stop>
        requires { Nests self.now.depth (G.pre self.now.statement) (G.post self.now.statement) }
        ensures { Follows (spec.return_by (strict self.now.depth) (below strict self.now.depth)
            context.now.in_function cursor.old) result cursor.new }
    {
        if !context.in_function {
            return Err(Stop::Refused(Refusal::Unexpected));
        }
        let place = cursor.place();
        cursor.take();
        let value = self.returned(cursor)?;
        ended(cursor)?;
        Ok(Held::new(
            self.alloc,
            Statement::Return {
                value: taken(value),
                place,
            },
        )?)
    }

    /// Reads the value of a `throw`.
    #[tactic(auto, unfolding(ja_grammar::specs::ReadStatement::thrown))]
    fn thrown(&self, cursor: &mut Cursor<'_>) -> Result<Held<Expression>, Stop>
        requires { Nests self.now.depth (G.pre self.now.statement) (G.post self.now.statement) }
        ensures { Follows (spec.thrown (strict self.now.depth) (below strict self.now.depth)
            cursor.old) result cursor.new }
    {
        if cursor.line_before() {
            return Err(Stop::Refused(Refusal::Unexpected));
        }
        self.whole(cursor)
    }

    /// Reads a `throw` statement (12.13).
    #[tactic(auto, unfolding(ja_grammar::specs::ReadStatement::throw))]
    pub fn throw_statement(&self, cursor: &mut Cursor<'_>) -> Result<Held<Statement>, Stop>
        requires { Nests self.now.depth (G.pre self.now.statement) (G.post self.now.statement) }
        ensures { Follows (spec.throw (strict self.now.depth) (below strict self.now.depth)
            cursor.old) result cursor.new }
    {
        let place = cursor.place();
        cursor.take();
        let value = self.thrown(cursor)?;
        ended(cursor)?;
        Ok(Held::new(
            self.alloc,
            Statement::Throw {
                value: value.into_inner(),
                place,
            },
        )?)
    }

    /// Reads a labelled statement, which `labels` labels stand directly before (12.12).
    #[tactic(auto, unfolding(ja_grammar::specs::ReadStatement::labelled))]
    pub fn labelled(
        &self,
        cursor: &mut Cursor<'_>,
        context: &Context<'_>,
        labels: usize,
    ) -> Result<Held<Statement>, Stop>
        requires { Nests self.now.depth (G.pre self.now.statement) (G.post self.now.statement) }
        ensures { Follows (spec.labelled (strict self.now.depth) (below strict self.now.depth)
            (context_of context.now) labels cursor.old) result cursor.new }
    {
        let name = cursor.name(self.alloc)?;
        let word = cursor.word();
        label(cursor, self.depth, context)?;
        let inner = labelled_context(self.alloc, context, word)?;
        // More labels than memory holds.
        let Some(labels) = labels.checked_add(1) else {
            return Err(Stop::Memory);
        };
        let part = StatementPart::Whole {
            labels,
            outermost: false,
        };
        let body = self.statement_below(cursor, &inner, part)?;
        Ok(labelled_of(self.alloc, name, body)?)
    }
}
