//! Lists within expressions: the loops of the parser.

ghost use Rattle.std.specs.Prelude.{false};
ghost use Rattle.ja_syntax.specs.declared.symbol.Symbol.TheVariants as k;
ghost use Rattle.ja_grammar.specs.declared.part.ExpressionPart.TheVariants as of_expression;
ghost use Rattle.ja_grammar.specs.Input.{listed, separated, until, strict};
ghost use Rattle.ja_grammar.specs.code.Input.{Follows};
ghost use Rattle.ja_grammar.specs.ReadExpression as spec;
ghost use Rattle.ja_grammar.specs.ReadStatement.{below};
ghost use Rattle.ja_parse_expressions.specs.code.Nests.{Reads};

use crate::grammar::{Grammar, Piece};
use ja_grammar::{ExpressionPart, Stop};
use ja_parse_cursor::{Cursor, Held, is_close_bracket};
use ja_syntax::{Expression, Property, Symbol};
use sqlite_items::Items;
use std::alloc::Global;

impl<F: Fn(Global, &mut Cursor<'_>, usize, Piece, &G) -> Result<Held<Expression>, Stop>, G> Grammar<
    '_,
    F,
    G,
> {
    /// Reads the elements of an array literal.
    pub fn elements(&self, cursor: &mut Cursor<'_>) -> Result<Items<Option<Expression>>, Stop>
        requires { Reads self.now.depth self.now.statement (F.pre self.now.read)
            (F.post self.now.read) }
        ensures { Follows (until spec.is_close_bracket
            (spec.element (strict self.now.depth) (below strict self.now.depth)) cursor.old) result
            cursor.new }
    {
        let mut found = Items::new(self.alloc);
        for _turn in 0..cursor.left() {
            if is_close_bracket(cursor.symbol()) {
                return Ok(found);
            }
            let item = self.element(cursor)?;
            found.push(item)?;
        }
        Ok(found)
    }

    /// Reads properties with commas between.
    fn properties_between(
        &self,
        cursor: &mut Cursor<'_>,
    ) -> Result<Items<Property<Expression>>, Stop>
        requires { Reads self.now.depth self.now.statement (F.pre self.now.read)
            (F.post self.now.read) }
        ensures { Follows (separated (spec.property (strict self.now.depth)
            (below strict self.now.depth)) cursor.old) result cursor.new }
    {
        let mut found = Items::new(self.alloc);
        let first = self.property(cursor)?;
        found.push(first)?;
        for _turn in 0..cursor.left() {
            if !cursor.sees(Symbol::Comma) {
                return Ok(found);
            }
            cursor.take();
            let item = self.property(cursor)?;
            found.push(item)?;
        }
        Ok(found)
    }

    /// Reads the properties of an object literal and its `}`.
    #[tactic(auto, unfolding(ja_grammar::specs::Input::listed))]
    pub fn properties(&self, cursor: &mut Cursor<'_>) -> Result<Items<Property<Expression>>, Stop>
        requires { Reads self.now.depth self.now.statement (F.pre self.now.read)
            (F.post self.now.read) }
        ensures { Follows (listed k.CloseBrace
            (spec.property (strict self.now.depth) (below strict self.now.depth)) cursor.old) result
            cursor.new }
    {
        if cursor.sees(Symbol::CloseBrace) {
            cursor.take();
            return Ok(Items::new(self.alloc));
        }
        let found = self.properties_between(cursor)?;
        cursor.expect(Symbol::CloseBrace)?;
        Ok(found)
    }

    /// Reads arguments with commas between.
    fn arguments_between(&self, cursor: &mut Cursor<'_>) -> Result<Items<Expression>, Stop>
        requires { Reads self.now.depth self.now.statement (F.pre self.now.read)
            (F.post self.now.read) }
        ensures { Follows (separated ((below strict self.now.depth).expression
            (of_expression.Assignment false)) cursor.old) result cursor.new }
    {
        let mut found = Items::new(self.alloc);
        let first = self.expression_below(cursor, ExpressionPart::Assignment { no_in: false })?;
        found.push(first.into_inner())?;
        for _turn in 0..cursor.left() {
            if !cursor.sees(Symbol::Comma) {
                return Ok(found);
            }
            cursor.take();
            let item = self.expression_below(cursor, ExpressionPart::Assignment { no_in: false })?;
            found.push(item.into_inner())?;
        }
        Ok(found)
    }

    /// Reads arguments and their `)`.
    #[tactic(auto, unfolding(ja_grammar::specs::Input::listed))]
    pub fn arguments_list(&self, cursor: &mut Cursor<'_>) -> Result<Items<Expression>, Stop>
        requires { Reads self.now.depth self.now.statement (F.pre self.now.read)
            (F.post self.now.read) }
        ensures { Follows (listed k.CloseParenthesis
            ((below strict self.now.depth).expression (of_expression.Assignment false)) cursor.old)
            result cursor.new }
    {
        if cursor.sees(Symbol::CloseParenthesis) {
            cursor.take();
            return Ok(Items::new(self.alloc));
        }
        let found = self.arguments_between(cursor)?;
        cursor.expect(Symbol::CloseParenthesis)?;
        Ok(found)
    }
}
