//! Primary expressions (ES3 11.1).

ghost use Rattle.ja_grammar.specs.Input.{strict};
ghost use Rattle.ja_grammar.specs.code.Input.{Follows};
ghost use Rattle.ja_grammar.specs.ReadExpression as spec;
ghost use Rattle.ja_grammar.specs.ReadStatement.{below};
ghost use Rattle.ja_parse_expressions.specs.code.Nests.{Reads};

use crate::grammar::{Grammar, Piece};
use ja_grammar::{ExpressionPart, Refusal, Stop};
use ja_parse_cursor::{
    Cursor, Held, element_close, literal_expression, name_expression, property_name,
    this_expression,
};
use ja_syntax::{Expression, Property, Symbol};
use std::alloc::Global;

impl<F: Fn(Global, &mut Cursor<'_>, usize, Piece, &G) -> Result<Held<Expression>, Stop>, G> Grammar<
    '_,
    F,
    G,
> {
    /// Reads an element of an array literal, or a hole (11.1.4).
    #[tactic(auto, unfolding(ja_grammar::specs::ReadExpression::element))]
    pub fn element(&self, cursor: &mut Cursor<'_>) -> Result<Option<Expression>, Stop>
        requires { Reads self.now.depth self.now.statement (F.pre self.now.read)
            (F.post self.now.read) }
        ensures { Follows (spec.element (strict self.now.depth) (below strict self.now.depth)
            cursor.old) result cursor.new }
    {
        match cursor.symbol() {
            Symbol::Comma => {
                cursor.take();
                Ok(None)
            }
            _ => {
                let x = self.expression_below(cursor, ExpressionPart::Assignment { no_in: false })?;
                element_close(cursor, x)
            }
        }
    }

    /// Reads a property of an object literal (11.1.5).
    #[tactic(auto, unfolding(ja_grammar::specs::ReadExpression::property))]
    pub fn property(&self, cursor: &mut Cursor<'_>) -> Result<Property<Expression>, Stop>
        requires { Reads self.now.depth self.now.statement (F.pre self.now.read)
            (F.post self.now.read) }
        ensures { Follows (spec.property (strict self.now.depth) (below strict self.now.depth)
            cursor.old) result cursor.new }
    {
        let place = cursor.place();
        let Some(name) = property_name(self.alloc, cursor)? else {
            return Err(Stop::Refused(Refusal::Unexpected));
        };
        cursor.take();
        cursor.expect(Symbol::Colon)?;
        let value = self.expression_below(cursor, ExpressionPart::Assignment { no_in: false })?;
        Ok(Property {
            name,
            value: value.into_inner(),
            place,
        })
    }

    /// Reads an array literal (11.1.4).
    #[tactic(auto, unfolding(ja_grammar::specs::ReadExpression::array))]
    fn array(&self, cursor: &mut Cursor<'_>) -> Result<Held<Expression>, Stop>
        requires { Reads self.now.depth self.now.statement (F.pre self.now.read)
            (F.post self.now.read) }
        ensures { Follows (spec.array (strict self.now.depth) (below strict self.now.depth)
            cursor.old) result cursor.new }
    {
        let place = cursor.place();
        cursor.enter(self.depth)?;
        let elements = self.elements(cursor)?;
        cursor.expect(Symbol::CloseBracket)?;
        Ok(Held::new(self.alloc, Expression::Array { elements, place })?)
    }

    /// Reads an object literal (11.1.5).
    #[tactic(auto, unfolding(ja_grammar::specs::ReadExpression::object))]
    fn object(&self, cursor: &mut Cursor<'_>) -> Result<Held<Expression>, Stop>
        requires { Reads self.now.depth self.now.statement (F.pre self.now.read)
            (F.post self.now.read) }
        ensures { Follows (spec.object (strict self.now.depth) (below strict self.now.depth)
            cursor.old) result cursor.new }
    {
        let place = cursor.place();
        cursor.enter(self.depth)?;
        let properties = self.properties(cursor)?;
        Ok(Held::new(self.alloc, Expression::Object { properties, place })?)
    }

    /// Reads an expression in parentheses (11.1.6).
    #[tactic(auto, unfolding(ja_grammar::specs::ReadExpression::parenthesized))]
    fn parenthesized(&self, cursor: &mut Cursor<'_>) -> Result<Held<Expression>, Stop>
        requires { Reads self.now.depth self.now.statement (F.pre self.now.read)
            (F.post self.now.read) }
        ensures { Follows (spec.parenthesized (strict self.now.depth) (below strict self.now.depth)
            cursor.old) result cursor.new }
    {
        cursor.enter(self.depth)?;
        let x = self.expression_below(cursor, ExpressionPart::Whole { no_in: false })?;
        cursor.expect(Symbol::CloseParenthesis)?;
        Ok(x)
    }

    /// Reads a primary expression (11.1).
    #[tactic(auto, unfolding(ja_grammar::specs::ReadExpression::primary))]
    pub fn primary(&self, cursor: &mut Cursor<'_>) -> Result<Held<Expression>, Stop>
        requires { Reads self.now.depth self.now.statement (F.pre self.now.read)
            (F.post self.now.read) }
        ensures { Follows (spec.primary (strict self.now.depth) (below strict self.now.depth)
            cursor.old) result cursor.new }
    {
        match cursor.symbol() {
            Symbol::This => this_expression(self.alloc, cursor),
            Symbol::Name => name_expression(self.alloc, cursor),
            Symbol::OpenBracket => self.array(cursor),
            Symbol::OpenBrace => self.object(cursor),
            Symbol::OpenParenthesis => self.parenthesized(cursor),
            Symbol::Function => (self.read)(
                self.alloc,
                cursor,
                self.depth,
                Piece::Function,
                self.statement,
            ),
            Symbol::Divide => Err(Stop::Refused(Refusal::RegExp)),
            Symbol::DivideAssign => Err(Stop::Refused(Refusal::RegExp)),
            _ => literal_expression(self.alloc, cursor),
        }
    }
}
