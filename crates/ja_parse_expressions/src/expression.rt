//! Members, calls and operators (ES3 11.2 to 11.14).

ghost use Rattle.std.specs.Prelude.{◌<◌, ◌≤◌, suc, not, is_none, Some, None};
ghost use Rattle.ja_syntax.specs.References as references;
ghost use Rattle.ja_syntax.specs.declared.symbol.Symbol.TheVariants as k;
ghost use Rattle.ja_grammar.specs.Forms as forms;
ghost use Rattle.ja_grammar.specs.Input.{head, separated, until, strict};
ghost use Rattle.ja_grammar.specs.code.Input.{Follows};
ghost use Rattle.ja_grammar.specs.Operators as operators;
ghost use Rattle.ja_grammar.specs.ReadExpression as spec;
ghost use Rattle.ja_grammar.specs.ReadStatement.{below};
ghost use Rattle.ja_parse_expressions.specs.code.Nests.{Reads};

use crate::grammar::{Grammar, Piece};
use ja_base::Place;
use ja_grammar::{ExpressionPart, Refusal, Stop};
use ja_parse_cursor::{
    Cursor, Held, LEVELS, assign, assignment_operator, begins_property, begins_suffix,
    binary_operator, chained, conditional, created, dotted, is_prefix, operand_close, operated,
    postfix_of, prefix_update, sequence, unary, unary_operator, update,
};
use ja_syntax::{
    BinaryOperator, Expression, Operation, Suffix, Symbol, UnaryOperator, UpdateOperator,
    is_reference,
};
use sqlite_items::Items;
use std::alloc::Global;

impl<F: Fn(Global, &mut Cursor<'_>, usize, Piece, &G) -> Result<Held<Expression>, Stop>, G> Grammar<
    '_,
    F,
    G,
> {
    /// Reads a primary expression, or `new` and what stands behind it (11.2).
    #[tactic(auto, unfolding(ja_grammar::specs::ReadExpression::chain_head))]
    fn chain_head(&self, cursor: &mut Cursor<'_>) -> Result<Held<Expression>, Stop>
        requires { Reads self.now.depth self.now.statement (F.pre self.now.read)
            (F.post self.now.read) }
        ensures { Follows (spec.chain_head (strict self.now.depth) (below strict self.now.depth)
            cursor.old) result cursor.new }
    {
        match cursor.symbol() {
            Symbol::New => {
                let place = cursor.place();
                cursor.enter(self.depth)?;
                self.expression_below(cursor, ExpressionPart::Created { place })
            }
            _ => self.primary(cursor),
        }
    }

    /// Reads `[KEY]` (11.2.1).
    #[tactic(auto, unfolding(ja_grammar::specs::ReadExpression::indexed))]
    fn indexed(&self, cursor: &mut Cursor<'_>) -> Result<Suffix<Expression>, Stop>
        requires { Reads self.now.depth self.now.statement (F.pre self.now.read)
            (F.post self.now.read) }
        ensures { Follows (spec.indexed (strict self.now.depth) (below strict self.now.depth)
            cursor.old) result cursor.new }
    {
        let place = cursor.place();
        cursor.enter(self.depth)?;
        let key = self.expression_below(cursor, ExpressionPart::Whole { no_in: false })?;
        cursor.expect(Symbol::CloseBracket)?;
        Ok(Suffix::Index {
            key: key.into_inner(),
            place,
        })
    }

    /// Reads a suffix of a member.
    #[tactic(auto, unfolding(ja_grammar::specs::ReadExpression::property_suffix))]
    fn property_suffix(&self, cursor: &mut Cursor<'_>) -> Result<Suffix<Expression>, Stop>
        requires { Reads self.now.depth self.now.statement (F.pre self.now.read)
            (F.post self.now.read) }
        ensures { Follows (spec.property_suffix (strict self.now.depth)
            (below strict self.now.depth) cursor.old) result cursor.new }
    {
        match cursor.symbol() {
            Symbol::Dot => dotted(self.alloc, cursor),
            Symbol::OpenBracket => self.indexed(cursor),
            _ => Err(Stop::Refused(Refusal::Unexpected)),
        }
    }

    /// Reads the arguments of a call with their parentheses (11.2.4).
    #[tactic(auto, unfolding(ja_grammar::specs::ReadExpression::arguments))]
    fn arguments(&self, cursor: &mut Cursor<'_>) -> Result<Items<Expression>, Stop>
        requires { Reads self.now.depth self.now.statement (F.pre self.now.read)
            (F.post self.now.read) }
        ensures { Follows (spec.arguments (strict self.now.depth) (below strict self.now.depth)
            cursor.old) result cursor.new }
    {
        cursor.enter(self.depth)?;
        self.arguments_list(cursor)
    }

    /// Reads a suffix of a member or call.
    #[tactic(auto, unfolding(ja_grammar::specs::ReadExpression::any_suffix))]
    fn any_suffix(&self, cursor: &mut Cursor<'_>) -> Result<Suffix<Expression>, Stop>
        requires { Reads self.now.depth self.now.statement (F.pre self.now.read)
            (F.post self.now.read) }
        ensures { Follows (spec.any_suffix (strict self.now.depth) (below strict self.now.depth)
            cursor.old) result cursor.new }
    {
        match cursor.symbol() {
            Symbol::OpenParenthesis => {
                let place = cursor.place();
                let arguments = self.arguments(cursor)?;
                Ok(Suffix::Call { arguments, place })
            }
            _ => self.property_suffix(cursor),
        }
    }

    /// Reads the suffixes of a member.
    fn property_suffixes(&self, cursor: &mut Cursor<'_>) -> Result<Items<Suffix<Expression>>, Stop>
        requires { Reads self.now.depth self.now.statement (F.pre self.now.read)
            (F.post self.now.read) }
        ensures { Follows (until (λ found. not (forms.begins_property found))
            (spec.property_suffix (strict self.now.depth) (below strict self.now.depth)) cursor.old)
            result cursor.new }
    {
        let mut found = Items::new(self.alloc);
        for _turn in 0..cursor.left() {
            if !begins_property(cursor.symbol()) {
                return Ok(found);
            }
            let item = self.property_suffix(cursor)?;
            found.push(item)?;
        }
        Ok(found)
    }

    /// Reads the suffixes of a member or call.
    fn suffixes(&self, cursor: &mut Cursor<'_>) -> Result<Items<Suffix<Expression>>, Stop>
        requires { Reads self.now.depth self.now.statement (F.pre self.now.read)
            (F.post self.now.read) }
        ensures { Follows (until (λ found. not (forms.begins_suffix found))
            (spec.any_suffix (strict self.now.depth) (below strict self.now.depth)) cursor.old)
            result cursor.new }
    {
        let mut found = Items::new(self.alloc);
        for _turn in 0..cursor.left() {
            if !begins_suffix(cursor.symbol()) {
                return Ok(found);
            }
            let item = self.any_suffix(cursor)?;
            found.push(item)?;
        }
        Ok(found)
    }

    /// Reads a member expression (11.2).
    #[tactic(auto, unfolding(ja_grammar::specs::ReadExpression::member))]
    fn member(&self, cursor: &mut Cursor<'_>) -> Result<Held<Expression>, Stop>
        requires { Reads self.now.depth self.now.statement (F.pre self.now.read)
            (F.post self.now.read) }
        ensures { Follows (spec.member (strict self.now.depth) (below strict self.now.depth)
            cursor.old) result cursor.new }
    {
        let head = self.chain_head(cursor)?;
        let suffixes = self.property_suffixes(cursor)?;
        Ok(chained(self.alloc, head, suffixes)?)
    }

    /// Reads what stands behind the `new` at `place` (11.2.2).
    #[tactic(auto, unfolding(ja_grammar::specs::ReadExpression::created))]
    fn created(&self, cursor: &mut Cursor<'_>, place: Place) -> Result<Held<Expression>, Stop>
        requires { Reads self.now.depth self.now.statement (F.pre self.now.read)
            (F.post self.now.read) }
        ensures { Follows (spec.created (strict self.now.depth) (below strict self.now.depth) place
            cursor.old) result cursor.new }
    {
        let callee = self.member(cursor)?;
        match cursor.symbol() {
            Symbol::OpenParenthesis => {
                let arguments = self.arguments(cursor)?;
                Ok(created(self.alloc, callee, arguments, place)?)
            }
            _ => Ok(created(self.alloc, callee, Items::new(self.alloc), place)?),
        }
    }

    /// Reads a member or call expression (11.2).
    #[tactic(auto, unfolding(ja_grammar::specs::ReadExpression::left_hand))]
    fn left_hand(&self, cursor: &mut Cursor<'_>) -> Result<Held<Expression>, Stop>
        requires { Reads self.now.depth self.now.statement (F.pre self.now.read)
            (F.post self.now.read) }
        ensures { Follows (spec.left_hand (strict self.now.depth) (below strict self.now.depth)
            cursor.old) result cursor.new }
    {
        let head = self.chain_head(cursor)?;
        let suffixes = self.suffixes(cursor)?;
        Ok(chained(self.alloc, head, suffixes)?)
    }

    /// Takes the `++` or `--` behind an operand (11.3).
    fn updated_behind(
        &self,
        cursor: &mut Cursor<'_>,
        x: Held<Expression>,
        operator: UpdateOperator,
    ) -> Result<Held<Expression>, Stop>
        requires { Reads self.now.depth self.now.statement (F.pre self.now.read)
            (F.post self.now.read) }
        ensures { Follows (spec.updated_behind (strict self.now.depth) (below strict self.now.depth)
            x (head cursor.old) operator (references.is_reference x) cursor.old) result cursor.new }
    {
        if !is_reference(x.get()) {
            return Err(Stop::Refused(Refusal::Unexpected));
        }
        let place = cursor.place();
        cursor.take();
        Ok(update(self.alloc, operator, x, place)?)
    }

    /// Reads an operand with the `++` or `--` behind it (11.3).
    #[tactic(auto, unfolding(ja_grammar::specs::ReadExpression::postfix))]
    fn postfix(&self, cursor: &mut Cursor<'_>) -> Result<Held<Expression>, Stop>
        requires { Reads self.now.depth self.now.statement (F.pre self.now.read)
            (F.post self.now.read) }
        ensures { Follows (spec.postfix (strict self.now.depth) (below strict self.now.depth)
            cursor.old) result cursor.new }
    {
        let x = self.left_hand(cursor)?;
        match postfix_of(cursor) {
            Some(operator) => self.updated_behind(cursor, x, operator),
            None => Ok(x),
        }
    }

    /// Reads the operand of the `++` or `--` at `place` (11.4.4, 11.4.5). A prefix operator is
    /// refused as `Broken` at `place`, and a complete operand as `operand_close` says.
    #[tactic(auto, unfolding(ja_grammar::specs::ReadExpression::updated))]
    fn updated(&self, cursor: &mut Cursor<'_>, place: Place) -> Result<Held<Expression>, Stop>
        requires { Reads self.now.depth self.now.statement (F.pre self.now.read)
            (F.post self.now.read) }
        ensures { Follows (spec.updated (strict self.now.depth) (below strict self.now.depth) place
            cursor.old) result cursor.new }
    {
        if is_prefix(cursor.symbol()) {
            return Err(Stop::Refused(Refusal::Broken(place)));
        }
        let x = self.left_hand(cursor)?;
        operand_close(cursor, x, place)
    }

    /// Reads an operator before an operand, and that (11.4).
    fn operated_before(
        &self,
        cursor: &mut Cursor<'_>,
        operator: UnaryOperator,
    ) -> Result<Held<Expression>, Stop>
        requires { Reads self.now.depth self.now.statement (F.pre self.now.read)
            (F.post self.now.read) }
        ensures { Follows (spec.unary_by (strict self.now.depth) (below strict self.now.depth)
            (head cursor.old) (Some operator) None cursor.old) result cursor.new }
    {
        let place = cursor.place();
        cursor.enter(self.depth)?;
        let operand = self.expression_below(cursor, ExpressionPart::Unary)?;
        Ok(unary(self.alloc, operator, operand, place)?)
    }

    /// Reads `++` or `--` before an operand, and that (11.4.4, 11.4.5).
    fn updated_before(
        &self,
        cursor: &mut Cursor<'_>,
        operator: UpdateOperator,
    ) -> Result<Held<Expression>, Stop>
        requires { Reads self.now.depth self.now.statement (F.pre self.now.read)
            (F.post self.now.read) }
        ensures { Follows (spec.unary_by (strict self.now.depth) (below strict self.now.depth)
            (head cursor.old) None (Some operator) cursor.old) result cursor.new }
    {
        let place = cursor.place();
        cursor.enter(self.depth)?;
        let operand = self.expression_below(cursor, ExpressionPart::Updated { place })?;
        Ok(update(self.alloc, operator, operand, place)?)
    }

    /// Reads an operand with the operators before and behind it (11.4).
    #[tactic(auto, unfolding(ja_grammar::specs::ReadExpression::unary))]
    fn unary(&self, cursor: &mut Cursor<'_>) -> Result<Held<Expression>, Stop>
        requires { Reads self.now.depth self.now.statement (F.pre self.now.read)
            (F.post self.now.read) }
        ensures { Follows (spec.unary (strict self.now.depth) (below strict self.now.depth)
            cursor.old) result cursor.new }
    {
        match unary_operator(cursor.symbol()) {
            Some(operator) => self.operated_before(cursor, operator),
            None => match prefix_update(cursor.symbol()) {
                Some(operator) => self.updated_before(cursor, operator),
                None => self.postfix(cursor),
            },
        }
    }

    #[cycle(levels)]
    /// Reads an operator of the level above `level`, and its right operand.
    #[tactic(auto, unfolding(ja_grammar::specs::ReadExpression::operation))]
    fn operation(
        &self,
        cursor: &mut Cursor<'_>,
        no_in: bool,
        level: usize,
    ) -> Result<Operation<Expression>, Stop>
        requires nests { Reads self.now.depth self.now.statement (F.pre self.now.read)
            (F.post self.now.read) }
        requires small { level < 10 }
        ensures { Follows (spec.operation (strict self.now.depth) (below strict self.now.depth)
            no_in (suc level) (spec.binary (strict self.now.depth) (below strict self.now.depth)
            no_in level) cursor.old) result cursor.new }
    {
        let Some(operator) = binary_operator(no_in, level + 1, cursor.symbol()) else {
            return Err(Stop::Refused(Refusal::Unexpected));
        };
        let place = cursor.place();
        cursor.take();
        let right = self.binary(cursor, no_in, level)?;
        Ok(Operation {
            operator,
            right: right.into_inner(),
            place,
        })
    }

    #[cycle(levels)]
    /// Reads operators of the level above `level`, and their right operands.
    fn operations(
        &self,
        cursor: &mut Cursor<'_>,
        no_in: bool,
        level: usize,
    ) -> Result<Items<Operation<Expression>>, Stop>
        requires nests { Reads self.now.depth self.now.statement (F.pre self.now.read)
            (F.post self.now.read) }
        requires small { level < 10 }
        ensures { Follows (until (λ found. is_none
            (operators.binary_operator no_in (suc level) found))
            (spec.operation (strict self.now.depth) (below strict self.now.depth) no_in (suc level)
            (spec.binary (strict self.now.depth) (below strict self.now.depth) no_in level))
            cursor.old) result cursor.new }
    {
        let mut found = Items::new(self.alloc);
        for _turn in 0..cursor.left() {
            if binary_operator(no_in, level + 1, cursor.symbol()).is_none() {
                return Ok(found);
            }
            let item = self.operation(cursor, no_in, level)?;
            found.push(item)?;
        }
        Ok(found)
    }

    #[cycle(levels)]
    /// Reads operands with operators of the levels up to `level` between (11.5 to 11.11).
    fn binary(
        &self,
        cursor: &mut Cursor<'_>,
        no_in: bool,
        level: usize,
    ) -> Result<Held<Expression>, Stop>
        requires nests { Reads self.now.depth self.now.statement (F.pre self.now.read)
            (F.post self.now.read) }
        requires small { level ≤ 10 }
        ensures { Follows (spec.binary (strict self.now.depth) (below strict self.now.depth) no_in
            level cursor.old) result cursor.new }
    {
        let place = cursor.place();
        let mut x = self.unary(cursor)?;
        for lower in 0..level {
            let operations = self.operations(cursor, no_in, lower)?;
            x = operated(self.alloc, place, x, operations)?;
        }
        Ok(x)
    }

    /// Reads what stands behind the condition at `place` (11.12).
    fn conditional_behind(
        &self,
        cursor: &mut Cursor<'_>,
        no_in: bool,
        place: Place,
        x: Held<Expression>,
    ) -> Result<Held<Expression>, Stop>
        requires { Reads self.now.depth self.now.statement (F.pre self.now.read)
            (F.post self.now.read) }
        ensures { Follows (spec.conditional_by (strict self.now.depth) (below strict self.now.depth)
            no_in place x k.Question cursor.old) result cursor.new }
    {
        cursor.enter(self.depth)?;
        let y = self.expression_below(cursor, ExpressionPart::Assignment { no_in })?;
        cursor.expect(Symbol::Colon)?;
        let z = self.expression_below(cursor, ExpressionPart::Assignment { no_in })?;
        Ok(conditional(self.alloc, x, y, z, place)?)
    }

    /// Reads a conditional expression (11.12).
    #[tactic(auto, unfolding(ja_grammar::specs::ReadExpression::conditional))]
    fn conditional(&self, cursor: &mut Cursor<'_>, no_in: bool) -> Result<Held<Expression>, Stop>
        requires { Reads self.now.depth self.now.statement (F.pre self.now.read)
            (F.post self.now.read) }
        ensures { Follows (spec.conditional (strict self.now.depth) (below strict self.now.depth)
            no_in cursor.old) result cursor.new }
    {
        let place = cursor.place();
        let x = self.binary(cursor, no_in, LEVELS)?;
        match cursor.symbol() {
            Symbol::Question => self.conditional_behind(cursor, no_in, place, x),
            _ => Ok(x),
        }
    }

    /// Reads an assignment operator and what stands behind it (11.13).
    fn assigned(
        &self,
        cursor: &mut Cursor<'_>,
        no_in: bool,
        x: Held<Expression>,
        operator: Option<BinaryOperator>,
    ) -> Result<Held<Expression>, Stop>
        requires { Reads self.now.depth self.now.statement (F.pre self.now.read)
            (F.post self.now.read) }
        ensures { Follows (spec.assigned (strict self.now.depth) (below strict self.now.depth) no_in
            x (head cursor.old) operator (references.is_reference x) cursor.old) result cursor.new }
    {
        if !is_reference(x.get()) {
            return Err(Stop::Refused(Refusal::Unexpected));
        }
        let place = cursor.place();
        cursor.enter(self.depth)?;
        let value = self.expression_below(cursor, ExpressionPart::Assignment { no_in })?;
        Ok(assign(self.alloc, x, operator, value, place)?)
    }

    /// Reads an assignment expression (11.13).
    #[tactic(auto, unfolding(ja_grammar::specs::ReadExpression::assignment))]
    pub fn assignment(&self, cursor: &mut Cursor<'_>, no_in: bool) -> Result<Held<Expression>, Stop>
        requires { Reads self.now.depth self.now.statement (F.pre self.now.read)
            (F.post self.now.read) }
        ensures { Follows (spec.assignment (strict self.now.depth) (below strict self.now.depth)
            no_in cursor.old) result cursor.new }
    {
        let x = self.conditional(cursor, no_in)?;
        match assignment_operator(cursor.symbol()) {
            Some(operator) => self.assigned(cursor, no_in, x, operator),
            None => Ok(x),
        }
    }

    /// Reads assignment expressions with commas between.
    fn assignments(&self, cursor: &mut Cursor<'_>, no_in: bool) -> Result<Items<Expression>, Stop>
        requires { Reads self.now.depth self.now.statement (F.pre self.now.read)
            (F.post self.now.read) }
        ensures { Follows (separated (spec.assignment (strict self.now.depth)
            (below strict self.now.depth) no_in) cursor.old) result cursor.new }
    {
        let mut found = Items::new(self.alloc);
        let first = self.assignment(cursor, no_in)?;
        found.push(first.into_inner())?;
        for _turn in 0..cursor.left() {
            if !cursor.sees(Symbol::Comma) {
                return Ok(found);
            }
            cursor.take();
            let item = self.assignment(cursor, no_in)?;
            found.push(item.into_inner())?;
        }
        Ok(found)
    }

    /// Reads an expression, with commas (11.14).
    #[tactic(auto, unfolding(ja_grammar::specs::ReadExpression::whole))]
    pub fn whole(&self, cursor: &mut Cursor<'_>, no_in: bool) -> Result<Held<Expression>, Stop>
        requires { Reads self.now.depth self.now.statement (F.pre self.now.read)
            (F.post self.now.read) }
        ensures { Follows (spec.whole (strict self.now.depth) (below strict self.now.depth) no_in
            cursor.old) result cursor.new }
    {
        let place = cursor.place();
        let found = self.assignments(cursor, no_in)?;
        Ok(sequence(self.alloc, place, found)?)
    }

    /// Reads a part of an expression.
    #[tactic(auto, unfolding(ja_grammar::specs::ReadExpression::expression_part))]
    pub fn expression_part(
        &self,
        cursor: &mut Cursor<'_>,
        part: ExpressionPart,
    ) -> Result<Held<Expression>, Stop>
        requires { Reads self.now.depth self.now.statement (F.pre self.now.read)
            (F.post self.now.read) }
        ensures { Follows (spec.expression_part (strict self.now.depth)
            (below strict self.now.depth) part cursor.old) result cursor.new }
    {
        match part {
            ExpressionPart::Whole { no_in } => self.whole(cursor, no_in),
            ExpressionPart::Assignment { no_in } => self.assignment(cursor, no_in),
            ExpressionPart::Unary => self.unary(cursor),
            ExpressionPart::Updated { place } => self.updated(cursor, place),
            ExpressionPart::Created { place } => self.created(cursor, place),
        }
    }
}
