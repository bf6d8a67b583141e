//! The operators (ES3 11), and what else a symbol begins or ends.

ghost use Rattle.std.specs.Prelude.{◌≡◌};
ghost use Rattle.ja_grammar.specs.ReadExpression as expressions;
ghost use Rattle.ja_grammar.specs.Forms as forms;
ghost use Rattle.ja_grammar.specs.Input.{head, next, behind};
ghost use Rattle.ja_grammar.specs.Operators as spec;

use crate::cursor::Cursor;
use ja_syntax::{BinaryOperator, Symbol, UnaryOperator, UpdateOperator};

/// How many levels of operators between two operands there are.
pub const LEVELS: usize = 10;

/// The operator between two operands that a symbol is (11.5 to 11.11).
#[tactic(auto, unfolding(ja_grammar::specs::Operators::binary_of))]
fn binary_of(symbol: Symbol) -> Option<BinaryOperator>
    ensures { result ≡ spec.binary_of symbol }
{
    match symbol {
        Symbol::Times => Some(BinaryOperator::Times),
        Symbol::Divide => Some(BinaryOperator::Divide),
        Symbol::Remainder => Some(BinaryOperator::Remainder),
        Symbol::Plus => Some(BinaryOperator::Plus),
        Symbol::Minus => Some(BinaryOperator::Minus),
        Symbol::ShiftLeft => Some(BinaryOperator::ShiftLeft),
        Symbol::ShiftRight => Some(BinaryOperator::ShiftRight),
        Symbol::ShiftRightUnsigned => Some(BinaryOperator::ShiftRightUnsigned),
        Symbol::Less => Some(BinaryOperator::Less),
        Symbol::Greater => Some(BinaryOperator::Greater),
        Symbol::LessEqual => Some(BinaryOperator::LessEqual),
        Symbol::GreaterEqual => Some(BinaryOperator::GreaterEqual),
        Symbol::Instanceof => Some(BinaryOperator::Instanceof),
        Symbol::In => Some(BinaryOperator::In),
        Symbol::Equal => Some(BinaryOperator::Equal),
        Symbol::NotEqual => Some(BinaryOperator::NotEqual),
        Symbol::StrictEqual => Some(BinaryOperator::StrictEqual),
        Symbol::StrictNotEqual => Some(BinaryOperator::StrictNotEqual),
        Symbol::BitAnd => Some(BinaryOperator::BitAnd),
        Symbol::BitXor => Some(BinaryOperator::BitXor),
        Symbol::BitOr => Some(BinaryOperator::BitOr),
        Symbol::And => Some(BinaryOperator::And),
        Symbol::Or => Some(BinaryOperator::Or),
        _ => None,
    }
}

/// Its level: 1 binds most.
#[tactic(auto, unfolding(ja_grammar::specs::Operators::level_of))]
fn level_of(operator: BinaryOperator) -> usize
    ensures { result ≡ spec.level_of operator }
{
    match operator {
        BinaryOperator::Times => 1,
        BinaryOperator::Divide => 1,
        BinaryOperator::Remainder => 1,
        BinaryOperator::Plus => 2,
        BinaryOperator::Minus => 2,
        BinaryOperator::ShiftLeft => 3,
        BinaryOperator::ShiftRight => 3,
        BinaryOperator::ShiftRightUnsigned => 3,
        BinaryOperator::Less => 4,
        BinaryOperator::Greater => 4,
        BinaryOperator::LessEqual => 4,
        BinaryOperator::GreaterEqual => 4,
        BinaryOperator::Instanceof => 4,
        BinaryOperator::In => 4,
        BinaryOperator::Equal => 5,
        BinaryOperator::NotEqual => 5,
        BinaryOperator::StrictEqual => 5,
        BinaryOperator::StrictNotEqual => 5,
        BinaryOperator::BitAnd => 6,
        BinaryOperator::BitXor => 7,
        BinaryOperator::BitOr => 8,
        BinaryOperator::And => 9,
        BinaryOperator::Or => 10,
    }
}

fn is_in(operator: BinaryOperator) -> bool
    ensures { result ≡ spec.is_in operator }
{
    match operator {
        BinaryOperator::In => true,
        _ => false,
    }
}

/// The operator of a level that a symbol is. `no_in`: without the operator `in` (12.6).
#[tactic(auto, unfolding(ja_grammar::specs::Operators::binary_operator))]
pub fn binary_operator(no_in: bool, level: usize, symbol: Symbol) -> Option<BinaryOperator>
    ensures { result ≡ spec.binary_operator no_in level symbol }
{
    match binary_of(symbol) {
        Some(operator) => {
            if level_of(operator) == level && !(no_in && is_in(operator)) {
                Some(operator)
            } else {
                None
            }
        }
        None => None,
    }
}

/// The operator before an operand that a symbol is (11.4), but `++` and `--`.
#[tactic(auto, unfolding(ja_grammar::specs::Operators::unary_operator))]
pub fn unary_operator(symbol: Symbol) -> Option<UnaryOperator>
    ensures { result ≡ spec.unary_operator symbol }
{
    match symbol {
        Symbol::Delete => Some(UnaryOperator::Delete),
        Symbol::Void => Some(UnaryOperator::Void),
        Symbol::Typeof => Some(UnaryOperator::Typeof),
        Symbol::Plus => Some(UnaryOperator::Plus),
        Symbol::Minus => Some(UnaryOperator::Minus),
        Symbol::Complement => Some(UnaryOperator::Complement),
        Symbol::Not => Some(UnaryOperator::Not),
        _ => None,
    }
}

/// The `++` or `--` before an operand that a symbol is (11.4.4, 11.4.5).
#[tactic(auto, unfolding(ja_grammar::specs::Operators::prefix_update))]
pub fn prefix_update(symbol: Symbol) -> Option<UpdateOperator>
    ensures { result ≡ spec.prefix_update symbol }
{
    match symbol {
        Symbol::Increment => Some(UpdateOperator::IncrementBefore),
        Symbol::Decrement => Some(UpdateOperator::DecrementBefore),
        _ => None,
    }
}

/// Whether a symbol is an operator before an operand (11.4).
#[tactic(auto, unfolding(ja_grammar::specs::Forms::is_prefix))]
pub fn is_prefix(symbol: Symbol) -> bool
    ensures { result ≡ forms.is_prefix symbol }
{
    unary_operator(symbol).is_some() || prefix_update(symbol).is_some()
}

/// The `++` or `--` behind an operand that a symbol is (11.3).
#[tactic(auto, unfolding(ja_grammar::specs::Operators::postfix_update))]
fn postfix_update(symbol: Symbol) -> Option<UpdateOperator>
    ensures { result ≡ spec.postfix_update symbol }
{
    match symbol {
        Symbol::Increment => Some(UpdateOperator::IncrementBehind),
        Symbol::Decrement => Some(UpdateOperator::DecrementBehind),
        _ => None,
    }
}

/// The `++` or `--` that the next token is behind an operand on its line (11.3, 7.9.1).
#[tactic(auto, unfolding(ja_grammar::specs::Forms::postfix_of))]
pub fn postfix_of(cursor: &Cursor<'_>) -> Option<UpdateOperator>
    ensures { result ≡ forms.postfix_of (head cursor.now) }
{
    if cursor.line_before() {
        None
    } else {
        postfix_update(cursor.symbol())
    }
}

/// The assignment operator that a symbol is (11.13); `=` has no binary operator.
#[tactic(auto, unfolding(ja_grammar::specs::Operators::assignment_operator))]
pub fn assignment_operator(symbol: Symbol) -> Option<Option<BinaryOperator>>
    ensures { result ≡ spec.assignment_operator symbol }
{
    match symbol {
        Symbol::Assign => Some(None),
        Symbol::TimesAssign => Some(Some(BinaryOperator::Times)),
        Symbol::DivideAssign => Some(Some(BinaryOperator::Divide)),
        Symbol::RemainderAssign => Some(Some(BinaryOperator::Remainder)),
        Symbol::PlusAssign => Some(Some(BinaryOperator::Plus)),
        Symbol::MinusAssign => Some(Some(BinaryOperator::Minus)),
        Symbol::ShiftLeftAssign => Some(Some(BinaryOperator::ShiftLeft)),
        Symbol::ShiftRightAssign => Some(Some(BinaryOperator::ShiftRight)),
        Symbol::ShiftRightUnsignedAssign => Some(Some(BinaryOperator::ShiftRightUnsigned)),
        Symbol::BitAndAssign => Some(Some(BinaryOperator::BitAnd)),
        Symbol::BitXorAssign => Some(Some(BinaryOperator::BitXor)),
        Symbol::BitOrAssign => Some(Some(BinaryOperator::BitOr)),
        _ => None,
    }
}

/// Whether a symbol goes on with a member (11.2).
#[tactic(auto, unfolding(ja_grammar::specs::Forms::begins_property))]
pub fn begins_property(symbol: Symbol) -> bool
    ensures { result ≡ forms.begins_property symbol }
{
    match symbol {
        Symbol::Dot => true,
        Symbol::OpenBracket => true,
        _ => false,
    }
}

/// Whether a symbol goes on with a member or call (11.2).
#[tactic(auto, unfolding(ja_grammar::specs::Forms::begins_suffix))]
pub fn begins_suffix(symbol: Symbol) -> bool
    ensures { result ≡ forms.begins_suffix symbol }
{
    match symbol {
        Symbol::Dot => true,
        Symbol::OpenBracket => true,
        Symbol::OpenParenthesis => true,
        _ => false,
    }
}

/// Whether the next two tokens are a label's (12.12).
pub fn is_label(cursor: &Cursor<'_>) -> bool
    ensures { result ≡ forms.is_label (next cursor.now) (next (behind cursor.now)) }
{
    match cursor.symbol() {
        Symbol::Name => match cursor.second() {
            Symbol::Colon => true,
            _ => false,
        },
        _ => false,
    }
}

fn is_name(symbol: Symbol) -> bool
    ensures { result ≡ forms.is_name symbol }
{
    match symbol {
        Symbol::Name => true,
        _ => false,
    }
}

/// Whether the next token is a name on the line of the token before it (7.9.1).
#[tactic(auto, unfolding(ja_grammar::specs::Forms::is_label_behind))]
pub fn is_label_behind(cursor: &Cursor<'_>) -> bool
    ensures { result ≡ forms.is_label_behind (head cursor.now) }
{
    is_name(cursor.symbol()) && !cursor.line_before()
}

fn ends_statement(symbol: Symbol) -> bool
    ensures { result ≡ forms.ends_statement symbol }
{
    match symbol {
        Symbol::Semicolon => true,
        Symbol::CloseBrace => true,
        Symbol::End => true,
        _ => false,
    }
}

/// Whether no value follows behind `return` (7.9.1, 12.9).
#[tactic(auto, unfolding(ja_grammar::specs::Forms::ends_return))]
pub fn ends_return(cursor: &Cursor<'_>) -> bool
    ensures { result ≡ forms.ends_return (head cursor.now) }
{
    cursor.line_before() || ends_statement(cursor.symbol())
}

/// Whether a symbol ends a clause of a `switch` (12.11).
#[tactic(auto, unfolding(ja_grammar::specs::Forms::ends_clause))]
pub fn ends_clause(symbol: Symbol) -> bool
    ensures { result ≡ forms.ends_clause symbol }
{
    match symbol {
        Symbol::Case => true,
        Symbol::Default => true,
        Symbol::CloseBrace => true,
        Symbol::End => true,
        _ => false,
    }
}

/// Whether a symbol ends the statements of a block: `}`, or the end of the text, where that is
/// missed.
pub fn is_close_brace(symbol: Symbol) -> bool
    ensures { result ≡ expressions.is_close_brace symbol }
{
    match symbol {
        Symbol::CloseBrace => true,
        Symbol::End => true,
        _ => false,
    }
}

/// Whether a symbol ends the elements of an array: `]`, or the end of the text, where that is
/// missed.
pub fn is_close_bracket(symbol: Symbol) -> bool
    ensures { result ≡ expressions.is_close_bracket symbol }
{
    match symbol {
        Symbol::CloseBracket => true,
        Symbol::End => true,
        _ => false,
    }
}
