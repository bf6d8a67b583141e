//! Declared names (ES3 12.2, 13).

ghost use Rattle.std.specs.Prelude.{ℕ};
ghost use Rattle.ja_syntax.specs.declared.symbol.Symbol.TheVariants as k;
ghost use Rattle.ja_grammar.specs.Input.{listed, separated, strict};
ghost use Rattle.ja_grammar.specs.code.Input.{Follows};
ghost use Rattle.ja_grammar.specs.ReadExpression as spec;
ghost use Rattle.ja_grammar.specs.ReadStatement.{below};

use crate::cursor::Cursor;
use ja_grammar::{Refusal, Stop};
use ja_syntax::{Name, Symbol};
use sqlite_items::Items;
use std::alloc::Global;

/// Reads a name that is declared (12.2, 13). It is refused as `Arguments` where it is `arguments`,
/// and as `Unexpected` where the next token is no name.
#[tactic(auto, unfolding(ja_grammar::specs::ReadExpression::declared, ja_grammar::specs::Input::strict))]
pub fn declared(alloc: Global, cursor: &mut Cursor<'_>) -> Result<Name, Stop>
    ensures { (depth : ℕ) → Follows (spec.declared (strict depth) cursor.old) result cursor.new }
{
    match cursor.symbol() {
        Symbol::Name => {
            if cursor.is_arguments() {
                return Err(Stop::Refused(Refusal::Arguments));
            }
            let name = cursor.name(alloc)?;
            cursor.take();
            Ok(name)
        }
        _ => Err(Stop::Refused(Refusal::Unexpected)),
    }
}

/// Reads the name of a function (13). An expression need not have one; where it is `required`, any
/// other token is refused as `Unexpected`.
#[tactic(auto, unfolding(ja_grammar::specs::ReadExpression::function_name))]
pub fn function_name(
    alloc: Global,
    cursor: &mut Cursor<'_>,
    required: bool,
) -> Result<Option<Name>, Stop>
    ensures { (depth : ℕ) → Follows (spec.function_name (strict depth) required cursor.old) result
        cursor.new }
{
    match cursor.symbol() {
        Symbol::Name => Ok(Some(declared(alloc, cursor)?)),
        _ => {
            if required {
                Err(Stop::Refused(Refusal::Unexpected))
            } else {
                Ok(None)
            }
        }
    }
}

/// Reads declared names with commas between.
fn names(alloc: Global, cursor: &mut Cursor<'_>) -> Result<Items<Name>, Stop>
    ensures { (depth : ℕ) → Follows (separated (spec.declared (strict depth)) cursor.old) result
        cursor.new }
{
    let mut found = Items::new(alloc);
    let first = declared(alloc, cursor)?;
    found.push(first)?;
    for _turn in 0..cursor.left() {
        if !cursor.sees(Symbol::Comma) {
            return Ok(found);
        }
        cursor.take();
        let item = declared(alloc, cursor)?;
        found.push(item)?;
    }
    Ok(found)
}

/// Reads the parameters of a function and their `)`.
#[tactic(auto, unfolding(ja_grammar::specs::Input::listed))]
fn parameters_list(alloc: Global, cursor: &mut Cursor<'_>) -> Result<Items<Name>, Stop>
    ensures { (depth : ℕ) → Follows (listed k.CloseParenthesis (spec.declared (strict depth))
        cursor.old) result cursor.new }
{
    if cursor.sees(Symbol::CloseParenthesis) {
        cursor.take();
        return Ok(Items::new(alloc));
    }
    let found = names(alloc, cursor)?;
    cursor.expect(Symbol::CloseParenthesis)?;
    Ok(found)
}

/// Reads the parameters of a function with their parentheses (13), which count, where `depth`
/// levels are left.
#[tactic(auto, unfolding(ja_grammar::specs::ReadExpression::parameters))]
pub fn parameters(alloc: Global, cursor: &mut Cursor<'_>, depth: usize) -> Result<Items<Name>, Stop>
    ensures { Follows (spec.parameters (strict depth) (below strict depth) cursor.old) result
        cursor.new }
{
    cursor.opening(depth, Symbol::OpenParenthesis)?;
    parameters_list(alloc, cursor)
}
