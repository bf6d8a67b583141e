//! The trees of the built-in functions' texts.

ghost use Rattle.std.specs.Prelude.{◌≡◌, ◌≤◌, true, length, IfOk};
ghost use Rattle.std.specs.List.{flat_map, list_all};
ghost use Rattle.ja_lex.specs.Tokens.{tokens};
ghost use Rattle.ja_prelude.specs.Reading as spec;

use crate::texts::BuiltinFunction;
use ja_base::{Memory, Place};
use ja_grammar::ParseFault;
use ja_lex::{Token, tokens};
use ja_parse::read;
use ja_syntax::Statement;
use sqlite_items::Items;
use std::alloc::Global;

/// Tokens with their numbers as places.
#[tactic(auto, unfolding(crate::specs::Reading::numbered))]
fn numbered(alloc: Global, tokens: Vec<Token>) -> Result<Vec<Token>, Memory>
    requires { length tokens.items ≤ spec.max_tokens }
    ensures { IfOk result (λ list. list.items ≡ spec.numbered 1 tokens.items) }
{
    let mut list = Vec::new(alloc);
    let mut column = 0;
    for token in tokens {
        column += 1;
        list.push(Token {
            kind: token.kind,
            start: token.start,
            end: token.end,
            line_before: token.line_before,
            place: Place { line: 0, column },
        })?;
    }
    Ok(list)
}

/// The tree of a text.
#[tactic(auto, using(crate::proofs::Answering::read_is, crate::proofs::Answering::read_fails))]
fn tree_of(alloc: Global, text: &str) -> Result<Items<Statement>, Memory>
    requires few { spec.is_few text.now ≡ true }
    requires text { spec.is_text text.now ≡ true }
    ensures { IfOk result (λ statements. statements ≡ spec.tree_of text.now) }
{
    let tokens = numbered(alloc, tokens(alloc, text)?.into_vec())?;
    match read(alloc, &tokens) {
        Ok(statements) => Ok(statements),
        Err(ParseFault::Memory) => Err(Memory),
        Err(_) => unreachable!(),
    }
}

/// The trees of the texts of functions, one behind the other.
pub(crate) fn trees_of(
    alloc: Global,
    functions: &[BuiltinFunction],
) -> Result<Items<Statement>, Memory>
    requires few { list_all (λ f. spec.is_few f.1.now) functions.now ≡ true }
    requires texts { list_all (λ f. spec.is_text f.1.now) functions.now ≡ true }
    ensures { IfOk result (λ statements. statements
        ≡ flat_map (λ f. spec.tree_of f.1.now) functions.now) }
{
    let mut statements = Items::new(alloc);
    for function in functions {
        let (_, text) = *function;
        statements.append(tree_of(alloc, text)?)?;
    }
    Ok(statements)
}
