//! Functions with their bodies (ES3 13), and lists of statements one level below.

ghost use Rattle.std.specs.Prelude.{◌≡◌};
ghost use Rattle.ja_grammar.specs.declared.part.StatementPart.TheVariants as of_statement;
ghost use Rattle.ja_grammar.specs.code.Contexts.{context_of};
ghost use Rattle.ja_grammar.specs.Input.{until, strict};
ghost use Rattle.ja_grammar.specs.code.Input.{Follows};
ghost use Rattle.ja_grammar.specs.ReadExpression as spec;
ghost use Rattle.ja_grammar.specs.ReadStatement.{below};
ghost use Rattle.ja_parse_expressions.specs.code.Ends.{ends};
ghost use Rattle.ja_parse_expressions.specs.code.Nests.{Nests};

use ja_grammar::{Context, Refusal, StatementPart, Stop};
use ja_parse_cursor::{
    Cursor, Held, ends_clause, function_context, function_name, is_close_brace, parameters,
};
use ja_syntax::{FunctionTree, Statement, Symbol};
use sqlite_items::Items;
use std::alloc::Global;

/// What ends a list of statements.
#[derive(Clone, Copy)]
pub enum ListEnd {
    /// The `}` of a block or of a function's body.
    Brace,
    /// The next clause of a `switch`, or its `}`.
    Clause,
}

/// Whether a symbol ends a list of statements.
fn is_end(end: ListEnd, symbol: Symbol) -> bool
    ensures { result ≡ ends end symbol }
{
    match end {
        ListEnd::Brace => is_close_brace(symbol),
        ListEnd::Clause => ends_clause(symbol),
    }
}

/// Reads a part of a statement one level below `depth` levels, by the function that is given. It is
/// refused as `Deep` where no level is left.
#[tactic(auto, using(crate::proofs::Rulesets::for_statement_below))]
pub fn statement_below<
    G: Fn(
        Global,
        &mut Cursor<'_>,
        usize,
        &Context<'_>,
        StatementPart,
    ) -> Result<Held<Statement>, Stop>,
>(
    alloc: Global,
    cursor: &mut Cursor<'_>,
    depth: usize,
    statement: &G,
    context: &Context<'_>,
    part: StatementPart,
) -> Result<Held<Statement>, Stop>
    requires { Nests depth (G.pre statement.now) (G.post statement.now) }
    ensures { Follows ((below strict depth).statement (context_of context.now) part cursor.old)
        result cursor.new }
{
    if depth == 0 {
        return Err(Stop::Refused(Refusal::Deep));
    }
    statement(alloc, cursor, depth - 1, context, part)
}

/// Reads statements one level below `depth` levels, up to the end of their list, which it leaves.
/// `outermost`: they stand directly in the body of a function.
pub fn statements_below<
    G: Fn(
        Global,
        &mut Cursor<'_>,
        usize,
        &Context<'_>,
        StatementPart,
    ) -> Result<Held<Statement>, Stop>,
>(
    alloc: Global,
    cursor: &mut Cursor<'_>,
    depth: usize,
    statement: &G,
    context: &Context<'_>,
    end: ListEnd,
    outermost: bool,
) -> Result<Items<Statement>, Stop>
    requires { Nests depth (G.pre statement.now) (G.post statement.now) }
    ensures { Follows (until (ends end) ((below strict depth).statement (context_of context.now)
        (of_statement.Whole 0 outermost)) cursor.old) result cursor.new }
{
    let mut found = Items::new(alloc);
    for _turn in 0..cursor.left() {
        if is_end(end, cursor.symbol()) {
            return Ok(found);
        }
        let part = StatementPart::Whole {
            labels: 0,
            outermost,
        };
        let item = statement_below(alloc, cursor, depth, statement, context, part)?;
        found.push(item.into_inner())?;
    }
    Ok(found)
}

/// Reads the body of a function with its braces.
#[tactic(auto, unfolding(ja_grammar::specs::ReadExpression::function_body))]
fn function_body<
    G: Fn(
        Global,
        &mut Cursor<'_>,
        usize,
        &Context<'_>,
        StatementPart,
    ) -> Result<Held<Statement>, Stop>,
>(
    alloc: Global,
    cursor: &mut Cursor<'_>,
    depth: usize,
    statement: &G,
) -> Result<Items<Statement>, Stop>
    requires { Nests depth (G.pre statement.now) (G.post statement.now) }
    ensures { Follows (spec.function_body (strict depth) (below strict depth) cursor.old) result
        cursor.new }
{
    cursor.opening(depth, Symbol::OpenBrace)?;
    let context = function_context(alloc);
    let body = statements_below(
        alloc,
        cursor,
        depth,
        statement,
        &context,
        ListEnd::Brace,
        true,
    )?;
    cursor.expect(Symbol::CloseBrace)?;
    Ok(body)
}

/// Reads a function (13), where `depth` levels are left, with the function that reads the
/// statements of its body; `required`: it must have a name. What is refused, `spec.function` says.
/// `Memory` comes only where memory was refused.
#[tactic(auto, unfolding(ja_grammar::specs::ReadExpression::function))]
pub fn function<
    G: Fn(
        Global,
        &mut Cursor<'_>,
        usize,
        &Context<'_>,
        StatementPart,
    ) -> Result<Held<Statement>, Stop>,
>(
    alloc: Global,
    cursor: &mut Cursor<'_>,
    depth: usize,
    statement: &G,
    required: bool,
) -> Result<FunctionTree, Stop>
    requires { Nests depth (G.pre statement.now) (G.post statement.now) }
    ensures { Follows (spec.function (strict depth) (below strict depth) required cursor.old) result
        cursor.new }
{
    let place = cursor.place();
    cursor.expect(Symbol::Function)?;
    let name = function_name(alloc, cursor, required)?;
    let parameters = parameters(alloc, cursor, depth)?;
    let body = function_body(alloc, cursor, depth, statement)?;
    Ok(FunctionTree {
        name,
        parameters,
        body,
        place,
    })
}
