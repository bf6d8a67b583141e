//! From a text to its tree, or to the place where it is refused.

ghost use Rattle.std.specs.Prelude.{◌≡◌, ◌≢◌, ◌≤◌, ℕ, List, length, IfOk, IfErr, Err};
ghost use Rattle.ja_grammar.specs.declared.fault.ParseFault.TheVariants as fault;
ghost use Rattle.ja_grammar.specs.Input.{head, strict};
ghost use Rattle.ja_grammar.specs.code.Answering.{Answers};
ghost use Rattle.ja_grammar.specs.Language.{Explains, Spells, max_levels, token_fault};
ghost use Rattle.ja_grammar.specs.Language as spec;
ghost use Rattle.ja_grammar.specs.ReadStatement.{program};
ghost use Rattle.ja_lex.specs.Spots.{max_bytes};
ghost use Rattle.ja_lex.specs.Tokens.{tokens};
ghost use Rattle.ja_syntax.specs.code.Rules.{KeepsRules};
ghost use Rattle.ja_syntax.specs.declared.tree.Statement.{Statement as StatementOf};

use ja_base::{Place, ScopeKind};
use ja_grammar::{ParseFault, Refusal, Stop};
use ja_lex::{Token, tokens};
use ja_parse_cursor::Cursor;
use ja_parse_statements::read_program;
use ja_syntax::{Statement, Tree};
use sqlite_items::Items;
use std::alloc::Global;

/// A token with a kind of scope of its own is refused with it, and any other one is wrong.
fn token_fault(place: Place, scope: Option<ScopeKind>) -> ParseFault
    ensures { result ≡ spec.token_fault place scope }
{
    match scope {
        Some(kind) => ParseFault::Scope { kind, place },
        None => ParseFault::Syntax { place },
    }
}

/// What is answered to a refusal at the next token. `Broken`, `Operand` and `Alone` are answered at
/// an earlier word: the one whose rule the next token breaks, the `++` or `--` whose operand is
/// complete and no reference, and the `break` that has no label and nothing to leave.
fn fault_at(why: Refusal, cursor: &Cursor<'_>) -> ParseFault
    ensures { result ≡ spec.fault_at why (head cursor.now) }
{
    let own = cursor.place();
    match why {
        Refusal::Unexpected => token_fault(own, cursor.scope()),
        Refusal::RegExp => ParseFault::Scope {
            kind: ScopeKind::RegExp,
            place: own,
        },
        Refusal::Arguments => ParseFault::Scope {
            kind: ScopeKind::ArgumentsName,
            place: own,
        },
        Refusal::Deep => ParseFault::Depth { place: own },
        Refusal::DeepLabel(place) => ParseFault::Depth { place },
        Refusal::Broken(place) => ParseFault::Syntax { place },
        Refusal::Operand(place) => ParseFault::Syntax { place },
        Refusal::Alone(place) => ParseFault::Syntax { place },
        Refusal::UnknownLabel(place) => ParseFault::Syntax { place },
    }
}

/// Reads the tokens of a program (ES3 14), with 200 levels, to its statements.
///
/// # Errors
///
/// Those of `parse`, with the places that the tokens have.
pub fn read(alloc: Global, tokens: &[Token]) -> Result<Items<Statement>, ParseFault>
    ensures { Answers (program strict max_levels tokens.now) result }
{
    let mut cursor = Cursor::new(tokens);
    match read_program(alloc, &mut cursor) {
        Ok(statements) => Ok(statements),
        Err(Stop::Refused(why)) => Err(fault_at(why, &cursor)),
        Err(Stop::Memory) => Err(ParseFault::Memory),
    }
}

/// The tree of a text of at most 16,777,216 bytes (ES3 sections 7 and 11 to 14): the one that the
/// grammar relates to its tokens, which keeps the rules on trees.
///
/// # Errors
///
/// `Syntax`, `Scope` or `Depth` exactly where the text has no tree with at most 200 levels. The
/// text is refused at the first token with which none goes on, or at its end, and by the rule that
/// stands in the way, so by one kind and one place. `Syntax` where a rule of an earlier word is
/// broken, at that word; else `Scope` where the token leaves the profile, at its place; `Depth`
/// where more levels alone would do, at the place of the token that counts one too many; else
/// `Syntax`, at the token's place or, where that is a jump with nothing to leave and an unknown
/// label behind it, at that label. `Memory` where memory was refused.
#[tactic(auto, using(crate::proofs::Rulesets::for_parse))]
pub fn parse(alloc: Global, text: &str) -> Result<Tree, ParseFault>
    requires { length text.now ≤ max_bytes }
    ensures tree { IfOk result (λ tree. Spells max_levels (tokens text.now) tree.statements) }
    ensures only { IfOk result (λ tree. (levels : ℕ) (others : List StatementOf)
        → Spells levels (tokens text.now) others → others ≡ tree.statements) }
    ensures rules { IfOk result (λ tree. KeepsRules tree.statements) }
    ensures fault { IfErr result (Explains (tokens text.now)) }
    ensures none { IfErr result (λ why. why ≢ fault.Memory → (others : List StatementOf)
        → Spells max_levels (tokens text.now) others → ⊥) }
{
    let Ok(tokens) = tokens(alloc, text) else {
        return Err(ParseFault::Memory);
    };
    match read(alloc, tokens.as_slice()) {
        Ok(statements) => Ok(Tree { statements }),
        Err(fault) => Err(fault),
    }
}
