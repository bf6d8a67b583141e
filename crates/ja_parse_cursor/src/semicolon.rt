//! The ends of statements, with semicolons inserted (ES3 7.9).

ghost use Rattle.ja_grammar.specs.code.Input.{Follows};
ghost use Rattle.ja_grammar.specs.ReadStatement as spec;

use crate::cursor::Cursor;
use ja_grammar::{Refusal, Stop};
use ja_syntax::Symbol;

/// Ends a statement: takes `;`, or inserts it before `}`, the text's end or a new line (7.9). Any
/// other token is refused as `Unexpected`.
#[tactic(auto, unfolding(ja_grammar::specs::ReadStatement::ended))]
pub fn ended(cursor: &mut Cursor<'_>) -> Result<(), Stop>
    ensures { Follows (spec.ended cursor.old) result cursor.new }
{
    match cursor.symbol() {
        Symbol::Semicolon => {
            cursor.take();
            Ok(())
        }
        Symbol::CloseBrace => Ok(()),
        Symbol::End => Ok(()),
        _ => {
            if cursor.line_before() {
                Ok(())
            } else {
                Err(Stop::Refused(Refusal::Unexpected))
            }
        }
    }
}
