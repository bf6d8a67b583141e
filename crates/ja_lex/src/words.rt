ghost use Rattle.std.specs.Prelude.{◌≡◌, ◌≤◌, length, IfOk};
ghost use Rattle.ja_lex.specs.Spots.{max_bytes};
ghost use Rattle.ja_lex.specs.Words as spec;

use crate::characters::{Class, is_escape, run, run_length, units};
use crate::element::Element;
use crate::kept::Texts;
use crate::marks::bad;
use crate::token::{TokenFault, TokenKind};
use ja_base::ScopeKind;
use ja_prim::{MAX_UNITS, Text16};
use std::alloc::{AllocError, Global};

/// The identifier or reserved word that the text begins with, or its escape.
#[tactic(auto, using(crate::proofs::Classed::all_part), unfolding(crate::specs::Words::word))]
pub fn word(alloc: Global, texts: &mut Texts, text: &[char]) -> Result<Element, AllocError>
    requires { length text.now ≤ max_bytes }
    ensures { IfOk result (λ e. e ≡ spec.word text.now) }
{
    let length = run_length(Class::Part, text);
    if is_escape(text, length) {
        return Ok(bad(TokenFault::Scope(ScopeKind::IdentifierEscape)));
    }
    if length > MAX_UNITS {
        return Ok(bad(TokenFault::Scope(ScopeKind::TextLength)));
    }
    let units = units(alloc, run(Class::Part, text))?;
    let own = Text16::from_units(alloc, units)?;
    Ok(Element::Token {
        kind: TokenKind::Word(texts.shared(own)?),
        length,
    })
}
