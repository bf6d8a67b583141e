use crate::out::Out;
use ja_base::ScopeKind;
use ja_lex::{Token, TokenFault, TokenKind, tokens};

/// The name of a fault.
fn fault_name(fault: TokenFault) -> &'static str {
    match fault {
        TokenFault::Lexical => "lexical",
        TokenFault::Scope(ScopeKind::Octal) => "octal",
        TokenFault::Scope(ScopeKind::Number) => "number",
        TokenFault::Scope(ScopeKind::NonAscii) => "past-ascii",
        TokenFault::Scope(ScopeKind::IdentifierEscape) => "escape",
        TokenFault::Scope(ScopeKind::TextLength) => "length",
        _ => "other",
    }
}

/// What a token is: a word behind `W`, a number behind `N`, a text behind `T`, a mark as it is.
fn put_kind(out: &mut Out, kind: &TokenKind) {
    match kind {
        TokenKind::Word(units) => {
            out.put("W");
            out.put_units(units.units());
        }
        TokenKind::Number(value) => {
            out.put("N");
            out.put_signed(value.get());
        }
        TokenKind::Text(units) => {
            out.put("T");
            out.put_units(units.units());
        }
        TokenKind::Mark(units) => out.put_units(units.units()),
        TokenKind::End => out.put("end"),
        TokenKind::Bad { fault } => out.put(fault_name(*fault)),
    }
}

/// A token, `^` where a line ended before it, its place, and the byte that it begins with.
fn put_token(out: &mut Out, token: &Token) {
    put_kind(out, &token.kind);
    out.put(if token.line_before { "^@" } else { "@" });
    out.put_before(u64::from(token.place.line), ":");
    out.put_before(u64::from(token.place.column), "+");
    out.put_before(token.start as u64, " ");
}

/// The tokens of a text.
pub fn tokens_of(out: &mut Out, text: &str) {
    if text.len() > 16_777_216 {
        return;
    }
    if let Ok(tokens) = tokens(out.alloc, text) {
        for token in tokens.as_slice() {
            put_token(out, token);
        }
    }
}
