ghost use Rattle.std.specs.Prelude.{◌≡◌, [], IfOk, map};
ghost use Rattle.ja_lex.specs.Marks as spec;

use crate::characters::char_at;
use crate::element::Element;
use crate::kept::Texts;
use crate::token::{TokenFault, TokenKind};
use ja_base::ScopeKind;
use ja_prim::Text16;
use std::alloc::{AllocError, Global};

/// The punctuators and the div punctuators (ES3 7.7).
const MARKS: [&[u8]; 48] = [
    b"{", b"}", b"(", b")", b"[", b"]", b".", b";", b",", b"<", b">", b"<=", b">=", b"==", b"!=",
    b"===", b"!==", b"+", b"-", b"*", b"%", b"++", b"--", b"<<", b">>", b">>>", b"&", b"|", b"^",
    b"!", b"~", b"&&", b"||", b"?", b":", b"=", b"+=", b"-=", b"*=", b"%=", b"<<=", b">>=",
    b">>>=", b"&=", b"|=", b"^=", b"/", b"/=",
];

/// A refusal.
pub fn bad(fault: TokenFault) -> Element
    ensures { result ≡ spec.bad fault }
{
    Element::Token {
        kind: TokenKind::Bad { fault },
        length: 1,
    }
}

/// Whether the text begins with a mark.
fn begins_with(mark: &[u8], text: &[char]) -> bool
    ensures { result ≡ spec.begins_with mark.now text.now }
{
    let mut rest = text;
    for byte in mark {
        match rest {
            [] => return false,
            [first, more @ ..] => {
                if u32::from(*first) != u32::from(*byte) {
                    return false;
                }
                rest = more;
            }
        }
    }
    true
}

/// The longer of a list and a mark, if the text begins with the mark.
fn longer<'a>(best: &'a [u8], mark: &'a [u8], text: &[char]) -> &'a [u8]
    ensures { result.now ≡ spec.longer best.now mark.now text.now }
{
    if best.len() < mark.len() && begins_with(mark, text) {
        mark
    } else {
        best
    }
}

/// The marks.
#[tactic(auto, unfolding(crate::specs::Marks::marks))]
fn marks() -> &'static [&'static [u8]]
    ensures { map (λ mark. mark.now) result.now ≡ spec.marks }
{
    &MARKS
}

/// The longest mark of a table that the text begins with, or the empty one.
fn longest<'a>(mut table: &[&'a [u8]], text: &[char]) -> &'a [u8]
    ensures { result.now ≡ spec.longest [] (map (λ mark. mark.now) table.entry.now) text.now }
{
    let mut best: &[u8] = &[];
    'table: while let [mark, rest @ ..] = table {
        best = longer(best, *mark, text);
        table = rest;
    }
    best
}

/// Why no token begins with a character that no rule takes.
fn stranger(c: char) -> TokenFault
    ensures { result ≡ spec.stranger c }
{
    if c.is_ascii() {
        TokenFault::Lexical
    } else {
        TokenFault::Scope(ScopeKind::NonAscii)
    }
}

/// The longest mark that stands there, or why there is none.
#[tactic(auto, using(crate::proofs::LongestMarks::short), unfolding(crate::specs::Marks::mark))]
pub fn mark(alloc: Global, texts: &mut Texts, text: &[char]) -> Result<Element, AllocError>
    ensures { IfOk result (λ e. e ≡ spec.mark text.now) }
{
    match longest(marks(), text) {
        [] => Ok(bad(stranger(char_at(text, 0)))),
        found => {
            let mark = texts.shared(Text16::from_ascii(alloc, found)?)?;
            Ok(Element::Token {
                kind: TokenKind::Mark(mark),
                length: found.len(),
            })
        }
    }
}
