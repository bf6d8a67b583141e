ghost use Rattle.std.specs.Prelude.{◌≡◌, ◌<◌, ◌≤◌, false, length, IfOk, take};
ghost use Rattle.std.specs.List.{list_any};
ghost use Rattle.std.specs.Str.{chars};
ghost use Rattle.ja_prim.specs.Characters.{is_terminator, is_blank};
ghost use Rattle.ja_lex.specs.Spots.{beginning, max_bytes};
ghost use Rattle.ja_lex.specs.Laws.{IsEnded};
ghost use Rattle.ja_lex.specs.Tokens as spec;

use crate::blanks::{line_comment, long_comment};
use crate::characters::{char_at, is_digit, is_escape, is_part, is_terminator, is_white};
use crate::cursor::Cursor;
use crate::element::Element;
use crate::kept::Texts;
use crate::marks::mark;
use crate::numbers::number;
use crate::spot::Spot;
use crate::strings::string;
use crate::token::{Token, TokenKind};
use crate::words::word;
use ja_base::{Memory, Seq};
use std::alloc::{AllocError, Global};

/// Whether a character is a blank.
fn is_blank(c: char) -> bool
    ensures { result ≡ is_blank c }
{
    is_white(c) || is_terminator(c)
}

/// Whether a comment begins with `/` and a character.
#[tactic(auto, unfolding(crate::specs::Tokens::begins_comment))]
fn begins_comment(text: &[char], c: char) -> bool
    ensures { result ≡ spec.begins_comment text.now c }
{
    char_at(text, 0) == '/' && char_at(text, 1) == c
}

/// Whether a digit, or `.` and a digit, stand there.
#[tactic(auto, unfolding(crate::specs::Tokens::begins_number))]
fn begins_number(text: &[char]) -> bool
    ensures { result ≡ spec.begins_number text.now }
{
    is_digit(char_at(text, 0)) || (char_at(text, 0) == '.' && is_digit(char_at(text, 1)))
}

/// Whether what identifiers are made of, or an escape, stands there.
#[tactic(auto, unfolding(crate::specs::Tokens::begins_word))]
fn begins_word(text: &[char]) -> bool
    ensures { result ≡ spec.begins_word text.now }
{
    is_part(char_at(text, 0)) || is_escape(text, 0)
}

/// Whether a quote stands there.
#[tactic(auto, unfolding(crate::specs::Tokens::begins_string))]
fn begins_string(text: &[char]) -> bool
    ensures { result ≡ spec.begins_string text.now }
{
    char_at(text, 0) == '\'' || char_at(text, 0) == '"'
}

/// What some characters begin with.
#[tactic(auto, unfolding(crate::specs::Tokens::first_element))]
fn first_element(alloc: Global, texts: &mut Texts, text: &[char]) -> Result<Element, Memory>
    requires { length text.now ≤ max_bytes }
    ensures { IfOk result (λ e. e ≡ spec.first_element text.now) }
{
    if is_blank(char_at(text, 0)) {
        Ok(Element::Blank { length: 1 })
    } else if begins_comment(text, '/') {
        Ok(line_comment(text))
    } else if begins_comment(text, '*') {
        Ok(long_comment(text))
    } else if begins_number(text) {
        Ok(number(alloc, text)?)
    } else if begins_word(text) {
        Ok(word(alloc, texts, text)?)
    } else if begins_string(text) {
        Ok(string(alloc, texts, text)?)
    } else {
        Ok(mark(alloc, texts, text)?)
    }
}

/// Whether a line terminator stands among the first `count` characters.
fn has_terminator(text: &[char], count: usize) -> bool
    ensures { result ≡ list_any is_terminator (take count text.now) }
{
    text.iter().take(count).any(|c| is_terminator(*c))
}

/// A token from a spot up to before another.
fn token(kind: TokenKind, line_before: bool, start: Spot, end: Spot) -> Token
    ensures { result ≡ spec.token kind line_before start end }
{
    Token {
        kind,
        start: start.offset,
        end: end.offset,
        line_before,
        place: start.place,
    }
}

/// Whether no token is read behind one of a kind.
fn is_last(kind: &TokenKind) -> bool
    ensures { result ≡ spec.is_last kind.now }
{
    match kind {
        TokenKind::End | TokenKind::Bad { .. } => true,
        _ => false,
    }
}

/// The characters of a text.
fn characters_of(alloc: Global, text: &str) -> Result<Vec<char>, AllocError>
    ensures value { IfOk result (λ characters. characters.items ≡ chars text.now) }
    ensures within { IfOk result (λ characters. length characters.items ≤ length text.now) }
{
    let characters: Vec<char> = text.chars().collect(alloc)?;
    Ok(characters)
}

/// Goes past a U+FEFF that stands first.
fn skip_mark(cursor: &mut Cursor<'_>)
    requires { cursor.old.spot ≡ beginning }
    ensures same { spec.tokens_after 0 false cursor.new.spot cursor.new.rest.now
        ≡ spec.tokens_of cursor.old.rest.now }
    ensures within { length cursor.new.rest.now ≤ length cursor.old.rest.now }
{
    if char_at(cursor.rest, 0) == '\u{feff}' {
        cursor.advance(1);
    }
}

/// Takes the next token.
fn next_token(alloc: Global, texts: &mut Texts, cursor: &mut Cursor<'_>) -> Result<Token, Memory>
    requires { length cursor.old.rest.now ≤ max_bytes }
    ensures next { IfOk result (λ token. spec.tokens_after 0 false cursor.old.spot
        cursor.old.rest.now ≡ spec.followed token
        (spec.tokens_after 0 false cursor.new.spot cursor.new.rest.now)) }
    ensures shorter { IfOk result (λ token. spec.is_last token.kind ≡ false
        → length cursor.new.rest.now < length cursor.old.rest.now) }
    ensures within { length cursor.new.rest.now ≤ length cursor.old.rest.now }
{
    let mut line_before = false;
    'blanks: while !cursor.rest.is_empty() {
        let start = cursor.spot;
        let element = first_element(alloc, texts, cursor.rest)?;
        match element {
            Element::Blank { length } => {
                line_before = line_before || has_terminator(cursor.rest, length);
                cursor.advance(length.max(1));
            }
            Element::Token { kind, length } => {
                cursor.advance(length.max(1));
                return Ok(token(kind, line_before, start, cursor.spot));
            }
        }
    }
    Ok(token(TokenKind::End, line_before, cursor.spot, cursor.spot))
}

/// The tokens of a text of at most 16,777,216 bytes (ES3 section 7). The last is `End`, or `Bad`,
/// behind which nothing is read. A place counts characters; CR LF ends one line. The error is want
/// of memory.
#[tactic(auto, using(crate::proofs::Endings::tokens_end_once))]
pub fn tokens(alloc: Global, text: &str) -> Result<Seq<Token>, Memory>
    requires { length text.now ≤ max_bytes }
    ensures value { IfOk result (λ tokens. tokens ≡ spec.tokens text.now) }
    ensures ended { IfOk result IsEnded }
{
    let characters = characters_of(alloc, text)?;
    let mut cursor = Cursor::new(&characters);
    skip_mark(&mut cursor);
    let mut texts = Texts::new(alloc)?;
    let mut tokens = Vec::new(alloc);
    'tokens: loop {
        let token = next_token(alloc, &mut texts, &mut cursor)?;
        let last = is_last(&token.kind);
        tokens.push(token)?;
        if last {
            return Ok(Seq::from_vec(tokens));
        }
    }
}
