ghost use Rattle.std.specs.Prelude.{◌≡◌, ◌≤◌, length, IfOk, pos};
ghost use Rattle.ja_prim.specs.Texts.{max_units};
ghost use Rattle.ja_syntax.specs.Symbols as symbols;
ghost use Rattle.ja_grammar.specs.Forms as forms;
ghost use Rattle.ja_grammar.specs.Input as spec;
ghost use Rattle.ja_parse_cursor.specs.code.Taking.{Takes};

use ja_base::{Place, ScopeKind};
use ja_grammar::{Refusal, Stop};
use ja_lex::{Token, TokenKind};
use ja_prim::{Int, Text16};
use ja_syntax::{Name, Symbol, is_arguments, same_symbol, scope_of, symbol_of};
use std::alloc::{AllocError, Global};
use std::marker::Model;

/// The tokens of a text that are left, from the next one on. Contracts see their list. Behind the
/// last token stands the end of the text.
#[derive(Drop)]
pub struct Cursor<'a> {
    rest: &'a [Token],
    /// The symbol of the next token.
    symbol: Symbol,
}

impl<'a> Model for Cursor<'a> {
    ghost use Rattle.std.specs.Prelude.{List};
    ghost use Rattle.ja_lex.specs.declared.token.Token.{Token};

    ghost Value = { List Token };

    ghost use Rattle.ja_parse_cursor.specs.code.Cursor.{tokens_of, IsReady};

    ghost view = { tokens_of };

    ghost invariant = { IsReady };
}

/// The symbol of the next token.
#[tactic(auto, unfolding(ja_grammar::specs::Input::head, ja_syntax::specs::Symbols::symbol_of))]
fn symbol_ahead(rest: &[Token]) -> Symbol
    ensures { result ≡ spec.next rest.now }
{
    match rest.first() {
        Some(token) => symbol_of(&token.kind),
        None => Symbol::End,
    }
}

/// The text of a word, and of any other token none.
#[tactic(auto, unfolding(ja_syntax::specs::Symbols::word_of))]
fn word_of(kind: &TokenKind) -> &[u16]
    ensures value { result.now ≡ symbols.word_of kind.now }
    ensures within { length result.now ≤ max_units }
{
    match kind {
        TokenKind::Word(text) => text.units(),
        TokenKind::Number(_) => &[],
        TokenKind::Text(_) => &[],
        TokenKind::Mark(_) => &[],
        TokenKind::End => &[],
        TokenKind::Bad { .. } => &[],
    }
}

/// The text of a word, which it shares, and of any other token the empty one.
#[tactic(auto, unfolding(ja_syntax::specs::Symbols::word_of))]
fn shared_word(alloc: Global, kind: &TokenKind) -> Result<Text16, AllocError>
    ensures { IfOk result (λ text. text ≡ symbols.word_of kind.now) }
{
    match kind {
        TokenKind::Word(text) => text.copy(),
        TokenKind::Number(_) => Text16::from_slice(alloc, &[]),
        TokenKind::Text(_) => Text16::from_slice(alloc, &[]),
        TokenKind::Mark(_) => Text16::from_slice(alloc, &[]),
        TokenKind::End => Text16::from_slice(alloc, &[]),
        TokenKind::Bad { .. } => Text16::from_slice(alloc, &[]),
    }
}

/// The text of a string literal, which it shares, and of any other token the empty one.
#[tactic(auto, unfolding(ja_syntax::specs::Symbols::units_of))]
fn shared_units(alloc: Global, kind: &TokenKind) -> Result<Text16, AllocError>
    ensures { IfOk result (λ text. text ≡ symbols.units_of kind.now) }
{
    match kind {
        TokenKind::Word(_) => Text16::from_slice(alloc, &[]),
        TokenKind::Number(_) => Text16::from_slice(alloc, &[]),
        TokenKind::Text(text) => text.copy(),
        TokenKind::Mark(_) => Text16::from_slice(alloc, &[]),
        TokenKind::End => Text16::from_slice(alloc, &[]),
        TokenKind::Bad { .. } => Text16::from_slice(alloc, &[]),
    }
}

fn zero() -> Int
    ensures { result ≡ pos 0 }
{
    Int::new(0).unwrap()
}

/// The value of a numeric literal, and of any other token 0.
#[tactic(auto, unfolding(ja_syntax::specs::Symbols::number_of))]
fn number_of(kind: &TokenKind) -> Int
    ensures { result ≡ symbols.number_of kind.now }
{
    match kind {
        TokenKind::Word(_) => zero(),
        TokenKind::Number(value) => *value,
        TokenKind::Text(_) => zero(),
        TokenKind::Mark(_) => zero(),
        TokenKind::End => zero(),
        TokenKind::Bad { .. } => zero(),
    }
}

impl<'a> Cursor<'a> {
    /// At the first of these tokens.
    pub fn new(tokens: &'a [Token]) -> Cursor<'a>
        ensures { result ≡ tokens.now }
    {
        Cursor {
            rest: tokens,
            symbol: symbol_ahead(tokens),
        }
    }

    /// How many tokens are left.
    pub fn left(&self) -> usize
        ensures { result ≡ length self.now }
    {
        self.rest.len()
    }

    /// The symbol of the next token.
    pub fn symbol(&self) -> Symbol
        ensures { result ≡ spec.next self.now }
    {
        self.symbol
    }

    /// The symbol of the token behind the next one.
    #[tactic(auto, unfolding(ja_grammar::specs::Input::head, ja_grammar::specs::Input::behind, ja_syntax::specs::Symbols::symbol_of))]
    pub fn second(&self) -> Symbol
        ensures { result ≡ spec.next (spec.behind self.now) }
    {
        match self.rest.split_first() {
            Some((_, rest)) => symbol_ahead(rest),
            None => Symbol::End,
        }
    }

    /// At the token behind the next one.
    #[tactic(auto, unfolding(ja_grammar::specs::Input::behind))]
    pub fn behind(&self) -> Cursor<'a>
        ensures { result ≡ spec.behind self.now }
    {
        match self.rest.split_first() {
            Some((_, rest)) => Cursor::new(rest),
            None => Cursor::new(&[]),
        }
    }

    /// The place of the next token; that of the end, behind the last token, is line 0, column 0.
    #[tactic(auto, unfolding(ja_grammar::specs::Input::head))]
    pub fn place(&self) -> Place
        ensures { result ≡ (spec.head self.now).place }
    {
        match self.rest.first() {
            Some(token) => token.place,
            None => Place { line: 0, column: 0 },
        }
    }

    /// Whether a line terminator stands before the next token.
    #[tactic(auto, unfolding(ja_grammar::specs::Input::head))]
    pub fn line_before(&self) -> bool
        ensures { result ≡ spec.new_line self.now }
    {
        match self.rest.first() {
            Some(token) => token.line_before,
            None => false,
        }
    }

    /// The text of the next token, if it is a word, and else none.
    #[tactic(auto, unfolding(ja_grammar::specs::Input::head, ja_syntax::specs::Symbols::word_of))]
    pub fn word(&self) -> &'a [u16]
        ensures value { result.now ≡ forms.word (spec.head self.now) }
        ensures within { length result.now ≤ max_units }
    {
        match self.rest.first() {
            Some(token) => word_of(&token.kind),
            None => &[],
        }
    }

    /// The text of the next token, if it is a word, and else the empty one. It shares the token's
    /// units. It fails where memory is refused.
    #[tactic(auto, unfolding(ja_grammar::specs::Input::head, ja_syntax::specs::Symbols::word_of))]
    pub fn shared_word(&self, alloc: Global) -> Result<Text16, AllocError>
        ensures { IfOk result (λ text. text ≡ forms.word (spec.head self.now)) }
    {
        match self.rest.first() {
            Some(token) => shared_word(alloc, &token.kind),
            None => Text16::from_slice(alloc, &[]),
        }
    }

    /// The text of the next token, if it is a string literal, and else the empty one. It shares the
    /// token's units. It fails where memory is refused.
    #[tactic(auto, unfolding(ja_grammar::specs::Input::head, ja_syntax::specs::Symbols::units_of))]
    pub fn shared_units(&self, alloc: Global) -> Result<Text16, AllocError>
        ensures { IfOk result (λ text. text ≡ symbols.units_of (spec.head self.now).kind) }
    {
        match self.rest.first() {
            Some(token) => shared_units(alloc, &token.kind),
            None => Text16::from_slice(alloc, &[]),
        }
    }

    /// The value of the next token, if it is a numeric literal, and else 0.
    #[tactic(auto, unfolding(ja_grammar::specs::Input::head, ja_syntax::specs::Symbols::number_of))]
    pub fn number(&self) -> Int
        ensures { result ≡ symbols.number_of (spec.head self.now).kind }
    {
        match self.rest.first() {
            Some(token) => number_of(&token.kind),
            None => zero(),
        }
    }

    /// Whether the next token is the word `arguments`.
    #[tactic(auto, unfolding(ja_grammar::specs::Input::head, ja_syntax::specs::Symbols::is_arguments))]
    pub fn is_arguments(&self) -> bool
        ensures { result ≡ symbols.is_arguments (spec.head self.now).kind }
    {
        match self.rest.first() {
            Some(token) => is_arguments(&token.kind),
            None => false,
        }
    }

    /// The kind of scope that the next token is refused with, where no rule takes it; a token that
    /// is merely wrong has none.
    #[tactic(auto, unfolding(ja_grammar::specs::Input::head, ja_syntax::specs::Symbols::fault_of))]
    pub fn scope(&self) -> Option<ScopeKind>
        ensures { result ≡ symbols.fault_of (spec.head self.now).kind }
    {
        match self.rest.first() {
            Some(token) => scope_of(&token.kind),
            None => None,
        }
    }

    /// The next token as an identifier.
    pub fn name(&self, alloc: Global) -> Result<Name, AllocError>
        ensures { IfOk result (λ name. name ≡ forms.name_of (spec.head self.now)) }
    {
        Ok(Name {
            text: self.shared_word(alloc)?,
            place: self.place(),
        })
    }

    /// Whether the next token has this symbol.
    pub fn sees(&self, symbol: Symbol) -> bool
        ensures { result ≡ symbols.same_symbol (spec.next self.now) symbol }
    {
        same_symbol(self.symbol, symbol)
    }

    /// Takes the next token, where there is one.
    #[tactic(auto, unfolding(ja_grammar::specs::Input::behind))]
    pub fn take(&mut self)
        ensures { self.new ≡ spec.behind self.old }
    {
        if let Some((_, rest)) = self.rest.split_first() {
            self.rest = rest;
            self.symbol = symbol_ahead(rest);
        }
    }

    /// Takes a token that counts, where `depth` levels are left.
    #[tactic(auto, unfolding(ja_grammar::specs::Input::enter, ja_grammar::specs::Input::strict))]
    pub fn enter(&mut self, depth: usize) -> Result<(), Stop>
        ensures { Takes (spec.enter (spec.strict depth) self.old) self.old result self.new }
    {
        if depth == 0 {
            return Err(Stop::Refused(Refusal::Deep));
        }
        self.take();
        Ok(())
    }

    /// Takes a token with this symbol, which counts, where `depth` levels are left.
    #[tactic(auto, unfolding(ja_grammar::specs::Input::opening))]
    pub fn opening(&mut self, depth: usize, symbol: Symbol) -> Result<(), Stop>
        ensures { Takes (spec.opening (spec.strict depth) symbol self.old) self.old result self.new }
    {
        if self.sees(symbol) {
            self.enter(depth)
        } else {
            Err(Stop::Refused(Refusal::Unexpected))
        }
    }

    /// Takes a token with this symbol.
    #[tactic(auto, unfolding(ja_grammar::specs::Input::expect))]
    pub fn expect(&mut self, symbol: Symbol) -> Result<(), Stop>
        ensures { Takes (spec.expect symbol self.old) self.old result self.new }
    {
        if self.sees(symbol) {
            self.take();
            Ok(())
        } else {
            Err(Stop::Refused(Refusal::Unexpected))
        }
    }
}
