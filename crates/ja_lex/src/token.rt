use ja_base::{Place, ScopeKind};
use ja_prim::{Int, Text16};

/// Why no token of the language stands where one begins.
#[derive(Clone, Copy, Debug, PartialEq, Eq)]
pub enum TokenFault {
    /// The token leaves the profile.
    Scope(ScopeKind),
    /// Nothing of the lexical grammar (ES3 section 7) stands there.
    Lexical,
}

/// What a token is (ES3 section 7).
#[derive(Drop)]
pub enum TokenKind {
    /// An identifier or a reserved word (7.5, 7.6).
    Word(Text16),
    /// A numeric literal (7.8.3), by its value.
    Number(Int),
    /// A string literal (7.8.4), by its units.
    Text(Text16),
    /// A punctuator (7.7).
    Mark(Text16),
    /// The end of the text.
    End,
    /// No token: the text is read no further.
    Bad { fault: TokenFault },
}

/// A token. Its span is in bytes of the text; `end` is the offset behind its last byte.
#[derive(Drop)]
pub struct Token {
    pub kind: TokenKind,
    pub start: usize,
    pub end: usize,
    /// Whether a line terminator stands between this token and the one before it (7.9).
    pub line_before: bool,
    pub place: Place,
}
