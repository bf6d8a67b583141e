use crate::token::TokenKind;

/// What some characters begin with, and how many characters it is.
#[derive(Drop)]
pub enum Element {
    /// White space, a line terminator or a comment (ES3 7.2 to 7.4).
    Blank { length: usize },
    Token { kind: TokenKind, length: usize },
}
