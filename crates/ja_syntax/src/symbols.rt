//! What the grammar sees of a token, by tables of words and punctuators. Each table is cut by the
//! length of its texts, so that a token is compared with few of them.

ghost use Rattle.std.specs.Prelude.{◌≡◌, ◌==◌, length, map};
ghost use Rattle.ja_syntax.specs.code.Lookups.{of_length};
ghost use Rattle.ja_syntax.specs.Lookups as tables;
ghost use Rattle.ja_syntax.specs.Symbols as spec;

use crate::symbol::Symbol;
use ja_base::ScopeKind;
use ja_lex::{TokenFault, TokenKind};
use ja_prim::spells;

const KEYWORDS_OF_2: [(&[u8], Symbol); 3] = [
    (b"do", Symbol::Do),
    (b"if", Symbol::If),
    (b"in", Symbol::In),
];

const KEYWORDS_OF_3: [(&[u8], Symbol); 4] = [
    (b"for", Symbol::For),
    (b"new", Symbol::New),
    (b"try", Symbol::Try),
    (b"var", Symbol::Var),
];

const KEYWORDS_OF_4: [(&[u8], Symbol); 6] = [
    (b"case", Symbol::Case),
    (b"else", Symbol::Else),
    (b"null", Symbol::Null),
    (b"this", Symbol::This),
    (b"true", Symbol::True),
    (b"void", Symbol::Void),
];

const KEYWORDS_OF_5: [(&[u8], Symbol); 5] = [
    (b"break", Symbol::Break),
    (b"catch", Symbol::Catch),
    (b"false", Symbol::False),
    (b"throw", Symbol::Throw),
    (b"while", Symbol::While),
];

const KEYWORDS_OF_6: [(&[u8], Symbol); 4] = [
    (b"delete", Symbol::Delete),
    (b"return", Symbol::Return),
    (b"switch", Symbol::Switch),
    (b"typeof", Symbol::Typeof),
];

const KEYWORDS_OF_7: [(&[u8], Symbol); 2] = [
    (b"default", Symbol::Default),
    (b"finally", Symbol::Finally),
];

const KEYWORDS_OF_8: [(&[u8], Symbol); 2] = [
    (b"continue", Symbol::Continue),
    (b"function", Symbol::Function),
];

const KEYWORDS_OF_10: [(&[u8], Symbol); 1] = [(b"instanceof", Symbol::Instanceof)];

const REFUSED_WORDS_OF_3: [(&[u8], ScopeKind); 1] = [(b"int", ScopeKind::ReservedWord)];

const REFUSED_WORDS_OF_4: [(&[u8], ScopeKind); 7] = [
    (b"eval", ScopeKind::Eval),
    (b"with", ScopeKind::With),
    (b"byte", ScopeKind::ReservedWord),
    (b"char", ScopeKind::ReservedWord),
    (b"enum", ScopeKind::ReservedWord),
    (b"goto", ScopeKind::ReservedWord),
    (b"long", ScopeKind::ReservedWord),
];

const REFUSED_WORDS_OF_5: [(&[u8], ScopeKind); 6] = [
    (b"class", ScopeKind::ReservedWord),
    (b"const", ScopeKind::ReservedWord),
    (b"final", ScopeKind::ReservedWord),
    (b"float", ScopeKind::ReservedWord),
    (b"short", ScopeKind::ReservedWord),
    (b"super", ScopeKind::ReservedWord),
];

const REFUSED_WORDS_OF_6: [(&[u8], ScopeKind); 7] = [
    (b"double", ScopeKind::ReservedWord),
    (b"export", ScopeKind::ReservedWord),
    (b"import", ScopeKind::ReservedWord),
    (b"native", ScopeKind::ReservedWord),
    (b"public", ScopeKind::ReservedWord),
    (b"static", ScopeKind::ReservedWord),
    (b"throws", ScopeKind::ReservedWord),
];

const REFUSED_WORDS_OF_7: [(&[u8], ScopeKind); 4] = [
    (b"boolean", ScopeKind::ReservedWord),
    (b"extends", ScopeKind::ReservedWord),
    (b"package", ScopeKind::ReservedWord),
    (b"private", ScopeKind::ReservedWord),
];

const REFUSED_WORDS_OF_8: [(&[u8], ScopeKind); 3] = [
    (b"abstract", ScopeKind::ReservedWord),
    (b"debugger", ScopeKind::ReservedWord),
    (b"volatile", ScopeKind::ReservedWord),
];

const REFUSED_WORDS_OF_9: [(&[u8], ScopeKind); 3] = [
    (b"interface", ScopeKind::ReservedWord),
    (b"protected", ScopeKind::ReservedWord),
    (b"transient", ScopeKind::ReservedWord),
];

const REFUSED_WORDS_OF_10: [(&[u8], ScopeKind); 1] = [(b"implements", ScopeKind::ReservedWord)];

const REFUSED_WORDS_OF_12: [(&[u8], ScopeKind); 1] = [(b"synchronized", ScopeKind::ReservedWord)];

const PUNCTUATORS_OF_1: [(&[u8], Symbol); 24] = [
    (b"{", Symbol::OpenBrace),
    (b"}", Symbol::CloseBrace),
    (b"(", Symbol::OpenParenthesis),
    (b")", Symbol::CloseParenthesis),
    (b"[", Symbol::OpenBracket),
    (b"]", Symbol::CloseBracket),
    (b".", Symbol::Dot),
    (b";", Symbol::Semicolon),
    (b",", Symbol::Comma),
    (b"<", Symbol::Less),
    (b">", Symbol::Greater),
    (b"+", Symbol::Plus),
    (b"-", Symbol::Minus),
    (b"*", Symbol::Times),
    (b"%", Symbol::Remainder),
    (b"&", Symbol::BitAnd),
    (b"|", Symbol::BitOr),
    (b"^", Symbol::BitXor),
    (b"!", Symbol::Not),
    (b"~", Symbol::Complement),
    (b"?", Symbol::Question),
    (b":", Symbol::Colon),
    (b"=", Symbol::Assign),
    (b"/", Symbol::Divide),
];

const PUNCTUATORS_OF_2: [(&[u8], Symbol); 18] = [
    (b"<=", Symbol::LessEqual),
    (b">=", Symbol::GreaterEqual),
    (b"==", Symbol::Equal),
    (b"!=", Symbol::NotEqual),
    (b"++", Symbol::Increment),
    (b"--", Symbol::Decrement),
    (b"<<", Symbol::ShiftLeft),
    (b">>", Symbol::ShiftRight),
    (b"&&", Symbol::And),
    (b"||", Symbol::Or),
    (b"+=", Symbol::PlusAssign),
    (b"-=", Symbol::MinusAssign),
    (b"*=", Symbol::TimesAssign),
    (b"%=", Symbol::RemainderAssign),
    (b"&=", Symbol::BitAndAssign),
    (b"|=", Symbol::BitOrAssign),
    (b"^=", Symbol::BitXorAssign),
    (b"/=", Symbol::DivideAssign),
];

const PUNCTUATORS_OF_3: [(&[u8], Symbol); 5] = [
    (b"===", Symbol::StrictEqual),
    (b"!==", Symbol::StrictNotEqual),
    (b">>>", Symbol::ShiftRightUnsigned),
    (b"<<=", Symbol::ShiftLeftAssign),
    (b">>=", Symbol::ShiftRightAssign),
];

const PUNCTUATORS_OF_4: [(&[u8], Symbol); 1] = [(b">>>=", Symbol::ShiftRightUnsignedAssign)];

/// What a table gives for a text.
fn lookup<T: Copy>(mut table: &[(&[u8], T)], units: &[u16]) -> Option<T>
    ensures { result ≡ tables.lookup (map (λ e. (e.0.now, e.1)) table.entry.now) units.now }
{
    while let [entry, rest @ ..] = table {
        if spells(units, entry.0) {
            return Some(entry.1);
        }
        table = rest;
    }
    None
}

/// The keywords of a length.
#[tactic(auto, unfolding(crate::specs::Symbols::keywords))]
fn keywords_of(length: usize) -> &'static [(&'static [u8], Symbol)]
    ensures { map (λ e. (e.0.now, e.1)) result.now ≡ of_length length spec.keywords }
{
    match length {
        2 => &KEYWORDS_OF_2,
        3 => &KEYWORDS_OF_3,
        4 => &KEYWORDS_OF_4,
        5 => &KEYWORDS_OF_5,
        6 => &KEYWORDS_OF_6,
        7 => &KEYWORDS_OF_7,
        8 => &KEYWORDS_OF_8,
        10 => &KEYWORDS_OF_10,
        _ => &[],
    }
}

/// The words of a length that leave the profile.
#[tactic(auto, unfolding(crate::specs::Symbols::refused_words))]
fn refused_words_of(length: usize) -> &'static [(&'static [u8], ScopeKind)]
    ensures { map (λ e. (e.0.now, e.1)) result.now ≡ of_length length spec.refused_words }
{
    match length {
        3 => &REFUSED_WORDS_OF_3,
        4 => &REFUSED_WORDS_OF_4,
        5 => &REFUSED_WORDS_OF_5,
        6 => &REFUSED_WORDS_OF_6,
        7 => &REFUSED_WORDS_OF_7,
        8 => &REFUSED_WORDS_OF_8,
        9 => &REFUSED_WORDS_OF_9,
        10 => &REFUSED_WORDS_OF_10,
        12 => &REFUSED_WORDS_OF_12,
        _ => &[],
    }
}

/// The punctuators of a length.
#[tactic(auto, unfolding(crate::specs::Symbols::punctuators))]
fn punctuators_of(length: usize) -> &'static [(&'static [u8], Symbol)]
    ensures { map (λ e. (e.0.now, e.1)) result.now ≡ of_length length spec.punctuators }
{
    match length {
        1 => &PUNCTUATORS_OF_1,
        2 => &PUNCTUATORS_OF_2,
        3 => &PUNCTUATORS_OF_3,
        4 => &PUNCTUATORS_OF_4,
        _ => &[],
    }
}

#[tactic(auto, using(crate::proofs::Lookups::lookup_of_length))]
fn keyword(word: &[u16]) -> Option<Symbol>
    ensures { result ≡ tables.lookup spec.keywords word.now }
{
    lookup(keywords_of(word.len()), word)
}

#[tactic(auto, using(crate::proofs::Lookups::lookup_of_length))]
fn refusal(word: &[u16]) -> Option<ScopeKind>
    ensures { result ≡ tables.lookup spec.refused_words word.now }
{
    lookup(refused_words_of(word.len()), word)
}

#[tactic(auto, using(crate::proofs::Lookups::lookup_of_length))]
fn punctuator(mark: &[u16]) -> Option<Symbol>
    ensures { result ≡ tables.lookup spec.punctuators mark.now }
{
    lookup(punctuators_of(mark.len()), mark)
}

#[tactic(auto, unfolding(crate::specs::Symbols::word_symbol))]
fn word_symbol(word: &[u16]) -> Symbol
    ensures { result ≡ spec.word_symbol word.now }
{
    if let Some(symbol) = keyword(word) {
        return symbol;
    }
    if refusal(word).is_some() {
        Symbol::Foreign
    } else {
        Symbol::Name
    }
}

#[tactic(auto, unfolding(crate::specs::Symbols::mark_symbol))]
fn mark_symbol(mark: &[u16]) -> Symbol
    ensures { result ≡ spec.mark_symbol mark.now }
{
    punctuator(mark).unwrap_or(Symbol::Foreign)
}

/// The symbol of a token (ES3 7.5 to 7.8).
#[tactic(auto, unfolding(crate::specs::Symbols::symbol_of))]
pub fn symbol_of(kind: &TokenKind) -> Symbol
    ensures { result ≡ spec.symbol_of kind.now }
{
    match kind {
        TokenKind::Word(text) => word_symbol(text.units()),
        TokenKind::Number(_) => Symbol::Number,
        TokenKind::Text(_) => Symbol::Text,
        TokenKind::Mark(text) => mark_symbol(text.units()),
        TokenKind::End => Symbol::End,
        TokenKind::Bad { .. } => Symbol::Foreign,
    }
}

/// What a token that no rule takes is refused with: a scope, or (`None`) Syntax.
#[tactic(auto, unfolding(crate::specs::Symbols::fault_of))]
pub fn scope_of(kind: &TokenKind) -> Option<ScopeKind>
    ensures { result ≡ spec.fault_of kind.now }
{
    match kind {
        TokenKind::Word(text) => refusal(text.units()),
        TokenKind::Bad {
            fault: TokenFault::Scope(scope),
        } => Some(*scope),
        _ => None,
    }
}

/// Whether units are those of `arguments` (10.1.8).
#[tactic(auto, unfolding(crate::specs::Symbols::names_arguments))]
pub fn names_arguments(name: &[u16]) -> bool
    ensures { result ≡ spec.names_arguments name.now }
{
    spells(name, b"arguments")
}

/// Whether a token is the word `arguments`.
#[tactic(auto, unfolding(crate::specs::Symbols::is_arguments))]
pub fn is_arguments(kind: &TokenKind) -> bool
    ensures { result ≡ spec.is_arguments kind.now }
{
    match kind {
        TokenKind::Word(text) => names_arguments(text.units()),
        _ => false,
    }
}
