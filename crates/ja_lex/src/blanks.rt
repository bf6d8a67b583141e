ghost use Rattle.std.specs.Prelude.{◌≡◌, ◌≤◌, length, IfSome};
ghost use Rattle.ja_lex.specs.Spots.{max_bytes};
ghost use Rattle.ja_lex.specs.Blanks as spec;
ghost use Rattle.ja_lex.specs.Tokens.{line_comment};

use crate::characters::{Class, behind, char_at, run_length};
use crate::element::Element;
use crate::marks::bad;
use crate::token::TokenFault;

/// How many characters there are up to the first `*/`, with it.
#[tactic(auto, unfolding(crate::specs::Blanks::closing))]
fn closing(text: &[char]) -> Option<usize>
    ensures value { result ≡ spec.closing text.now }
    ensures within { IfSome result (λ n. n ≤ length text.now) }
{
    let mut rest = text;
    let mut count = 0;
    'rest: while let [first, more @ ..] = rest {
        count += 1;
        if *first == '*' && char_at(more, 0) == '/' {
            return Some(count + 1);
        }
        rest = more;
    }
    None
}

/// A comment that begins with `//`.
pub fn line_comment(text: &[char]) -> Element
    ensures { result ≡ line_comment text.now }
{
    Element::Blank {
        length: run_length(Class::InLine, text),
    }
}

/// A comment that begins with `/*`.
#[tactic(auto, unfolding(crate::specs::Blanks::long_comment))]
pub fn long_comment(text: &[char]) -> Element
    requires { length text.now ≤ max_bytes }
    ensures { result ≡ spec.long_comment text.now }
{
    match closing(behind(text, 2)) {
        None => bad(TokenFault::Lexical),
        Some(count) => Element::Blank { length: 2 + count },
    }
}
