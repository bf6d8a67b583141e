//! What the definition of tokens comes to, in the words of ES3 section 7. The functions do nothing;
//! their contracts are the laws.
ghost use Rattle.std.specs.Prelude.{◌≡◌, ◌≢◌, ◌≤◌, ◌++◌, ℕ, List, true, length, take};
ghost use Rattle.std.specs.List.{Contains};
ghost use Rattle.std.specs.Str.{IsUtf8};
ghost use Rattle.ja_lex.specs.declared.element.Element.TheVariants as element;
ghost use Rattle.ja_lex.specs.declared.token.TokenFault.{TokenFault};
ghost use Rattle.ja_lex.specs.declared.token.TokenKind.TheVariants as kind;
ghost use Rattle.ja_lex.specs.Laws.{IsEnded, AreInOrder, IsLongestMark, IsDecimal};
ghost use Rattle.ja_lex.specs.Marks.{marks, mark, bad};
ghost use Rattle.ja_lex.specs.Numbers.{decimal_length};
ghost use Rattle.ja_lex.specs.Tokens.{begins_number, first_element, tokens};

/// Of each text the last token is the end or a refusal, and no other is.
#[tactic(auto, using(crate::proofs::Endings::tokens_end_once))]
pub fn texts_end_once()
    ensures { (text : List ℕ) → IsEnded (tokens text) }
{}

/// The spans of the tokens of a text stand one behind the other in it.
#[tactic(auto, using(crate::proofs::Spans::spans_in_order))]
pub fn spans_are_in_order()
    ensures { (text : List ℕ) → IsUtf8 text → AreInOrder 0 (length text) (tokens text) }
{}

/// A mark that is read is one that the text begins with, and no longer one is (7.7). Where the rule
/// for marks refuses the text, it begins with none.
pub fn marks_are_longest()
    ensures taken { (text m : List ℕ) (n : ℕ) → first_element text ≡ element.Token (kind.Mark m) n
        → IsLongestMark text m × (n ≡ length m) }
    ensures none { (text m rest : List ℕ) (fault : TokenFault) → mark text ≡ bad fault
        → Contains marks m → text ≢ m ++ rest }
{}

/// What is read where a number begins and no hexadecimal literal stands is a decimal literal
/// (7.8.3), and none that stands there is longer.
#[tactic(auto, using(crate::proofs::Literals::decimal_is, crate::proofs::Longest::decimal_longest))]
pub fn decimals_are_longest()
    ensures literal { (text : List ℕ) → begins_number text ≡ true
        → IsDecimal (take (decimal_length text) text) }
    ensures longest { (word rest : List ℕ) → IsDecimal word
        → length word ≤ decimal_length (word ++ rest) }
{}
