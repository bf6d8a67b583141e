//! Words of kinds.

ghost use Rattle.std.specs.Prelude.{◌≡◌, ◌||◌, map, not};
ghost use Rattle.ja_lint_devices.specs.Devices as spec;
ghost use Rattle.ja_lint_devices.specs.Devices.{kind_words};
ghost use Rattle.ja_lint_devices.specs.code.Reading.{IsFirstWord};

use ja_prim::Kinds;

/// Whether a word is one of these.
pub fn is_among(words: &[&str], word: &str) -> bool
    ensures { result ≡ spec.is_among (map (λ w. w.now) words.now) word.now }
{
    for other in words {
        if word == *other {
            return true;
        }
    }
    false
}

/// Whether a word is that of a kind.
pub(crate) fn is_kind(word: &str) -> bool
    ensures { result ≡ spec.is_among kind_words word.now }
{
    word == "undefined"
        || word == "null"
        || word == "boolean"
        || word == "number"
        || word == "string"
}

/// The kinds of these words.
pub(crate) fn kinds_of(words: &[&str]) -> Kinds
    ensures { result ≡ spec.kinds_of (map (λ w. w.now) words.now) }
{
    Kinds {
        undefined: is_among(words, "undefined"),
        null: is_among(words, "null"),
        boolean: is_among(words, "boolean"),
        number: is_among(words, "number"),
        text: is_among(words, "string"),
    }
}

/// Whether a word behind others is that of no kind, or stood before.
fn is_wrong(before: &[&str], word: &str) -> bool
    ensures { result ≡ (not (spec.is_among kind_words word.now)
        || spec.is_among (map (λ w. w.now) before.now) word.now) }
{
    !is_kind(word) || is_among(before, word)
}

/// The index of the first word with which they are no longer those of kinds, each once.
pub(crate) fn first_fault(words: &[&str]) -> Option<usize>
    ensures { IsFirstWord (map (λ w. w.now) words.now) result }
{
    for (index, word) in words.iter().enumerate() {
        if is_wrong(&words[..index], word) {
            return Some(index);
        }
    }
    None
}
