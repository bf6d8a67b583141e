//! The numbers that options take.

ghost use Rattle.std.specs.Prelude.{◌≡◌, ◌≤◌, ◌↔◌, ◌<◌, ◌^◌, IfSome, IsTrue, option_map};
ghost use Rattle.ja_words.specs.code.Answers.{Counts, ReadsNumber, Spells};

use itoa::Buffer;

// Whether a word is this number, in decimal digits without a zero before them.
fn is_spelled(word: &str, number: u128, most: u128) -> bool
    ensures { IsTrue result ↔ Spells most word.now number }
{
    let mut buffer = Buffer::new();
    1 <= number && number <= most && buffer.format(number) == word
}

/// The number that a word is, from 1 to `most`.
pub(crate) fn number_in(word: &str, most: u128) -> Option<u128>
    ensures { Counts most word.now result }
{
    match word.parse::<u128>() {
        Ok(number) => {
            if is_spelled(word, number, most) {
                Some(number)
            } else {
                None
            }
        }
        Err(_) => None,
    }
}

/// The number that an option has by the value that it was given, if any: from 1 to `most`, and
/// `default` where no value was given. `None` where the value is no such number.
pub(crate) fn number_of(value: Option<&str>, default: u128, most: u128) -> Option<u128>
    requires { default ≤ most }
    ensures number { ReadsNumber default most (option_map (λ word. word.now) value.entry) result }
    ensures bounded { IfSome result (λ number. number ≤ most) }
{
    match value {
        None => Some(default),
        Some(word) => number_in(word, most),
    }
}
