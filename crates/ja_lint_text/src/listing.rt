//! Words, and how several are listed.

ghost use Rattle.std.specs.Prelude.{◌≡◌, ◌++◌, [], ◌∷◌, IfOk, OnOk, length, take};
ghost use Rattle.ja_report.specs.Texts.{part};
ghost use Rattle.ja_lint_text.specs.Values as spec;
ghost use Rattle.ja_lint_text.specs.code.Lists.{alternatives_of, told_of};

use ja_base::{Memory, Seq};
use ja_texts::push_number;
use std::alloc::Global;

/// How many words are told.
pub(crate) const MOST_TOLD: usize = 4;

/// Adds a word.
pub(crate) fn push_word(words: &mut Vec<Seq<u8>>, word: Vec<u8>) -> Result<(), Memory>
    ensures { OnOk result (words.new.items ≡ words.old.items ++ word.items ∷ []) }
{
    words.push(Seq::from_vec(word))?;
    Ok(())
}

/// Adds words that are there or aren't.
pub(crate) fn push_part(
    alloc: Global,
    words: &mut Vec<Seq<u8>>,
    there: bool,
    word: &[u8],
) -> Result<(), Memory>
    ensures { OnOk result (words.new.items ≡ words.old.items ++ part there word.now) }
{
    if there {
        let mut copy = Vec::new(alloc);
        copy.extend_from_slice(word)?;
        push_word(words, copy)?;
    }
    Ok(())
}

// What stands behind a word, by how many are behind it.
fn between(behind: usize) -> &'static [u8]
    ensures { result.now ≡ spec.between behind }
{
    match behind {
        0 => b"",
        1 => b" or ",
        _ => b", ",
    }
}

// Adds words as people list them.
#[tactic(auto, using(crate::proofs::Rulesets::for_push_listed))]
fn push_listed(text: &mut Vec<u8>, words: &[Seq<u8>]) -> Result<(), Memory>
    ensures { OnOk result (text.new.items ≡ text.old.items ++ spec.listed words.now) }
{
    for index in 0..words.len() {
        text.extend_from_slice(words[index].as_slice())?;
        text.extend_from_slice(between(words.len() - index - 1))?;
    }
    Ok(())
}

// How many words aren't told.
fn others_text(alloc: Global, count: usize) -> Result<Vec<u8>, Memory>
    ensures { IfOk result (λ text. text.items ≡ spec.others_text count) }
{
    let mut text = Vec::new(alloc);
    if count == 1 {
        text.extend_from_slice(b"one other")?;
        return Ok(text);
    }
    text.extend_from_slice(b"one of ")?;
    push_number(&mut text, count as u64)?;
    text.extend_from_slice(b" others")?;
    Ok(text)
}

// Leaves the words that are told, of so many of which these are the first.
fn leave_told(alloc: Global, words: &mut Vec<Seq<u8>>, count: usize) -> Result<(), Memory>
    ensures { OnOk result (words.new.items ≡ told_of count words.old.items) }
{
    words.truncate(MOST_TOLD);
    if count > MOST_TOLD {
        let others = others_text(alloc, count - MOST_TOLD)?;
        push_word(words, others)?;
    }
    Ok(())
}

/// The first of so many words as alternatives, of which four are told.
pub(crate) fn alternatives(
    alloc: Global,
    words: Vec<Seq<u8>>,
    count: usize,
) -> Result<Vec<u8>, Memory>
    ensures { IfOk result (λ text. text.items ≡ alternatives_of count words.items) }
{
    let mut words = words;
    let mut text = Vec::new(alloc);
    if words.is_empty() {
        text.extend_from_slice(b"nothing")?;
        return Ok(text);
    }
    leave_told(alloc, &mut words, count)?;
    push_listed(&mut text, &words)?;
    Ok(text)
}
