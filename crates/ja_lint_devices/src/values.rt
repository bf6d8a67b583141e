//! The parts of a value.

ghost use Rattle.std.specs.Prelude.{◌≡◌, IfOk, map};
ghost use Rattle.std.specs.List.{slice_split};
ghost use Rattle.ja_lint_devices.specs.Devices as spec;

use ja_base::{Memory, Seq};
use ja_prim::units_of;
use std::alloc::{AllocError, Global};

/// The name in a value.
pub(crate) fn name_in(value: &str) -> &str
    ensures { result.now ≡ spec.name_in value.now }
{
    match value.split_once('=') {
        Some((name, _)) => name,
        None => value,
    }
}

/// The parts between bars.
fn parts<'a>(alloc: Global, text: &'a str) -> Result<Vec<&'a str>, AllocError>
    ensures { IfOk result (λ parts. map (λ w. w.now) parts.items
        ≡ slice_split spec.is_bar text.now) }
{
    text.split('|').collect(alloc)
}

/// The words of kinds in a value.
pub(crate) fn words_in<'a>(alloc: Global, value: &'a str) -> Result<Vec<&'a str>, AllocError>
    ensures { IfOk result (λ words. map (λ w. w.now) words.items ≡ spec.words_in value.now) }
{
    match value.split_once('=') {
        Some((_, words)) => parts(alloc, words),
        None => Ok(vec![in alloc; "undefined"]?),
    }
}

/// A text in UTF-16.
#[tactic(auto, using(std::proofs::lemmas::Str::chars_from_encodes))]
pub(crate) fn units(alloc: Global, text: &str) -> Result<Seq<u16>, Memory>
    ensures { IfOk result (λ units. units ≡ spec.units text.now) }
{
    let characters: Vec<char> = text.chars().collect(alloc)?;
    let units = units_of(alloc, &characters)?;
    Ok(Seq::from_vec(units))
}
