//! What a form needs of the program around it.

ghost use Rattle.std.specs.Prelude.{◌≡◌};
ghost use Rattle.ja_lower_draft.specs.Lines as lines;

use ja_base::{NameId, Place};
use ja_lower_listing::Spot;
use ja_lower_names::Names;
use std::alloc::Global;
use std::marker::Model;

/// The names of a program with their numbers; the places of its words `function`, in the order of
/// the text; the spot to which what is thrown goes, if something around the form handles it; and
/// whether names that begin with `$` are special forms, as in the texts of built-in functions.
#[derive(Drop)]
pub struct Scene<'a, 't> {
    pub alloc: Global,
    pub names: &'a Names<'t>,
    pub functions: &'a [Place],
    pub handler: Option<Spot>,
    pub specials: bool,
}

impl<'a, 't> Model for Scene<'a, 't> {
    ghost use Rattle.ja_lower_draft.specs.Lines as lines;

    ghost Value = { lines.Scene };

    ghost view = { λ s. record {
      names = s.names.now;
      functions = s.functions.now;
      handler = s.handler;
      specials = s.specials;
    } };
}

impl<'a, 't> Scene<'a, 't> {
    /// The number of a name, or the one behind the last where the program doesn't have it.
    pub fn name(&self, text: &[u16]) -> NameId
        ensures { result ≡ lines.name_id self.now text.now }
    {
        self.names.number(text)
    }
}
