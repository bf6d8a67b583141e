//! Names, each once.

ghost use Rattle.std.specs.Prelude.{◌≡◌, ◌+◌, ◌≤◌, [], length, IfOk, OnOk};
ghost use Rattle.std.specs.List.{position_or_len};
ghost use Rattle.std.specs.Str.{bytes_eq};
ghost use Rattle.ja_syntax.specs.code.Hoisted.{with_name};

use indexmap::IndexSet;
use ja_base::{Memory, Seq};
use ja_prim::Text16;
use std::alloc::Global;
use std::marker::Model;

/// Names, each once, in the order in which they were added. Contracts see the list of texts.
#[derive(Drop)]
pub struct Names<'a> {
    texts: IndexSet<&'a [u16]>,
}

impl<'a> Model for Names<'a> {
    ghost use Rattle.std.specs.Prelude.{◌≤◌, ℕ, List, length, map};
    ghost use Rattle.std.specs.List.{All};
    ghost use Rattle.ja_prim.specs.Texts.{max_units};

    ghost Value = { List (List ℕ) };

    ghost view = { λ n. map (λ t. t.now) n.texts.keys };

    ghost invariant = { λ n. All (λ t. length t.now ≤ max_units) n.texts.keys };
}

impl<'a> Names<'a> {
    /// No names.
    pub fn new(alloc: Global) -> Self
        ensures { result ≡ [] }
    {
        Names {
            texts: IndexSet::new(alloc),
        }
    }

    /// How many they are.
    pub fn len(&self) -> usize
        ensures { result ≡ length self.now }
    {
        self.texts.len()
    }

    /// The place of a name among them, or how many they are where it isn't one of them.
    pub fn place(&self, text: &[u16]) -> usize
        ensures first { result ≡ position_or_len (bytes_eq text.now) self.now }
        ensures within { result ≤ length self.now }
    {
        match self.texts.get_index_of(text) {
            Some(place) => place,
            None => self.texts.len(),
        }
    }

    /// Adds a name, if it isn't one yet.
    pub fn add(&mut self, text: &'a Text16) -> Result<(), Memory>
        ensures names { OnOk result (self.new ≡ with_name self.old text.now) }
        ensures few { length self.new ≤ length self.old + 1 }
    {
        self.texts.insert(text.units())?;
        Ok(())
    }

    /// The texts of the names, in memory of their own.
    pub fn texts(&self, alloc: Global) -> Result<Seq<Text16>, Memory>
        ensures { IfOk result (λ texts. texts ≡ self.now) }
    {
        let mut texts = Vec::new(alloc);
        for text in self.texts.as_slice() {
            texts.push(Text16::from_slice(alloc, text)?)?;
        }
        Ok(Seq::from_vec(texts))
    }
}
