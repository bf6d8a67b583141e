//! The numbers of names.

ghost use Rattle.std.specs.Prelude.{◌≡◌, ◌+◌, ◌<◌, ◌≤◌, ◌^◌, [], length, IfOk, OnOk};
ghost use Rattle.ja_lower_names.specs.Names as spec;

use ja_base::{Memory, NameId, Seq};
use ja_prim::Text16;
use std::alloc::Global;
use std::marker::Model;

/// Names, each once, in the order in which they were added, and the number of each. They are fewer
/// than 2^32. Contracts see the list of texts.
#[derive(Drop)]
pub struct Names<'a> {
    list: ja_syntax::Names<'a>,
}

impl<'a> Model for Names<'a> {
    ghost use Rattle.std.specs.Prelude.{◌<◌, ◌^◌, ℕ, List, length};

    ghost Value = { List (List ℕ) };

    ghost view = { λ n. n.list };

    ghost invariant = { λ n. length n.list < 2 ^ 32 };
}

impl<'a> Names<'a> {
    /// No names.
    pub fn new(alloc: Global) -> Self
        ensures { result ≡ [] }
    {
        Names {
            list: ja_syntax::Names::new(alloc),
        }
    }

    /// How many they are.
    pub fn len(&self) -> usize
        ensures { result ≡ length self.now }
    {
        self.list.len()
    }

    /// The number of a name: its place among the names, or the number behind the last one where it
    /// isn't one of them.
    pub fn number(&self, text: &[u16]) -> NameId
        ensures { result ≡ spec.number self.now text.now }
    {
        NameId(self.list.place(text) as u32)
    }

    /// Adds a name, if it isn't one yet.
    pub fn add(&mut self, text: &'a Text16) -> Result<(), Memory>
        requires { length self.old + 1 < 2 ^ 32 }
        ensures names { OnOk result (self.new ≡ spec.with_name self.old text.now) }
        ensures few { OnOk result (length self.new ≤ length self.old + 1) }
    {
        self.list.add(text)
    }

    /// The texts of the names, in memory of their own.
    pub fn texts(&self, alloc: Global) -> Result<Seq<Text16>, Memory>
        ensures { IfOk result (λ texts. texts ≡ self.now) }
    {
        self.list.texts(alloc)
    }
}
