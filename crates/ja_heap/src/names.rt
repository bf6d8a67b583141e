//! The names that `for`-`in` shows (ES3 12.6.4).
ghost use Rattle.std.specs.Prelude.{◌≡◌, ℕ, List, ◌++◌, ◌||◌, nat_eq, not};
ghost use Rattle.std.specs.Prelude.{IfOk, OnOk, filter, is_some};
ghost use Rattle.std.specs.Cmp.Lexicographic.{pointwise};
ghost use Rattle.std.specs.HashSet.{contains};
ghost use Rattle.ja_machine.specs.Enumeration as spec;
ghost use Rattle.ja_machine.specs.Heap.{own};

use crate::Heap;
use ja_base::Memory;
use ja_machine::Addr;
use ja_prim::Text16;
use std::alloc::Global;
use std::collections::HashSet;

impl Heap {
    /// Appends the own names of an object that it shows, but those of a set.
    fn push_names(
        &self,
        names: &mut Vec<Text16>,
        hidden: &HashSet<Text16>,
        a: Addr,
    ) -> Result<(), Memory>
        ensures { OnOk result (names.new.items ≡ names.old.items
            ++ filter (λ name. not (contains (pointwise nat_eq) hidden.now name))
            (spec.own_names self.now a)) }
    {
        match self.object(a) {
            Some(object) => object.properties().push_shown(names, hidden),
            None => Ok(()),
        }
    }

    /// Adds the own names of an object to a set.
    fn add_names(&self, names: &mut HashSet<Text16>, a: Addr) -> Result<(), Memory>
        ensures { OnOk result ((name : List ℕ) → contains (pointwise nat_eq) names.new name
            ≡ (contains (pointwise nat_eq) names.old name || is_some (own self.now a name))) }
    {
        match self.object(a) {
            Some(object) => object.properties().add_names(names),
            None => Ok(()),
        }
    }

    /// The names that an object shows: its own in order of insertion, then those that it inherits.
    /// Each name is looked for once, among those of the objects before.
    pub fn names(&self, alloc: Global, a: Addr) -> Result<Vec<Text16>, Memory>
        ensures { IfOk result (λ names. names.items ≡ spec.names self.now a) }
    {
        let chain = self.prototypes(alloc, a)?;
        let mut names = Vec::new(alloc);
        let mut nearer = HashSet::new(alloc);
        for depth in 0..chain.len() {
            let b = chain[depth];
            self.push_names(&mut names, &nearer, b)?;
            self.add_names(&mut nearer, b)?;
        }
        Ok(names)
    }
}
