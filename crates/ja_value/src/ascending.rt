ghost use Rattle.std.specs.Prelude.{◌≡◌, ◌||◌, ◌&&◌, ◌↔◌, ◌==◌, ℕ, [], not, filter, length, IfOk, OnErr, IsTrue};
ghost use Rattle.std.specs.Ordering.{nat_cmp};
ghost use Rattle.std.specs.List.Sorted.{IsStrictlySortedBy};
ghost use Rattle.ja_value.specs.Labels.{has, IsNext};

use ja_base::Memory;
use smallvec::SmallVec;
use std::alloc::Global;
use std::marker::Model;

/// Whole numbers in ascending order, each once. Contracts see the list. Two of them are kept
/// without an allocation.
#[derive(Drop)]
pub(crate) struct Ascending {
    numbers: SmallVec<u64, 2>,
}

impl Model for Ascending {
    ghost use Rattle.std.specs.Prelude.{ℕ, List};
    ghost use Rattle.std.specs.Ordering.{nat_cmp};
    ghost use Rattle.std.specs.List.Sorted.{IsStrictlySortedBy};

    ghost Value = { List ℕ };

    ghost view = { λ a. a.numbers.items };

    ghost invariant = { λ a. IsStrictlySortedBy nat_cmp a.numbers.items };
}

impl Ascending {
    /// No number.
    pub(crate) fn new(alloc: Global) -> Ascending
        ensures { result ≡ [] }
    {
        Ascending {
            numbers: SmallVec::new(alloc),
        }
    }

    /// The numbers.
    pub(crate) fn as_slice(&self) -> &[u64]
        ensures value { result.now ≡ self.now }
        ensures ordered { IsStrictlySortedBy nat_cmp self.now }
    {
        self.numbers.as_slice()
    }

    /// The same numbers once more.
    pub(crate) fn copy(&self) -> Result<Ascending, Memory>
        ensures { IfOk result (λ copy. copy ≡ self.now) }
    {
        let numbers = SmallVec::from_slice(*self.numbers.allocator(), self.numbers.as_slice())?;
        Ok(Ascending { numbers })
    }

    /// Whether a number is there.
    pub(crate) fn contains(&self, number: u64) -> bool
        ensures { result ≡ has self.now number }
    {
        self.numbers.as_slice().binary_search(&number).is_ok()
    }

    /// The first number from another one on, if there is one.
    pub(crate) fn next(&self, number: u64) -> Option<u64>
        ensures { IsNext (has self.now) number result }
    {
        let numbers = self.numbers.as_slice();
        match numbers.binary_search(&number) {
            Ok(_) => Some(number),
            Err(place) => numbers.get(place).copied(),
        }
    }

    /// Puts a number at its place, and tells whether it is new. After `Memory` the numbers are as
    /// they were.
    pub(crate) fn insert(&mut self, number: u64) -> Result<bool, Memory>
        ensures inserted { IfOk result (λ _. (q : ℕ) → has self.new q
            ≡ ((q == number) || has self.old q)) }
        ensures told { IfOk result (λ new. new ≡ not (has self.old number)) }
        ensures kept { OnErr result (self.new ≡ self.old) }
    {
        match self.numbers.as_slice().binary_search(&number) {
            Ok(_) => Ok(false),
            Err(place) => {
                self.numbers.insert(place, number)?;
                Ok(true)
            }
        }
    }

    /// Drops a number.
    pub(crate) fn remove(&mut self, number: u64)
        ensures { (q : ℕ) → has self.new q ≡ (not (q == number) && has self.old q) }
    {
        self.numbers.retain(|other| *other != number);
    }

    /// Whether each number is among others. Equal lists are compared at once.
    pub(crate) fn is_subset(&self, other: &Ascending) -> bool
        ensures { IsTrue result ↔ ((q : ℕ) → IsTrue (has self.now q) → IsTrue (has other.now q)) }
    {
        if self.numbers.as_slice() == other.numbers.as_slice() {
            return true;
        }
        for number in self.numbers.as_slice() {
            if !other.contains(*number) {
                return false;
            }
        }
        true
    }
}
