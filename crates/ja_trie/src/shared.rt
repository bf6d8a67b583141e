ghost use Rattle.std.specs.Prelude.{◌≡◌, ℕ, ◌<◌, IfOk, OnErr, length, replicate, slice_index_or};
ghost use Rattle.std.specs.Prelude.{slice_set, nat_lt};
ghost use Rattle.ja_trie.specs.Join.{Joined, MayAnswer};
ghost use Rattle.ja_trie.specs.Nodes.{ArePaths};
ghost use Rattle.ja_trie.specs.Run.{IsRun};
ghost use Rattle.ja_trie.specs.Test.{MaySay, SaysOfPlaces};

use crate::node::{FAN_OUT, Node};
use crate::steps::Steps;
use ja_base::Memory;
use std::alloc::Global;
use std::marker::Model;
use std::rc::Rc;
use std::sync::ledger::Ledger;

/// A list whose length is chosen when it is made, and which shares what it has in common with the
/// lists that it was forked from. Contracts see its values. No value is ever copied.
#[derive(Drop)]
pub struct Shared<T> {
    alloc: Global,
    length: u32,
    /// The places below each kid of the root.
    width: u32,
    root: Rc<Node<T>>,
}

impl<T> Model for Shared<T> {
    ghost use Rattle.std.specs.Prelude.{List, take};

    ghost Value = { List T };

    ghost use Rattle.ja_trie.specs.code.Shared.{IsShared};

    ghost view = { λ s. take s.length s.root.value };

    ghost invariant = { λ s. IsShared s.length s.width s.root.value };
}

impl<T: Drop> Shared<T> {
    /// A list of `length` places, which may be 0, with one value at each: nodes share their kids,
    /// so there is one a level. There is none where memory is refused.
    pub fn new<L: Ledger>(
        alloc: Global,
        length: u32,
        value: T,
        steps: &mut Steps<L>,
    ) -> Result<Shared<T>, Memory>
        ensures ok { IfOk result (λ list. list ≡ replicate length value) }
        ensures nodes { ArePaths length 1 steps.old steps.new }
    {
        let value = Rc::new(alloc, value)?;
        let mut root = Node::of_value(alloc, &value, steps)?;
        let mut width = 1u32;
        while u64::from(width) * (FAN_OUT as u64) < u64::from(length) {
            root = Node::of_node(alloc, &root, steps)?;
            width *= FAN_OUT;
        }
        Ok(Shared {
            alloc,
            length,
            width,
            root,
        })
    }

    /// The value at a place, counted from 0. It goes down one node a level, and takes no memory.
    pub fn get(&self, index: u32) -> &T
        requires { index < length self.now }
        ensures { result.now ≡ slice_index_or self.now index result.now }
    {
        self.root.get(index, self.width)
    }

    /// The end of a run: a place behind `index` up to which each place has the value at `index`. It
    /// goes down one node a level, and takes no memory. A run goes on as far as nodes have one kid
    /// eight times; one of equal values that were put one by one ends behind its first place.
    pub fn run_end(&self, index: u32) -> u32
        requires { index < length self.now }
        ensures { IsRun self.now index result }
    {
        let end = self.root.run_end(index, self.width);
        end.min(u64::from(self.length)) as u32
    }

    /// An equal list. It has no counter to make a node with, and shares the root: that costs the
    /// same for each length, and takes no memory. There is none where the root can't be shared once
    /// more.
    pub fn fork(&self) -> Result<Shared<T>, Memory>
        ensures ok { IfOk result (λ copy. copy ≡ self.now) }
    {
        Ok(Shared {
            alloc: self.alloc,
            length: self.length,
            width: self.width,
            root: self.root.clone()?,
        })
    }

    /// Puts a value at a place, counted from 0: in the nodes that no other list shares, and from
    /// the first shared one downwards in new ones, at most one a level. Where memory is refused the
    /// list is as it was.
    pub fn set<L: Ledger>(
        &mut self,
        index: u32,
        value: T,
        steps: &mut Steps<L>,
    ) -> Result<(), Memory>
        requires { index < length self.old }
        ensures ok { IfOk result (λ _. self.new ≡ slice_set self.old index value) }
        ensures err { OnErr result (self.new ≡ self.old) }
        ensures nodes { ArePaths (length self.old) 1 steps.old steps.new }
    {
        let value = Rc::new(self.alloc, value)?;
        let (alloc, width) = (self.alloc, self.width);
        Node::put(&mut self.root, alloc, index, width, value, steps)?;
        Ok(())
    }

    /// Joins the list with one of the same length, place by place: a place keeps its value where
    /// `join` answers none, and has the value that it answers else. `join` is asked at each place,
    /// but once for all places of two nodes that have one value each throughout. Answers whether a
    /// place was put; where none was, no node was made, and else at most one a level for each place
    /// that was put. Where memory is refused, by `join` or else, the list is as it was, and nodes
    /// may have been made and thrown away, at most one a level for each place.
    pub fn join_with<L: Ledger, F: Fn(&T, &T) -> Result<Option<T>, Memory>>(
        &mut self,
        other: &Shared<T>,
        join: F,
        steps: &mut Steps<L>,
    ) -> Result<bool, Memory>
        requires same { length other.now ≡ length self.old }
        requires may { F.IsAlwaysCallable join }
        ensures ok { IfOk result (λ put. (puts : ℕ) × (put ≡ nat_lt 0 puts)
            × Joined (MayAnswer F.Fn join) self.old other.now self.new puts
            × ArePaths (length self.old) puts steps.old steps.new) }
        ensures err { OnErr result (self.new ≡ self.old) }
        ensures long { length self.new ≡ length self.old }
        ensures most { ArePaths (length self.old) (length self.old) steps.old steps.new }
    {
        let joined = self.root.join(
            &other.root,
            self.alloc,
            self.length,
            self.width,
            &join,
            steps,
        )?;
        match joined {
            Some(root) => {
                self.root = root;
                Ok(true)
            }
            None => Ok(false),
        }
    }

    /// Whether a test holds of the values at each place of the list and of one of the same length.
    /// It goes through both once, and once through nodes that have one kid eight times on both
    /// sides. It takes no memory, and ends at the first place where the test doesn't hold.
    pub fn all_with<F: Fn(&T, &T) -> bool>(&self, other: &Shared<T>, test: F) -> bool
        requires same { length other.now ≡ length self.now }
        requires may { F.IsAlwaysCallable test }
        ensures { SaysOfPlaces (MaySay F.Fn test) self.now other.now result }
    {
        self.root
            .all_with(&other.root, self.length, self.width, &test)
    }
}
