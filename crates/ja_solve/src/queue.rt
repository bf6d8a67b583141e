//! A queue of items: Open first, and then by contexts, the last function first: the fills into a
//! context, the steps of its nodes in order, and what it gives back along the edges into it.

ghost use Rattle.std.specs.Prelude.{◌≡◌, ◌+◌, IfNone, IfSome};
ghost use Rattle.std.specs.BTreeMap.{btree_map_len};

use ja_base::{Context, Memory};
use ja_rows::{Edge, Item};
use ja_value::label_number;
use std::alloc::Global;
use std::collections::BTreeMap;

// Where an item stands: by its context, by its kind and node there, and by the caller of an edge.
type Turn = ((u32, u64), (u32, u32), (u32, u64));

// The greatest function and receiver come first.
fn last_first(context: Context) -> (u32, u64) {
    (
        u32::MAX - context.function.0,
        u64::MAX - label_number(context.receiver),
    )
}

fn edge_turn(edge: Edge, kind: u32) -> Turn {
    (
        last_first(edge.callee),
        (kind, edge.node.0),
        (edge.caller.function.0, label_number(edge.caller.receiver)),
    )
}

fn turn_of(item: Item) -> Turn {
    match item {
        Item::Open => ((0, 0), (0, 0), (0, 0)),
        Item::Step { context, node } => (last_first(context), (1, node.0), (0, 0)),
        Item::Fill(edge) => edge_turn(edge, 0),
        Item::Back(edge) => edge_turn(edge, 2),
    }
}

/// Items in the order of their turns, each once.
#[derive(Drop)]
pub(crate) struct Queue {
    pub(crate) items: BTreeMap<Turn, Item>,
}

impl Queue {
    /// No item.
    pub(crate) fn new(alloc: Global) -> Queue {
        Queue {
            items: BTreeMap::new(alloc),
        }
    }

    /// Puts an item in, if it isn't there.
    pub(crate) fn push(&mut self, item: Item) -> Result<(), Memory> {
        self.items.insert(turn_of(item), item)?;
        Ok(())
    }

    /// Takes the item out whose turn is next.
    pub(crate) fn pop(&mut self) -> Option<Item>
        ensures fewer { IfSome result (λ _. btree_map_len self.new.items + 1
            ≡ btree_map_len self.old.items) }
    {
        let (_, item) = self.items.pop_first()?;
        Some(item)
    }

    /// Takes an item out, if it is there.
    pub(crate) fn take(&mut self, item: Item) -> Option<Item>
        ensures fewer { IfSome result (λ _. btree_map_len self.new.items + 1
            ≡ btree_map_len self.old.items) }
        ensures none { IfNone result (btree_map_len self.new.items
            ≡ btree_map_len self.old.items) }
    {
        self.items.remove(&turn_of(item))
    }

    /// Puts in the items of another queue.
    pub(crate) fn join(&mut self, other: &Queue) -> Result<(), Memory> {
        for (_, item) in &other.items {
            self.push(*item)?;
        }
        Ok(())
    }
}
