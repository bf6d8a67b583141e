//! What is to be visited next: behind a visit that changed the table, the items that read what it
//! changed. No clause rests on it, since a sweep over all items shows that a table is closed.

ghost use Rattle.std.specs.Prelude.{◌≡◌, ◌+◌, IfSome};
ghost use Rattle.std.specs.BTreeMap.{btree_map_len};

use crate::queue::Queue;
use ja_abstract::Key;
use ja_aheap::key_number;
use ja_base::{Context, FnId, Label, Memory, NodeId, Site};
use ja_graph::{Node, Program};
use ja_rows::{Edge, Item};
use ja_rules::Changes;
use ja_table::{ATable, own_context};
use ja_value::label_number;
use std::alloc::Global;
use std::collections::BTreeMap;

// The numbers of a context: of its function and its receiver.
type Place = (u32, u64);

fn place_of(context: Context) -> Place {
    (context.function.0, label_number(context.receiver))
}

/// The items that are to be visited, and which other than Open was the last; by pairs at the
/// entries of contexts, the items that read them since they changed last; and the edges into each
/// context.
#[derive(Drop)]
pub(crate) struct Agenda {
    alloc: Global,
    pub(crate) queue: Queue,
    last: Item,
    readers: BTreeMap<(Place, u64, u64), Queue>,
    callers: BTreeMap<Place, Vec<Edge>>,
}

// The context whose entry an item reads.
fn reading_context(item: Item) -> Context {
    match item {
        Item::Open => own_context(),
        Item::Step { context, .. } => context,
        Item::Fill(edge) => edge.caller,
        Item::Back(edge) => edge.caller,
    }
}

// The context whose entry an item joins values into.
fn filled_context(item: Item) -> Context {
    match item {
        Item::Fill(edge) => edge.callee,
        _ => own_context(),
    }
}

// Whether a node of a function leaves it.
fn is_exit(program: &Program, context: Context, node: NodeId) -> bool {
    match program
        .functions
        .as_slice()
        .get(context.function.0 as usize)
    {
        Some(function) => match function.nodes.as_slice().get(node.0 as usize) {
            Some(info) => matches!(&info.node, Node::Return { .. } | Node::Escape),
            None => false,
        },
        None => false,
    }
}

impl Agenda {
    /// To begin with, the step of the program's first node.
    pub(crate) fn new(alloc: Global) -> Result<Agenda, Memory> {
        let first = Item::Step {
            context: own_context(),
            node: NodeId(0),
        };
        let mut queue = Queue::new(alloc);
        queue.push(first)?;
        Ok(Agenda {
            alloc,
            queue,
            last: first,
            readers: BTreeMap::new(alloc),
            callers: BTreeMap::new(alloc),
        })
    }

    /// The item whose turn is next: Open, then that which was the last, and then by the queue's
    /// order.
    pub(crate) fn next(&mut self) -> Option<Item>
        ensures fewer { IfSome result (λ _. btree_map_len self.new.queue.items + 1
            ≡ btree_map_len self.old.queue.items) }
    {
        if let Some(open) = self.queue.take(Item::Open) {
            return Some(open);
        }
        if let Some(again) = self.queue.take(self.last) {
            return Some(again);
        }
        let item = self.queue.pop()?;
        self.last = item;
        Some(item)
    }

    // Keeps that an item read a pair at the entry of a context.
    fn keep_reader(
        &mut self,
        item: Item,
        context: Context,
        label: Label,
        key: Key,
    ) -> Result<(), Memory>
        ensures same { self.new.queue ≡ self.old.queue }
    {
        let pair = (place_of(context), label_number(label), key_number(key));
        if let Some(readers) = self.readers.get_mut(&pair) {
            return readers.push(item);
        }
        let mut readers = Queue::new(self.alloc);
        readers.push(item)?;
        self.readers.insert(pair, readers)?;
        Ok(())
    }

    /// Keeps which pairs an item read.
    pub(crate) fn keep_reads(&mut self, item: Item, changes: &Changes) -> Result<(), Memory>
        ensures same { self.new.queue ≡ self.old.queue }
    {
        let context = reading_context(item);
        for pair in &changes.reads {
            self.keep_reader(item, context, pair.0, pair.1)?;
        }
        Ok(())
    }

    // The fill and the back of each edge from a node.
    fn wake_calls(&mut self, table: &ATable, context: Context, node: NodeId) -> Result<(), Memory> {
        let first = Edge {
            caller: context,
            node,
            callee: Context {
                function: FnId(0),
                receiver: Label {
                    site: Site(0),
                    old: false,
                },
            },
        };
        for place in table.edges_below(first)..table.edges.len() {
            let edge = table.edges[place].edge;
            if edge.caller != context || edge.node != node {
                return Ok(());
            }
            self.queue.push(Item::Fill(edge))?;
            self.queue.push(Item::Back(edge))?;
        }
        Ok(())
    }

    // What the exits of a context give back along each edge into it.
    fn wake_backs(&mut self, context: Context) -> Result<(), Memory> {
        if let Some(edges) = self.callers.get(&place_of(context)) {
            for edge in edges {
                self.queue.push(Item::Back(*edge))?;
            }
        }
        Ok(())
    }

    // What gives values to the pairs that are demanded of a context.
    fn wake_fills(&mut self, context: Context) -> Result<(), Memory> {
        if context == own_context() {
            self.queue.push(Item::Open)?;
        }
        if let Some(edges) = self.callers.get(&place_of(context)) {
            for edge in edges {
                self.queue.push(Item::Fill(*edge))?;
            }
        }
        Ok(())
    }

    // What reads the state of a node: its step, what goes along its edges, and where it is an exit
    // what is given back.
    fn wake_state(
        &mut self,
        table: &ATable,
        program: &Program,
        context: Context,
        node: NodeId,
    ) -> Result<(), Memory> {
        self.queue.push(Item::Step { context, node })?;
        self.wake_calls(table, context, node)?;
        if is_exit(program, context, node) {
            self.wake_backs(context)?;
        }
        Ok(())
    }

    // What read a pair at the entry of a context.
    fn wake_readers(&mut self, context: Context, label: Label, key: Key) -> Result<(), Memory> {
        let pair = (place_of(context), label_number(label), key_number(key));
        if let Some(readers) = self.readers.remove(&pair) {
            self.queue.join(&readers)?;
        }
        Ok(())
    }

    // A new edge: what goes along it.
    fn wake_edge(&mut self, edge: Edge) -> Result<(), Memory> {
        self.queue.push(Item::Fill(edge))?;
        self.queue.push(Item::Back(edge))?;
        let place = place_of(edge.callee);
        if let Some(edges) = self.callers.get_mut(&place) {
            edges.push(edge)?;
            return Ok(());
        }
        let mut edges = Vec::new(self.alloc);
        edges.push(edge)?;
        self.callers.insert(place, edges)?;
        Ok(())
    }

    /// Wakes the items that read what the visit of an item changed.
    pub(crate) fn wake(
        &mut self,
        table: &ATable,
        program: &Program,
        item: Item,
        changes: &Changes,
    ) -> Result<(), Memory> {
        for edge in &changes.edges {
            self.wake_edge(*edge)?;
        }
        for at in &changes.states {
            self.wake_state(table, program, at.0, at.1)?;
        }
        if changes.is_demanded {
            self.wake_fills(reading_context(item))?;
        }
        for pair in &changes.values {
            self.wake_readers(filled_context(item), pair.0, pair.1)?;
        }
        Ok(())
    }
}
