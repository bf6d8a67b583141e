ghost use Rattle.std.specs.Prelude.{◌≡◌, ◌<◌, ◌≤◌, ℕ, not, IfOk, IfSome, IsSome, OnErr, Some, length, slice_get, vec_len};
ghost use Rattle.std.specs.Option.{option_and_then, option_map};
ghost use Rattle.ja_graph.specs.Program.{node_at, nodes_of};
ghost use Rattle.ja_graph.specs.WellFormed.{IsWellFormed};
ghost use Rattle.ja_rows.specs.Table.{opening_table, root};
ghost use Rattle.ja_aheap.specs.Entries.{entries_of};
ghost use Rattle.ja_table.specs.Tables.{kept_state, no_entries, states_in, table_of, Fits, FitsContext, FitsEdge, IsContext};
ghost use Rattle.ja_table.specs.Order.{below_context, below_edge, context_key, AreContextsOrdered, AreEdgesOrdered};
ghost use Rattle.ja_table.specs.code.Places.{find_edge, IsPlaceBehind, IsPlaceOf, IsPlaceOfEdge};
ghost use Rattle.ja_table.specs.code.Growing.{no_nodes, with_context, with_edge};

use ja_aheap::DemandedEntries;
use ja_astate::AState;
use ja_base::{Context, FnId, Label, Memory, NodeId};
use ja_graph::{GLOBAL, NodeInfo, Program};
use ja_rows::Edge;
use ja_value::label_number;
use std::alloc::Global;

/// The abstract state of a context at a node, if it has one.
#[derive(Drop)]
pub struct NodeTable {
    pub state: Option<AState>,
}

/// The abstract states of a context by node, and the values that are demanded at its entry.
#[derive(Drop)]
pub struct ContextTable {
    pub context: Context,
    pub nodes: Vec<NodeTable>,
    pub entries: DemandedEntries,
}

/// A call edge, as it is kept.
#[derive(Clone, Copy)]
pub struct CallEdge {
    pub edge: Edge,
}

/// The contexts that are reached and the call edges between them, each in order.
#[derive(Drop)]
pub struct ATable {
    pub contexts: Vec<ContextTable>,
    pub edges: Vec<CallEdge>,
}

impl NodeTable {
    /// A node with this state, if it has one.
    pub fn new(state: Option<AState>) -> NodeTable
        ensures { result ≡ record { state = state } }
    {
        NodeTable { state }
    }
}

impl CallEdge {
    /// An edge, as it is kept.
    pub fn new(edge: Edge) -> CallEdge
        ensures { result ≡ record { edge = edge } }
    {
        CallEdge { edge }
    }
}

/// The program's own context.
pub fn own_context() -> Context
    ensures { result ≡ root }
{
    Context {
        function: FnId(0),
        receiver: Label {
            site: GLOBAL,
            old: false,
        },
    }
}

// The numbers by which contexts are in order: of the function and of the receiver.
fn context_key(context: Context) -> (u32, u64)
    ensures { result ≡ context_key context }
{
    (context.function.0, label_number(context.receiver))
}

// Whether a context comes before another.
pub(crate) fn is_below(context: Context, other: Context) -> bool
    ensures { result ≡ below_context context other }
{
    context_key(context) < context_key(other)
}

// Whether an edge comes before another.
pub(crate) fn is_edge_below(edge: Edge, other: Edge) -> bool
    ensures { result ≡ below_edge edge other }
{
    is_below(edge.caller, other.caller)
        || (edge.caller == other.caller
            && (edge.node.0 < other.node.0
                || (edge.node.0 == other.node.0 && is_below(edge.callee, other.callee))))
}

/// A node of a function of the program.
pub fn node_info(program: &Program, function: FnId, node: NodeId) -> &NodeInfo
    requires program { IsWellFormed program.now }
    requires node { IsSome (node_at program.now function node) }
    ensures { node_at program.now function node ≡ Some result.now }
{
    &program.functions.as_slice()[function.0 as usize]
        .nodes
        .as_slice()[node.0 as usize]
}

// How many nodes a function has.
fn node_count(program: &Program, function: FnId) -> usize
    ensures { result ≡ length (nodes_of program.now function) }
{
    match program.functions.as_slice().get(function.0 as usize) {
        Some(function) => function.nodes.len(),
        None => 0,
    }
}

// No state at any of so many nodes.
fn no_nodes(alloc: Global, count: usize) -> Result<Vec<NodeTable>, Memory>
    ensures { IfOk result (λ v. v.items ≡ no_nodes count) }
{
    let mut nodes = Vec::new(alloc);
    for _ in 0..count {
        nodes.push(NodeTable::new(None))?;
    }
    Ok(nodes)
}

impl ContextTable {
    ghost use Rattle.ja_table.specs.Tables.{FitsContext};

    /// A context with these states, one place for each node of its function, and these values at
    /// its entry.
    pub fn from_parts(
        context: Context,
        nodes: Vec<NodeTable>,
        entries: DemandedEntries,
    ) -> ContextTable
        ensures context { result.context ≡ context }
        ensures nodes { result.nodes.items ≡ nodes.items }
        ensures entries { entries_of result.entries ≡ entries_of entries }
    {
        ContextTable {
            context,
            nodes,
            entries,
        }
    }

    /// A context without a state.
    fn new(alloc: Global, program: &Program, context: Context) -> Result<ContextTable, Memory>
        requires { IsContext program.now context }
        ensures context { IfOk result (λ c. c.context ≡ context) }
        ensures nodes { IfOk result (λ c. c.nodes.items
            ≡ no_nodes (length (nodes_of program.now context.function))) }
        ensures entries { IfOk result (λ c. entries_of c.entries ≡ no_entries) }
        ensures fits { IfOk result (FitsContext program.now) }
    {
        let nodes = no_nodes(alloc, node_count(program, context.function))?;
        let entries = DemandedEntries::new(alloc);
        Ok(ContextTable::from_parts(context, nodes, entries))
    }

    /// The state at a node, if there is one.
    pub fn state(&self, node: NodeId) -> Option<&AState>
        ensures { option_map (λ s. s.now) result ≡ kept_state self.now.nodes.items node.0 }
    {
        match self.nodes.get(node.0 as usize) {
            Some(at) => at.state.as_ref(),
            None => None,
        }
    }
}

impl ATable {
    ghost use Rattle.ja_table.specs.Tables.{table_of, find_context, Fits};

    // How many contexts come before one.
    fn contexts_below(&self, context: Context) -> usize
        ensures place { AreContextsOrdered self.now.contexts.items
            → IsPlaceOf context self.now.contexts.items result }
        ensures within { result ≤ vec_len self.now.contexts }
    {
        self.contexts
            .partition_point(|own| is_below(own.context, context))
    }

    /// How many edges come before one.
    pub fn edges_below(&self, edge: Edge) -> usize
        ensures place { AreEdgesOrdered self.now.edges.items
            → IsPlaceOfEdge edge self.now.edges.items result }
        ensures within { result ≤ vec_len self.now.edges }
    {
        self.edges
            .partition_point(|kept| is_edge_below(kept.edge, edge))
    }

    /// How many contexts don't come behind one.
    pub fn contexts_up_to(&self, context: Context) -> usize
        ensures { AreContextsOrdered self.now.contexts.items
            → IsPlaceBehind context self.now.contexts.items result }
    {
        self.contexts
            .partition_point(|own| !is_below(context, own.context))
    }

    /// The place of a context, if it is reached.
    pub fn place_of(&self, context: Context) -> Option<usize>
        ensures found { AreContextsOrdered self.now.contexts.items
            → option_and_then (λ n. slice_get self.now.contexts.items n) result
            ≡ find_context context self.now.contexts.items }
        ensures within { IfSome result (λ n. n < vec_len self.now.contexts) }
    {
        let place = self.contexts_below(context);
        match self.contexts.get(place) {
            Some(own) if own.context == context => Some(place),
            _ => None,
        }
    }

    /// A context that is reached.
    pub fn at(&self, context: Context) -> Option<&ContextTable>
        ensures { AreContextsOrdered self.now.contexts.items
            → option_map (λ c. c.now) result ≡ find_context context self.now.contexts.items }
    {
        let place = self.place_of(context)?;
        Some(&self.contexts[place])
    }

    /// The place of an edge, if it is one of the table.
    pub fn place_of_edge(&self, edge: Edge) -> Option<usize>
        ensures found { AreEdgesOrdered self.now.edges.items
            → option_and_then (λ n. slice_get self.now.edges.items n) result
            ≡ find_edge edge self.now.edges.items }
        ensures within { IfSome result (λ n. n < vec_len self.now.edges) }
    {
        let place = self.edges_below(edge);
        match self.edges.get(place) {
            Some(kept) if kept.edge == edge => Some(place),
            _ => None,
        }
    }

    /// Adds a context, if it isn't reached yet, and tells whether it wasn't. After `Memory` the
    /// table is as it was.
    pub fn add_context(
        &mut self,
        alloc: Global,
        program: &Program,
        context: Context,
    ) -> Result<bool, Memory>
        requires program { IsWellFormed program.now }
        requires context { IsContext program.now context }
        requires fits { Fits program.now self.old }
        ensures added { IfOk result (λ _. table_of self.new
            ≡ with_context (table_of self.old) context) }
        ensures told { IfOk result (λ t. t ≡ not ((table_of self.old).context context)) }
        ensures kept { OnErr result (table_of self.new ≡ table_of self.old) }
        ensures fits { Fits program.now self.new }
    {
        let place = self.contexts_below(context);
        if self.place_of(context).is_some() {
            return Ok(false);
        }
        let own = ContextTable::new(alloc, program, context)?;
        self.contexts.insert(place, own)?;
        Ok(true)
    }

    /// Adds an edge, if it isn't there yet, and tells whether it wasn't. After `Memory` the table is
    /// as it was.
    pub fn add_edge(&mut self, program: &Program, edge: Edge) -> Result<bool, Memory>
        requires edge { FitsEdge program.now self.old edge }
        requires fits { Fits program.now self.old }
        ensures added { IfOk result (λ _. table_of self.new
            ≡ with_edge (table_of self.old) edge) }
        ensures told { IfOk result (λ t. t ≡ not ((table_of self.old).edge edge)) }
        ensures kept { OnErr result (table_of self.new ≡ table_of self.old) }
        ensures fits { Fits program.now self.new }
    {
        let place = self.edges_below(edge);
        if self.place_of_edge(edge).is_some() {
            return Ok(false);
        }
        self.edges.insert(place, CallEdge::new(edge))?;
        Ok(true)
    }
}

// The program's own context, with the state at its entry at node 0.
fn opening_context(alloc: Global, program: &Program) -> Result<ContextTable, Memory>
    requires { IsWellFormed program.now }
    ensures context { IfOk result (λ c. c.context ≡ root) }
    ensures states { IfOk result (λ c. (n : ℕ) → states_in c.nodes.items n
        ≡ (opening_table program.now).state root n) }
    ensures entries { IfOk result (λ c. entries_of c.entries ≡ no_entries) }
    ensures fits { IfOk result (FitsContext program.now) }
{
    let mut own = ContextTable::new(alloc, program, own_context())?;
    own.nodes[0] = NodeTable {
        state: Some(AState::opening(alloc, program)?),
    };
    Ok(own)
}

/// The table in which the solver begins: the program's own context, with the state at its entry at
/// node 0.
pub fn opening(alloc: Global, program: &Program) -> Result<ATable, Memory>
    requires { IsWellFormed program.now }
    ensures table { IfOk result (λ t. table_of t ≡ opening_table program.now) }
    ensures fits { IfOk result (Fits program.now) }
{
    let mut contexts = Vec::new(alloc);
    contexts.push(opening_context(alloc, program)?)?;
    Ok(ATable {
        contexts,
        edges: Vec::new(alloc),
    })
}
