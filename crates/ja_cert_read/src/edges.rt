//! Call edges.

ghost use Rattle.std.specs.Prelude.{◌≡◌, false};
ghost use Rattle.std.specs.Option.{option_map_or};
ghost use Rattle.ja_cert_json.specs.View.{view};
ghost use Rattle.ja_graph.specs.Program.{node_at};
ghost use Rattle.ja_graph.specs.WellFormed.{IsWellFormed};
ghost use Rattle.ja_cert.specs.Certificate.{edge_data};
ghost use Rattle.ja_cert.specs.Wrong.{calls, edge_shape_wrong};
ghost use Rattle.ja_cert_read.specs.code.Orders.{call_edge_rank, comes_behind, edge_rank};
ghost use Rattle.ja_cert_read.specs.code.Contexts.{is_among, is_between};
ghost use Rattle.ja_cert_parts.specs.code.Reading.{Reads};

use crate::contexts::{ContextAt, context_numbers, is_less};
use ja_base::{Context, FnId, NodeId};
use ja_cert_json::Json;
use ja_cert_parts::{
    Fault, Member, at, here, here_unless, list, read_function, read_label, read_node,
};
use ja_graph::{Node, Program};
use ja_rows::Edge;
use ja_table::CallEdge;
use ja_value::label_number;
use std::alloc::Global;

/// In a program, between contexts that are listed.
#[derive(Clone, Copy)]
pub(crate) struct Among<'a> {
    pub alloc: Global,
    pub program: &'a Program,
    pub contexts: &'a [ContextAt],
}

/// Reads the five numbers of an edge.
pub(crate) fn read_edge(alloc: Global, program: &Program, value: &Json) -> Result<Edge, Fault>
    requires { IsWellFormed program.now }
    ensures { Reads (edge_shape_wrong program.now (view value.now))
        (λ e. edge_data e ≡ view value.now) result }
{
    let [caller, receiver, node, callee, callee_receiver] = list(alloc, value)? else {
        return Err(here(alloc));
    };
    let function = at(read_function(alloc, program, caller), 0)?;
    let receiver = at(read_label(alloc, program, receiver), 1)?;
    let node = at(read_node(alloc, program, function, node), 2)?;
    let caller = Context { function, receiver };
    let function = at(read_function(alloc, program, callee), 3)?;
    let receiver = at(read_label(alloc, program, callee_receiver), 4)?;
    let callee = Context { function, receiver };
    Ok(Edge {
        caller,
        node,
        callee,
    })
}

/// The numbers by which edges are in order.
fn edge_numbers(edge: Edge) -> [u64; 5]
    ensures { result ≡ edge_rank edge }
{
    [
        u64::from(edge.caller.function.0),
        label_number(edge.caller.receiver),
        u64::from(edge.node.0),
        u64::from(edge.callee.function.0),
        label_number(edge.callee.receiver),
    ]
}

/// Whether an edge comes behind those before it.
fn is_behind(before: &[CallEdge], edge: Edge) -> bool
    ensures { result ≡ comes_behind call_edge_rank before.now (edge_rank edge) }
{
    match before.last() {
        Some(last) => is_less(&edge_numbers(last.edge), &edge_numbers(edge)),
        None => true,
    }
}

/// Whether a context is listed.
fn is_listed(contexts: &[ContextAt], context: Context) -> bool
    ensures { result ≡ is_among contexts.now context }
{
    let numbers = context_numbers(context);
    contexts
        .iter()
        .any(|listed| context_numbers(listed.context) == numbers)
}

/// Whether a node is a call or a conversion.
fn is_calling(program: &Program, function: FnId, node: NodeId) -> bool
    ensures { result ≡ option_map_or (λ i. calls i.node) (node_at program.now function node) false }
{
    let Some(function) = program.functions.as_slice().get(function.0 as usize) else {
        return false;
    };
    match function.nodes.as_slice().get(node.0 as usize) {
        Some(info) => matches!(
            info.node,
            Node::Call { .. } | Node::New { .. } | Node::Convert { .. }
        ),
        None => false,
    }
}

/// Whether an edge leads from a call or a conversion, between contexts that are listed.
fn is_between(rule: &Among<'_>, edge: Edge) -> bool
    ensures { result ≡ is_between rule.now.program.now rule.now.contexts.now edge }
{
    is_listed(rule.contexts, edge.caller)
        && is_listed(rule.contexts, edge.callee)
        && is_calling(rule.program, edge.caller.function, edge.node)
}

impl<'a> Member<Among<'a>> for CallEdge {
    ghost use Rattle.std.specs.Prelude.{map};
    ghost use Rattle.ja_graph.specs.WellFormed.{IsWellFormed};
    ghost use Rattle.ja_cert.specs.Certificate.{edge_data};
    ghost use Rattle.ja_cert.specs.Wrong.{edge_wrong};
    ghost use Rattle.ja_cert_read.specs.code.Contexts.{listed_data};

    ghost can = { λ rule. IsWellFormed rule.program.now };

    ghost wrong = { λ rule. edge_wrong rule.program.now
        (map (listed_data rule.program.now) rule.contexts.now) };

    ghost data = { λ rule d. edge_data d.edge };

    ghost holds = { λ rule member. Unit {0} };

    fn read(rule: &Among<'a>, before: &[CallEdge], value: &Json) -> Result<CallEdge, Fault> {
        let edge = read_edge(rule.alloc, rule.program, value)?;
        here_unless(rule.alloc, is_behind(before, edge))?;
        here_unless(rule.alloc, is_between(rule, edge))?;
        Ok(CallEdge { edge })
    }
}
