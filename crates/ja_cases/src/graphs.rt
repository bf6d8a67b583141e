//! The graphs of small texts, whatever their forms are. A row may have a number before its text,
//! and its kind says what is told of the graph.

use crate::names::put_texts;
use crate::out::Out;
use ja_base::FnId;
use ja_graph::{Function, Node, NodeInfo, SiteInfo};
use ja_lower::{LowerFault, Lowered, lower, lower_prelude};
use ja_prim::Text16;
use ja_syntax::Tree;
use std::alloc::Global;
use std::fmt::Write;

/// Why a tree has no functions.
fn put_fault(out: &mut Out, fault: LowerFault) {
    out.put(match fault {
        LowerFault::Functions => "too many functions",
        LowerFault::Nodes => "too many nodes",
        LowerFault::Names => "too many names",
        LowerFault::Memory => "memory",
    });
}

/// Lowers a tree where the name `a` comes first and the sites begin at 10.
fn lower_behind(alloc: Global, tree: &Tree) -> Result<Lowered, LowerFault> {
    match Text16::from_str(alloc, "a") {
        Ok(name) => lower(alloc, tree, &[name], 10),
        Err(_) => Err(LowerFault::Memory),
    }
}

/// Lowers the functions of a tree as built-in ones, the first of which has the path `f`.
fn lower_built_in(alloc: Global, tree: &Tree) -> Result<Lowered, LowerFault> {
    match Text16::from_str(alloc, "f") {
        Ok(path) => lower_prelude(alloc, tree.statements.as_slice(), &[], &[path], 0, 0),
        Err(_) => Err(LowerFault::Memory),
    }
}

/// Lowers a tree as its kind says: behind a name, as built-in functions, or neither.
fn lowered(alloc: Global, kind: &str, tree: &Tree) -> Result<Lowered, LowerFault> {
    match kind {
        "body" => lower_behind(alloc, tree),
        "prelude-lines" => lower_built_in(alloc, tree),
        "prelude-names" => lower_built_in(alloc, tree),
        _ => lower(alloc, tree, &[], 0),
    }
}

/// What is told of a tree that is lowered.
pub fn put_graphs(out: &mut Out, kind: &str, number: usize, tree: &Tree) {
    match lowered(out.alloc, kind, tree) {
        Ok(lowered) => put_kind(out, kind, number, &lowered),
        Err(fault) => put_fault(out, fault),
    }
}

/// How many functions there are, the names, how many nodes each function has, what is told of all,
/// of the second function or of the program.
fn put_kind(out: &mut Out, kind: &str, number: usize, lowered: &Lowered) {
    match kind {
        "functions" => out.put_number(lowered.functions.len() as u64),
        "prelude-names" => put_texts(out, lowered.names.as_slice()),
        "nodes" => put_counts(out, lowered),
        "body" => put_lowered(out, lowered),
        "columns" => put_function_at(out, kind, number, lowered, 1),
        _ => put_function_at(out, kind, number, lowered, 0),
    }
}

/// How many nodes each function has.
fn put_counts(out: &mut Out, lowered: &Lowered) {
    for function in lowered.functions.as_slice() {
        out.put_before(function.nodes.len() as u64, " ");
    }
}

/// A function's number, if there is one.
fn put_function(out: &mut Out, function: Option<FnId>) {
    match function {
        Some(FnId(number)) => out.put_number(u64::from(number)),
        None => out.put("-"),
    }
}

/// What is told of a site: its class, its owner, and the function that a call runs.
fn put_site(out: &mut Out, site: &SiteInfo) {
    let _ = write!(out.text, " {:?}/", site.class);
    put_function(out, site.owner);
    out.put("/");
    put_function(out, site.calls);
}

/// The nodes and the registers of a function, and the site of its activation, if it begins with
/// one.
fn put_body(out: &mut Out, function: &Function) {
    out.put_before(function.nodes.len() as u64, " nodes ");
    out.put_before(u64::from(function.registers), " registers");
    if let Some(info) = function.nodes.as_slice().first() {
        if let Node::Enter { site, .. } = &info.node {
            out.put_behind(" enters ", u64::from(site.0));
        }
    }
    out.put(", ");
}

/// What is told of a lowered tree.
fn put_lowered(out: &mut Out, lowered: &Lowered) {
    for function in lowered.functions.as_slice() {
        put_body(out, function);
    }
    out.put_before(lowered.names.len() as u64, " names, sites");
    for site in lowered.sites.as_slice() {
        put_site(out, site);
    }
}

/// What is told of the nodes of a function.
fn put_function_at(out: &mut Out, kind: &str, number: usize, lowered: &Lowered, place: usize) {
    if let Some(function) = lowered.functions.as_slice().get(place) {
        let mut count = 0_usize;
        for info in function.nodes.as_slice() {
            put_node(out, kind, number, count, info);
            count = count.saturating_add(1);
        }
    }
}

/// What a node is in a word, and up to three of the registers and the name that it speaks of.
fn shown(node: &Node) -> (&'static str, u32, u32, u32) {
    match node {
        Node::FindName { dst, name } => ("FindName", dst.0, name.0, 0),
        Node::ReadRef { dst, base, .. } => ("ReadRef", dst.0, base.0, 0),
        Node::Const { dst, .. } => ("Const", dst.0, 0, 0),
        Node::ToObject { dst, src, .. } => ("ToObject", dst.0, src.0, 0),
        Node::ReadProp { dst, object, key } => ("ReadProp", dst.0, object.0, key.0),
        Node::WriteProp {
            object,
            key,
            src,
            ..
        } => ("WriteProp", object.0, key.0, src.0),
        Node::Call {
            dst,
            callee,
            receiver,
            ..
        } => ("Call", dst.0, callee.0, receiver.0),
        Node::Throw { src } => ("Throw", src.0, 0, 0),
        Node::Return { src } => ("Return", src.0, 0, 0),
        Node::Escape => ("Escape", 0, 0, 0),
        _ => ("another", 0, 0, 0),
    }
}

/// A node in a line of its own.
fn put_shown(out: &mut Out, node: &Node) {
    let (word, first, second, third) = shown(node);
    out.put("\n    ");
    out.put(word);
    for number in [first, second, third] {
        out.put_behind(" ", u64::from(number));
    }
}

/// What is told of a node by its kind and a number: its operation or the node behind it, where it
/// is the node of this number; its column, from this one on; the register into which it reads a
/// name; or a line of its own.
fn put_node(out: &mut Out, kind: &str, number: usize, count: usize, info: &NodeInfo) {
    match kind {
        "operation" => {
            if let Node::Binary { op, .. } = &info.node {
                if count == number {
                    let _ = write!(out.text, "{op:?}");
                }
            }
        }
        "next" => {
            if count == number {
                out.put_number(u64::from(info.next.0));
            }
        }
        "columns" => {
            if info.place.column as usize >= number {
                out.put_before(u64::from(info.place.column), " ");
            }
        }
        "reads" => {
            if let Node::ReadRef { dst, .. } = &info.node {
                out.put_before(u64::from(dst.0), " ");
            }
        }
        _ => put_shown(out, &info.node),
    }
}
