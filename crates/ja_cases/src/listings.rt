//! Listings of nodes, and the graphs that they come to.

use crate::out::{Out, add};
use ja_base::{Memory, Place, Reg, Seq};
use ja_graph::Node;
use ja_lower_draft::{Draft, Scene};
use ja_lower_listing::{Block, BlockNode, Item, Spot, Target, assembled};
use ja_lower_names::Names;
use ja_lower_statements::program_listing;
use ja_prim::Primitive;
use ja_syntax::Statement;
use std::alloc::Global;

const PLACE: Place = Place { line: 1, column: 1 };

/// The item of a node.
fn node(node: Node, other: Option<Spot>, handler: Option<Spot>) -> Item {
    Item::Node {
        node,
        other,
        handler,
        place: PLACE,
    }
}

/// A node of a block.
fn block_node(node: Node, next: Target, other: Target) -> BlockNode {
    BlockNode {
        node,
        next,
        other,
        handler: Target::Out,
        place: PLACE,
        above: None,
    }
}

/// A block that begins at its last node, a branch to the first one or to a spot.
fn block(alloc: Global, spot: u32) -> Block {
    let register = Reg(6);
    let first = Node::Move {
        dst: register,
        src: register,
    };
    let last = Node::Branch { src: register };
    let mut nodes = Vec::new(alloc);
    add(&mut nodes, block_node(first, Target::Behind, Target::Out));
    add(
        &mut nodes,
        block_node(last, Target::Node(0), Target::Spot(Spot(spot))),
    );
    Block {
        entry: Target::Node(1),
        nodes: Seq::from_vec(nodes),
    }
}

/// The item of a word, with the spot of `other`, of its handler, of itself or of its block behind
/// it.
fn item(alloc: Global, word: &str, spot: u32) -> Item {
    let register = Reg(6);
    match word {
        "branch" => node(Node::Branch { src: register }, Some(Spot(spot)), None),
        "throw" => node(Node::Throw { src: register }, None, Some(Spot(spot))),
        "return" => node(Node::Return { src: register }, None, None),
        "escape" => node(Node::Escape, None, None),
        "spot" => Item::Spot(Spot(spot)),
        "jump" => Item::Jump(Spot(spot)),
        "copy" => Item::Copy(block(alloc, spot)),
        _ => {
            let prim = Primitive::Null;
            let dst = register;
            node(Node::Const { dst, prim }, None, None)
        }
    }
}

/// The items of words, as `branch 1, const, spot 1, escape`.
fn items(out: &Out, text: &str) -> Vec<Item> {
    let mut items = Vec::new(out.alloc);
    for line in text.split(", ") {
        let (word, spot) = line.split_once(' ').unwrap_or((line, "0"));
        add(
            &mut items,
            item(out.alloc, word, spot.parse::<u32>().unwrap_or(0)),
        );
    }
    items
}

/// The edges of the nodes of a listing: `next`, `other` and the handler of each.
pub fn edges(out: &mut Out, text: &str) {
    let items = items(out, text);
    if items.len() > 100 {
        return;
    }
    if let Ok(nodes) = assembled(out.alloc, items) {
        for info in nodes.as_slice() {
            out.put_before(u64::from(info.next.0), "/");
            out.put_before(u64::from(info.other.0), "/");
            out.put_before(u64::from(info.handler.0), " ");
        }
    }
}

/// How many nodes a draft has, counted as they came and in its graph.
fn put_draft(out: &mut Out, draft: Draft) {
    if draft.nodes() > 65_536 {
        out.put("more than 65536");
        return;
    }
    out.put_number(u64::from(draft.nodes()));
    if let Ok(items) = draft.into_items(out.alloc) {
        if let Ok(nodes) = assembled(out.alloc, items) {
            out.put_behind(" ", nodes.len() as u64);
        }
    }
}

/// The listing of statements without functions.
fn listed(alloc: Global, names: &Names<'_>, statements: &[Statement]) -> Result<Draft, Memory> {
    let scene = Scene {
        alloc,
        names,
        functions: &[],
        handler: None,
        specials: false,
    };
    program_listing(&scene, statements)
}

/// The listing of statements without names and functions.
pub fn put_listing(out: &mut Out, statements: &[Statement]) {
    let names = Names::new(out.alloc);
    if let Ok(draft) = listed(out.alloc, &names, statements) {
        put_draft(out, draft);
    }
}
