//! What is known of lines and nodes.

ghost use Rattle.std.specs.Prelude.{◌≡◌, ◌∷◌, ◌+◌, [], IfOk};
ghost use Rattle.ja_lower_listing.specs.Listing.{goes_on, node_count};

use crate::Item;
use ja_base::Memory;
use ja_graph::Node;

/// Whether a run goes on to what follows a node: it does, unless the node leaves the function or
/// throws.
#[tactic(auto, unfolding(crate::specs::Listing::goes_on))]
pub fn goes_on(node: &Node) -> bool
    ensures { result ≡ goes_on node.now }
{
    match node {
        Node::Throw { .. } | Node::Return { .. } | Node::Escape | Node::Stop { .. } => false,
        _ => true,
    }
}

/// A count and so many more. Past 4,294,967,295 memory counts as refused.
pub(crate) fn more(count: u32, by: usize) -> Result<u32, Memory>
    ensures { IfOk result (λ n. n ≡ count + by) }
{
    match u32::try_from(by) {
        Err(_) => Err(Memory),
        Ok(by) => count.checked_add(by).ok_or(Memory),
    }
}

/// How many nodes a line has.
#[tactic(auto, unfolding(crate::specs::Listing::node_count))]
pub(crate) fn nodes_of(item: &Item) -> usize
    ensures { result ≡ node_count (item.now ∷ []) }
{
    match item {
        Item::Node { .. } => 1,
        Item::Spot(_) | Item::Jump(_) => 0,
        Item::Copy(block) => block.nodes.len(),
    }
}

/// How many nodes a listing has. Past 4,294,967,295 memory counts as refused.
#[tactic(auto, unfolding(crate::specs::Listing::node_count), using(crate::proofs::Parts::count_split))]
pub(crate) fn node_count(items: &[Item]) -> Result<u32, Memory>
    ensures { IfOk result (λ count. count ≡ node_count items.now) }
{
    let mut count = 0;
    for item in items {
        count = more(count, nodes_of(item))?;
    }
    Ok(count)
}
