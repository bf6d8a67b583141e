//! What is known of a node by its kind.

ghost use Rattle.std.specs.Prelude.{◌≡◌};
ghost use Rattle.ja_graph.specs.Node.{may_throw};

use crate::Node;

/// Whether a node may throw, so that it has a handler.
#[tactic(auto, unfolding(crate::specs::Node::may_throw))]
pub fn may_throw(node: &Node) -> bool
    ensures { result ≡ may_throw node.now }
{
    match node {
        Node::ReadRef { .. }
        | Node::ToObject { .. }
        | Node::NeedObject { .. }
        | Node::WriteProp { .. }
        | Node::InstanceOf { .. }
        | Node::Convert { .. }
        | Node::Call { .. }
        | Node::New { .. }
        | Node::Throw { .. } => true,
        _ => false,
    }
}
