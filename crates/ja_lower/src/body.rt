use ja_base::{NameId, Seq};
use ja_graph::NodeInfo;
use ja_prim::Text16;

/// A function of a text, whose nodes have their sites numbered each for itself, from 0 on.
#[derive(Drop)]
pub struct Body {
    pub name: Text16,
    pub parameters: Seq<NameId>,
    pub nodes: Seq<NodeInfo>,
}
