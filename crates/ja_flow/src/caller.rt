use ja_astate::Reader;
use ja_graph::NodeInfo;
use ja_rows::Edge;

/// A call edge as its caller sees it: the caller's state at the node, and the node.
#[derive(Clone, Copy)]
pub struct Caller<'a> {
    pub reader: Reader<'a>,
    pub info: &'a NodeInfo,
    pub edge: Edge,
}
