use ja_astate::Reader;
use ja_base::{Context, NodeId};
use ja_graph::NodeInfo;

/// Where a step is taken: at a node in a context, from a state that is read.
#[derive(Clone, Copy)]
pub struct Stepper<'a> {
    pub reader: Reader<'a>,
    pub context: Context,
    pub number: NodeId,
    pub info: &'a NodeInfo,
}
