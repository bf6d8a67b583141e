use crate::given::States;
use ja_aheap::DemandList;
use ja_rows::Edge;

/// What a node gives: states with the nodes that they go to, the values at entry that it demands,
/// and call edges.
#[derive(Drop)]
pub struct Outcome {
    pub states: States,
    pub demands: DemandList,
    pub edges: Vec<Edge>,
}
