//! The sites of nodes.

ghost use Rattle.std.specs.Prelude.{◌≡◌, ◌++◌, map, OnOk};
ghost use Rattle.ja_graph.specs.Node as graph;
ghost use Rattle.ja_lower.specs.Lowering as spec;

use ja_base::{FnId, Memory};
use ja_graph::{Class, Making, Node, NodeInfo, SiteInfo, makings};

/// The function that is called, and that constructs, where a node makes an object of this class.
#[tactic(auto, unfolding(ja_graph::specs::Node::function_in))]
fn run_by(node: &Node, class: Class) -> Option<FnId>
    ensures { result ≡ spec.run_by node.now class }
{
    match (class, node) {
        (Class::Function, Node::MakeFunction { function, .. }) => Some(*function),
        _ => None,
    }
}

/// What is known of a site of a node of a function.
fn site_of(function: FnId, info: &NodeInfo, making: &Making) -> SiteInfo
    ensures { result ≡ spec.site_of function.0 info.now making.now }
{
    let run = run_by(&info.node, making.class);
    SiteInfo {
        class: making.class,
        place: info.place,
        owner: Some(function),
        calls: run,
        constructs: run,
        builtin: None,
    }
}

/// Adds the sites of a node of a function.
fn add_node(sites: &mut Vec<SiteInfo>, function: FnId, info: &NodeInfo) -> Result<(), Memory>
    ensures { OnOk result (sites.new.items ≡ sites.old.items
        ++ map (spec.site_of function.0 info.now) (graph.makings info.now.node)) }
{
    let makings = makings(&info.node);
    for making in makings.as_slice() {
        sites.push(site_of(function, info, making))?;
    }
    Ok(())
}

/// Adds the sites of the nodes of a function.
#[tactic(auto, unfolding(crate::specs::Lowering::sites_of_nodes))]
pub(crate) fn add_sites(
    sites: &mut Vec<SiteInfo>,
    function: FnId,
    nodes: &[NodeInfo],
) -> Result<(), Memory>
    ensures { OnOk result (sites.new.items ≡ sites.old.items
        ++ spec.sites_of_nodes function.0 nodes.now) }
{
    for info in nodes {
        add_node(sites, function, info)?;
    }
    Ok(())
}
