//! The sites of a function's nodes, numbered from a number on.

ghost use Rattle.std.specs.Prelude.{◌≡◌, ◌+◌, IfOk, OnOk};
ghost use Rattle.std.specs.Option.{option_map};
ghost use Rattle.ja_graph.specs.Renaming.{renamed, renamed_wrappers};
ghost use Rattle.ja_lower.specs.Lowering as spec;

use ja_base::{Memory, Seq, Site};
use ja_graph::{Node, NodeInfo, Wrappers, makings};

/// The number behind so many sites. Past the last number that a site may have counts as refused
/// memory.
pub(crate) fn behind(first: u32, count: usize) -> Result<u32, Memory>
    ensures { IfOk result (λ n. n ≡ first + count) }
{
    match u32::try_from(count) {
        Err(_) => Err(Memory),
        Ok(count) => first.checked_add(count).ok_or(Memory),
    }
}

/// Numbers a site from a number on.
fn shift_site(first: u32, site: &mut Site) -> Result<(), Memory>
    ensures { OnOk result (site.new ≡ (spec.shifting first).site site.old) }
{
    *site = Site(behind(first, site.0 as usize)?);
    Ok(())
}

/// Numbers a site, if there is one, from a number on.
fn shift_optional(first: u32, site: &mut Option<Site>) -> Result<(), Memory>
    ensures { OnOk result (site.new ≡ option_map (spec.shifting first).site site.old) }
{
    match site {
        Some(site) => shift_site(first, site),
        None => Ok(()),
    }
}

/// Numbers the sites of conversions from a number on.
fn shift_wrappers(first: u32, sites: &mut Wrappers) -> Result<(), Memory>
    ensures { OnOk result (sites.new ≡ renamed_wrappers (spec.shifting first) sites.old) }
{
    shift_site(first, &mut sites.boolean)?;
    shift_site(first, &mut sites.number)?;
    shift_site(first, &mut sites.text)
}

/// Numbers the sites of a node from a number on. Past the last number memory counts as refused.
#[tactic(auto, unfolding(ja_graph::specs::Renaming::renamed))]
fn shift(first: u32, node: &mut Node) -> Result<(), Memory>
    ensures { OnOk result (node.new ≡ renamed (spec.shifting first) node.old) }
{
    match node {
        Node::ReadRef { error, .. } => shift_site(first, error),
        Node::NeedObject { error, .. } => shift_site(first, error),
        Node::WriteProp { error, .. } => shift_site(first, error),
        Node::Call { error, .. } => shift_site(first, error),
        Node::NewObject { site, .. } => shift_site(first, site),
        Node::PushScope { site } => shift_site(first, site),
        Node::ToObject { sites, error, .. } => {
            shift_wrappers(first, sites)?;
            shift_site(first, error)
        }
        Node::InstanceOf {
            not_function,
            not_object,
            ..
        } => {
            shift_site(first, not_function)?;
            shift_site(first, not_object)
        }
        Node::MakeFunction {
            site,
            proto_site,
            ..
        } => {
            shift_site(first, site)?;
            shift_site(first, proto_site)
        }
        Node::Enter { site, arguments } => {
            shift_site(first, site)?;
            shift_optional(first, arguments)
        }
        Node::New { site, error, .. } => {
            shift_site(first, site)?;
            shift_site(first, error)
        }
        Node::Const { .. }
        | Node::Move { .. }
        | Node::FindName { .. }
        | Node::ReadSoft { .. }
        | Node::WriteRef { .. }
        | Node::DeleteRef { .. }
        | Node::ReadProp { .. }
        | Node::DeleteProp { .. }
        | Node::HasProp { .. }
        | Node::Declare { .. }
        | Node::Bind { .. }
        | Node::Convert { .. }
        | Node::Unary { .. }
        | Node::Binary { .. }
        | Node::Branch { .. }
        | Node::Names { .. }
        | Node::Pick { .. }
        | Node::Throw { .. }
        | Node::Return { .. }
        | Node::Escape
        | Node::Intrinsic { .. }
        | Node::Device { .. }
        | Node::Stop { .. } => Ok(()),
    }
}

/// Numbers the sites of nodes from a number on, in the nodes' own memory.
#[tactic(auto, unfolding(crate::specs::Lowering::numbered))]
pub(crate) fn numbered(first_site: u32, nodes: Seq<NodeInfo>) -> Result<Seq<NodeInfo>, Memory>
    ensures { IfOk result (λ list. list ≡ spec.numbered first_site nodes) }
{
    let mut list = nodes.into_vec();
    let mut first = first_site;
    for info in list.iter_mut() {
        let sites = makings(&info.node).as_slice().len();
        shift(first, &mut info.node)?;
        first = behind(first, sites)?;
    }
    Ok(Seq::from_vec(list))
}
