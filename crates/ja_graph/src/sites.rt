//! Where a node makes objects, and what it makes there. Nothing here takes memory.

ghost use Rattle.std.specs.Prelude.{◌≡◌};
ghost use Rattle.ja_graph.specs.Node as graph;

use crate::{Class, Made, Node};
use ja_base::Site;
use std::marker::Model;

/// A site of a node, and the class of the objects that it makes there.
#[derive(Drop)]
pub struct Making {
    pub site: Site,
    pub class: Class,
}

impl Model for Making {
    ghost use Rattle.ja_graph.specs.Node as graph;

    ghost Value = { graph.Making };

    ghost view = { λ m. record { site = m.site; class = m.class } };
}

/// As many makings as a node has: none, one, two or four.
#[derive(Drop)]
enum FewMakings {
    None,
    One([Making; 1]),
    Two([Making; 2]),
    Four([Making; 4]),
}

/// The makings of a node. Contracts see the list of them.
#[derive(Drop)]
pub struct NodeMakings {
    few: FewMakings,
}

impl Model for NodeMakings {
    ghost use Rattle.std.specs.Prelude.{List};
    ghost use Rattle.ja_graph.specs.Node as graph;

    ghost Value = { List graph.Making };

    ghost use Rattle.ja_graph.specs.code.Makings.{listed};

    ghost view = { λ m. listed m.few };
}

impl NodeMakings {
    /// The makings, in order.
    pub fn as_slice(&self) -> &[Making]
        ensures { result.now ≡ self.now }
    {
        match &self.few {
            FewMakings::None => &[],
            FewMakings::One(makings) => makings,
            FewMakings::Two(makings) => makings,
            FewMakings::Four(makings) => makings,
        }
    }
}

/// The class of a new empty object.
fn class_of(kind: Made) -> Class
    ensures { result ≡ graph.class_of kind }
{
    match kind {
        Made::Object => Class::Object,
        Made::Array => Class::Array,
        Made::Error(_) => Class::Error,
    }
}

/// Objects of a class, made at a site.
fn made(site: Site, class: Class) -> Making
    ensures { result ≡ graph.making site class }
{
    Making { site, class }
}

/// The sites of a node, at most four, in the order of its fields, each with the class of the
/// objects that it makes there.
#[tactic(auto, unfolding(crate::specs::Node::makings))]
pub fn makings(node: &Node) -> NodeMakings
    ensures { result ≡ graph.makings node.now }
{
    let few = match node {
        Node::ReadRef { error, .. }
        | Node::NeedObject { error, .. }
        | Node::WriteProp { error, .. }
        | Node::Call { error, .. } => FewMakings::One([made(*error, Class::Error)]),
        Node::ToObject { sites, error, .. } => FewMakings::Four([
            made(sites.boolean, Class::Boolean),
            made(sites.number, Class::Number),
            made(sites.text, Class::String),
            made(*error, Class::Error),
        ]),
        Node::InstanceOf {
            not_function,
            not_object,
            ..
        } => FewMakings::Two([
            made(*not_function, Class::Error),
            made(*not_object, Class::Error),
        ]),
        Node::NewObject { site, kind, .. } => FewMakings::One([made(*site, class_of(*kind))]),
        Node::MakeFunction {
            site,
            proto_site,
            ..
        } => FewMakings::Two([
            made(*site, Class::Function),
            made(*proto_site, Class::Object),
        ]),
        Node::Enter {
            site,
            arguments: None,
        } => FewMakings::One([made(*site, Class::Activation)]),
        Node::Enter {
            site,
            arguments: Some(arguments),
        } => FewMakings::Two([
            made(*site, Class::Activation),
            made(*arguments, Class::Object),
        ]),
        Node::PushScope { site } => FewMakings::One([made(*site, Class::Object)]),
        Node::New { site, error, .. } => FewMakings::Two([
            made(*site, Class::Object),
            made(*error, Class::Error),
        ]),
        _ => FewMakings::None,
    };
    NodeMakings { few }
}
