use crate::{Attrs, NodeInfo};
use ja_base::{FnId, NameId, Place, Seq, Site};
use ja_prim::{Primitive, Signature, Text16};

/// The greatest number of devices of a program.
pub const MAX_DEVICES: usize = 64;

/// The class of an object (ES3 8.6.2), which its site fixes; an activation has one of its own.
#[derive(Clone, Copy, Debug, PartialEq, Eq)]
pub enum Class {
    Object,
    Function,
    Array,
    String,
    Boolean,
    Number,
    Error,
    Math,
    Activation,
}

/// A place where objects are made. `owner` is the function whose node makes them; `calls` and
/// `constructs` are the functions that `[[Call]]` and `[[Construct]]` of its objects run. A
/// built-in object has the name under which reports print it.
#[derive(Drop)]
pub struct SiteInfo {
    pub class: Class,
    pub place: Place,
    pub owner: Option<FnId>,
    pub calls: Option<FnId>,
    pub constructs: Option<FnId>,
    pub builtin: Option<Text16>,
}

/// What a property has when a run begins: a primitive, the object of a site, or what is out of the
/// profile, a row.
#[derive(Drop)]
pub enum SpecContent {
    Prim(Primitive),
    Object(Site),
    Row,
}

/// A property of an object that is there when a run begins.
#[derive(Drop)]
pub struct PropertySpec {
    pub name: NameId,
    pub content: SpecContent,
    pub attrs: Attrs,
}

/// An object that is there when a run begins: its internal properties, of which the prototype and
/// the scope are the objects of other sites, and its properties.
#[derive(Drop)]
pub struct ObjectSpec {
    pub site: Site,
    pub prototype: Option<Site>,
    pub scope: Option<Site>,
    pub value: Option<Primitive>,
    pub properties: Seq<PropertySpec>,
}

/// A function: its name, which may be empty, the names of its parameters, how many registers it
/// has, and its nodes, the first one its entry and the last one its Escape.
#[derive(Drop)]
pub struct Function {
    pub name: Text16,
    pub parameters: Seq<NameId>,
    pub registers: u32,
    pub nodes: Seq<NodeInfo>,
}

/// A program. Function 0 is its text, and the first `text_functions` come from the text. `opening`
/// has one object for each site that no node has; these sites stand before those of the nodes.
#[derive(Drop)]
pub struct Program {
    pub functions: Seq<Function>,
    pub text_functions: u32,
    pub sites: Seq<SiteInfo>,
    pub names: Seq<Text16>,
    pub signatures: Seq<Signature>,
    pub opening: Seq<ObjectSpec>,
    pub value_first: FnId,
    pub text_first: FnId,
    pub text: String,
}
