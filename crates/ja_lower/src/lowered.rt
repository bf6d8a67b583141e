use ja_base::Seq;
use ja_graph::{Function, SiteInfo};
use ja_prim::Text16;

/// What a tree is lowered to: the program and the functions of its text, in the order of the text;
/// the sites of their nodes; and the names.
#[derive(Drop)]
pub struct Lowered {
    pub functions: Seq<Function>,
    pub sites: Seq<SiteInfo>,
    pub names: Seq<Text16>,
}
