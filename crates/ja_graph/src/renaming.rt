//! Nodes with each of their numbers mapped.

ghost use Rattle.std.specs.Prelude.{◌≡◌, map, IfOk};
ghost use Rattle.std.specs.Option.{option_map};
ghost use Rattle.ja_graph.specs.declared.node.Node.{Node};
ghost use Rattle.ja_graph.specs.Node.{may_throw, register_set};
ghost use Rattle.ja_graph.specs.Renaming.{Renaming, identity, renamed, renamed_args, renamed_wrappers};

use crate::{Args, Node, Wrappers};
use ja_base::{FnId, Memory, NameId, Reg, Seq, Site};
use ja_prim::Text16;
use std::alloc::Global;

/// A map of the numbers that nodes have. Contracts see four functions.
pub trait Renames {
    /// Where each number goes.
    ghost renaming: { Self → Renaming };

    /// Where a register goes.
    fn register(&self, register: Reg) -> Reg
        ensures { result ≡ (renaming self.now).register register };

    /// Where a name goes.
    fn name(&self, name: NameId) -> NameId
        ensures { result ≡ (renaming self.now).name name };

    /// Where a function goes.
    fn function(&self, function: FnId) -> FnId
        ensures { result ≡ (renaming self.now).function function };

    /// Where a site goes.
    fn site(&self, site: Site) -> Site
        ensures { result ≡ (renaming self.now).site site };
}

/// Registers, each where it goes.
fn renamed_registers<R: Renames>(
    alloc: Global,
    registers: &[Reg],
    renaming: &R,
) -> Result<Seq<Reg>, Memory>
    ensures { IfOk result (λ list. list ≡ map (R.renaming renaming.now).register registers.now) }
{
    let mut list = Vec::with_capacity(alloc, registers.len())?;
    for register in registers {
        list.push(renaming.register(*register))?;
    }
    Ok(Seq::from_vec(list))
}

/// A register, if there is one, where it goes.
fn renamed_register<R: Renames>(register: Option<Reg>, renaming: &R) -> Option<Reg>
    ensures { result ≡ option_map (R.renaming renaming.now).register register }
{
    match register {
        Some(register) => Some(renaming.register(register)),
        None => None,
    }
}

/// A site, if there is one, where it goes.
fn renamed_site<R: Renames>(site: Option<Site>, renaming: &R) -> Option<Site>
    ensures { result ≡ option_map (R.renaming renaming.now).site site }
{
    match site {
        Some(site) => Some(renaming.site(site)),
        None => None,
    }
}

/// The sites of conversions, each where it goes.
fn renamed_wrappers<R: Renames>(sites: Wrappers, renaming: &R) -> Wrappers
    ensures { result ≡ renamed_wrappers (R.renaming renaming.now) sites }
{
    Wrappers {
        boolean: renaming.site(sites.boolean),
        number: renaming.site(sites.number),
        text: renaming.site(sites.text),
    }
}

/// The arguments of a call, with each register where it goes.
fn renamed_args<R: Renames>(alloc: Global, args: &Args, renaming: &R) -> Result<Args, Memory>
    ensures { IfOk result (λ renamed. renamed ≡ renamed_args (R.renaming renaming.now) args.now) }
{
    Ok(match args {
        Args::Registers(list) => Args::Registers(renamed_registers(
            alloc,
            list.as_slice(),
            renaming,
        )?),
        Args::Elements(array) => Args::Elements(renaming.register(*array)),
        Args::Tail => Args::Tail,
    })
}

/// A node with each of its registers, names, functions and sites where it goes, in memory of its
/// own. What else the node has stays. An error says that memory was refused, and nothing else.
#[tactic(auto, unfolding(crate::specs::Renaming::renamed))]
pub fn renamed<R: Renames>(alloc: Global, node: &Node, renaming: &R) -> Result<Node, Memory>
    ensures { IfOk result (λ copy. copy ≡ renamed (R.renaming renaming.now) node.now) }
{
    match node {
        Node::Const { dst, prim } => Ok(Node::Const {
            dst: renaming.register(*dst),
            prim: prim.copy()?,
        }),
        Node::Move { dst, src } => Ok(Node::Move {
            dst: renaming.register(*dst),
            src: renaming.register(*src),
        }),
        Node::FindName { dst, name } => Ok(Node::FindName {
            dst: renaming.register(*dst),
            name: renaming.name(*name),
        }),
        Node::ReadRef {
            dst,
            base,
            name,
            error,
        } => Ok(Node::ReadRef {
            dst: renaming.register(*dst),
            base: renaming.register(*base),
            name: renaming.name(*name),
            error: renaming.site(*error),
        }),
        Node::ReadSoft { dst, base, name } => Ok(Node::ReadSoft {
            dst: renaming.register(*dst),
            base: renaming.register(*base),
            name: renaming.name(*name),
        }),
        Node::WriteRef { base, name, src } => Ok(Node::WriteRef {
            base: renaming.register(*base),
            name: renaming.name(*name),
            src: renaming.register(*src),
        }),
        Node::DeleteRef { dst, base, name } => Ok(Node::DeleteRef {
            dst: renaming.register(*dst),
            base: renaming.register(*base),
            name: renaming.name(*name),
        }),
        Node::ToObject {
            dst,
            src,
            sites,
            error,
        } => Ok(Node::ToObject {
            dst: renaming.register(*dst),
            src: renaming.register(*src),
            sites: renamed_wrappers(*sites, renaming),
            error: renaming.site(*error),
        }),
        Node::NeedObject { src, error } => Ok(Node::NeedObject {
            src: renaming.register(*src),
            error: renaming.site(*error),
        }),
        Node::ReadProp { dst, object, key } => Ok(Node::ReadProp {
            dst: renaming.register(*dst),
            object: renaming.register(*object),
            key: renaming.register(*key),
        }),
        Node::WriteProp {
            object,
            key,
            src,
            error,
        } => Ok(Node::WriteProp {
            object: renaming.register(*object),
            key: renaming.register(*key),
            src: renaming.register(*src),
            error: renaming.site(*error),
        }),
        Node::DeleteProp { dst, object, key } => Ok(Node::DeleteProp {
            dst: renaming.register(*dst),
            object: renaming.register(*object),
            key: renaming.register(*key),
        }),
        Node::HasProp { dst, object, key } => Ok(Node::HasProp {
            dst: renaming.register(*dst),
            object: renaming.register(*object),
            key: renaming.register(*key),
        }),
        Node::InstanceOf {
            dst,
            left,
            right,
            not_function,
            not_object,
        } => Ok(Node::InstanceOf {
            dst: renaming.register(*dst),
            left: renaming.register(*left),
            right: renaming.register(*right),
            not_function: renaming.site(*not_function),
            not_object: renaming.site(*not_object),
        }),
        Node::NewObject { dst, site, kind } => Ok(Node::NewObject {
            dst: renaming.register(*dst),
            site: renaming.site(*site),
            kind: *kind,
        }),
        Node::MakeFunction {
            dst,
            function,
            site,
            proto_site,
        } => Ok(Node::MakeFunction {
            dst: renaming.register(*dst),
            function: renaming.function(*function),
            site: renaming.site(*site),
            proto_site: renaming.site(*proto_site),
        }),
        Node::Enter { site, arguments } => Ok(Node::Enter {
            site: renaming.site(*site),
            arguments: renamed_site(*arguments, renaming),
        }),
        Node::Declare { name } => Ok(Node::Declare {
            name: renaming.name(*name),
        }),
        Node::Bind {
            name,
            src,
            read_only,
        } => Ok(Node::Bind {
            name: renaming.name(*name),
            src: renaming.register(*src),
            read_only: *read_only,
        }),
        Node::PushScope { site } => Ok(Node::PushScope {
            site: renaming.site(*site),
        }),
        Node::Convert {
            dst,
            src,
            hint,
            other,
        } => Ok(Node::Convert {
            dst: renaming.register(*dst),
            src: renaming.register(*src),
            hint: *hint,
            other: renamed_register(*other, renaming),
        }),
        Node::Unary { dst, op, src } => Ok(Node::Unary {
            dst: renaming.register(*dst),
            op: *op,
            src: renaming.register(*src),
        }),
        Node::Binary { dst, op, a, b } => Ok(Node::Binary {
            dst: renaming.register(*dst),
            op: *op,
            a: renaming.register(*a),
            b: renaming.register(*b),
        }),
        Node::Branch { src } => Ok(Node::Branch {
            src: renaming.register(*src),
        }),
        Node::Call {
            dst,
            callee,
            receiver,
            args,
            error,
        } => Ok(Node::Call {
            dst: renaming.register(*dst),
            callee: renaming.register(*callee),
            receiver: renaming.register(*receiver),
            args: renamed_args(alloc, args, renaming)?,
            error: renaming.site(*error),
        }),
        Node::New {
            dst,
            callee,
            args,
            site,
            error,
        } => Ok(Node::New {
            dst: renaming.register(*dst),
            callee: renaming.register(*callee),
            args: renamed_registers(alloc, args.as_slice(), renaming)?,
            site: renaming.site(*site),
            error: renaming.site(*error),
        }),
        Node::Names { list, object } => Ok(Node::Names {
            list: renaming.register(*list),
            object: renaming.register(*object),
        }),
        Node::Pick { list, dst, object } => Ok(Node::Pick {
            list: renaming.register(*list),
            dst: renaming.register(*dst),
            object: renaming.register(*object),
        }),
        Node::Throw { src } => Ok(Node::Throw {
            src: renaming.register(*src),
        }),
        Node::Return { src } => Ok(Node::Return {
            src: renaming.register(*src),
        }),
        Node::Escape => Ok(Node::Escape),
        Node::Intrinsic { dst, which, args } => Ok(Node::Intrinsic {
            dst: renaming.register(*dst),
            which: *which,
            args: renamed_registers(alloc, args.as_slice(), renaming)?,
        }),
        Node::Device { dst, which } => Ok(Node::Device {
            dst: renaming.register(*dst),
            which: *which,
        }),
        Node::Stop { kind } => Ok(Node::Stop { kind: *kind }),
    }
}

/// A renaming that leaves each number where it is leaves each node as it is. The function does
/// nothing.
#[tactic(auto, using(crate::proofs::RenamingLemmas::identity_keeps))]
pub fn identity_keeps_nodes()
    ensures { (node : Node) → renamed identity node ≡ node }
{}

/// A renamed node may throw where the node may. The function does nothing.
#[tactic(auto, using(crate::proofs::RenamingLemmas::throws_alike))]
pub fn renamed_nodes_throw_alike()
    ensures { (r : Renaming) (node : Node) → may_throw (renamed r node) ≡ may_throw node }
{}

/// A renamed node sets the register to which that of the node goes. The function does nothing.
#[tactic(auto, using(crate::proofs::RenamingLemmas::sets_renamed))]
pub fn renamed_nodes_set_renamed_registers()
    ensures { (r : Renaming) (node : Node) → register_set (renamed r node)
        ≡ option_map r.register (register_set node) }
{}
