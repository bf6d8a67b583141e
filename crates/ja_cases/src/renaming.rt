ghost use Rattle.std.specs.Prelude.{◌+◌, ◌-◌, ◌^◌, ltb, min, if◌then◌else◌, slice_index_or};

use crate::out::{Out, add};
use ja_base::{FnId, NameId, Reg, Seq, Site};
use ja_graph::{Node, Renames, renamed};

/// Registers from `first` on move up by `by`, and sites by `sites`; a name goes where the list
/// says.
#[derive(Drop)]
struct Shifts<'a> {
    first: u32,
    by: u32,
    sites: u32,
    names: &'a [NameId],
}

impl<'a> Renames for Shifts<'a> {
    ghost renaming = { λ s. record {
      register = λ r. if ltb r.0 s.first then r else record { 0 = min (r.0 + s.by) (2 ^ 32 - 1) };
      name = λ n. slice_index_or s.names.now n.0 n;
      function = λ f. f;
      site = λ x. record { 0 = min (x.0 + s.sites) (2 ^ 32 - 1) };
    } };

    fn register(&self, register: Reg) -> Reg {
        if register.0 < self.first {
            register
        } else {
            Reg(register.0.saturating_add(self.by))
        }
    }

    fn name(&self, name: NameId) -> NameId {
        self.names.get(name.0 as usize).copied().unwrap_or(name)
    }

    fn function(&self, function: FnId) -> FnId {
        function
    }

    fn site(&self, site: Site) -> Site {
        Site(site.0.saturating_add(self.sites))
    }
}

/// The numbers of a read of a name, and those of a construction.
fn put_numbers(out: &mut Out, node: &Node) {
    match node {
        Node::ReadRef {
            dst,
            base,
            name,
            error,
        } => {
            out.line_of_number("ReadRef", u64::from(dst.0));
            out.line_of_number("base", u64::from(base.0));
            out.line_of_number("name", u64::from(name.0));
            out.line_of_number("error", u64::from(error.0));
        }
        Node::New { callee, args, .. } => {
            out.line_of_number("New of", u64::from(callee.0));
            for register in args.as_slice() {
                out.line_of_number("argument", u64::from(register.0));
            }
        }
        _ => (),
    }
}

/// The numbers of a node whose registers from 6 on move up by 2, whose sites move up by 10, and
/// whose name 0 is 4.
fn put_renamed(out: &mut Out, node: &Node) {
    let shifts = Shifts {
        first: 6,
        by: 2,
        sites: 10,
        names: &[NameId(4)],
    };
    let mut list = Vec::new(out.alloc);
    if let Ok(node) = renamed(out.alloc, node, &shifts) {
        add(&mut list, node);
    }
    for node in list.as_slice() {
        put_numbers(out, node);
    }
}

/// A read of a name and a construction with other numbers.
pub fn renamed_nodes(out: &mut Out) {
    let read = Node::ReadRef {
        dst: Reg(6),
        base: Reg(5),
        name: NameId(0),
        error: Site(3),
    };
    let mut args = Vec::new(out.alloc);
    add(&mut args, Reg(7));
    let call = Node::New {
        dst: Reg(1),
        callee: Reg(9),
        args: Seq::from_vec(args),
        site: Site(0),
        error: Site(1),
    };
    let mut nodes = Vec::new(out.alloc);
    add(&mut nodes, read);
    add(&mut nodes, call);
    for node in nodes.as_slice() {
        put_renamed(out, node);
    }
}
