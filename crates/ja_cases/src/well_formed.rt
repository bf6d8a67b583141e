//! Which programs are well formed: the program of the empty text, and that program with a number
//! changed.

use crate::out::Out;
use ja_base::{FnId, NodeId, Reg, Seq, Site};
use ja_graph::{
    Function, Hint, IS_NAN, MATH, Node, Program, all_registers_below, is_function_well_formed,
    well_formed,
};
use ja_prim::Text16;
use std::alloc::Global;
use std::mem;

/// Tells of a site that it has these functions.
fn tell_of(
    alloc: Global,
    program: &mut Program,
    site: Site,
    owner: Option<FnId>,
    calls: Option<FnId>,
    constructs: Option<FnId>,
) {
    let mut sites = mem::replace(&mut program.sites, Seq::new(alloc)).into_vec();
    if let Some(told) = sites.get_mut(site.0 as usize) {
        told.owner = owner;
        told.calls = calls;
        told.constructs = constructs;
    }
    program.sites = Seq::from_vec(sites);
}

/// Functions of sites are those of the program, a site without a node has no owner, and what runs a
/// function has a scope, as `isNaN` has and `Math` doesn't. Nothing is told of both behind these.
fn sites(out: &mut Out, program: &mut Program) {
    let (here, none) = (Some(FnId(0)), Some(FnId(99)));
    for (label, owner, calls, constructs) in [
        ("isNaN runs nothing", None, None, None),
        ("isNaN calls and constructs by function 0", None, here, here),
        ("isNaN calls by function 99", None, none, None),
        ("isNaN constructs by function 99", None, None, none),
        ("isNaN is made by function 0", here, None, None),
        ("isNaN is made by function 99", none, None, None),
    ] {
        tell_of(out.alloc, program, IS_NAN, owner, calls, constructs);
        out.line_of_bool(label, well_formed(program));
    }
    tell_of(out.alloc, program, IS_NAN, None, None, None);
    tell_of(out.alloc, program, MATH, None, here, None);
    out.line_of_bool("Math calls without a scope", well_formed(program));
    tell_of(out.alloc, program, MATH, None, None, None);
}

/// The first functions come from the text.
fn text_functions(out: &mut Out, program: &mut Program) {
    program.text_functions = 0;
    out.line_of_bool("no function is of the text", well_formed(program));
    program.text_functions = 77;
    out.line_of_bool("77 of 76 functions are of the text", well_formed(program));
    program.text_functions = 1;
    out.line_of_bool("one function is of the text", well_formed(program));
}

/// Gives the last node of a function the handler 99.
fn give_handler(alloc: Global, function: &mut Function) {
    let mut nodes = mem::replace(&mut function.nodes, Seq::new(alloc)).into_vec();
    if let Some(escape) = nodes.last_mut() {
        escape.handler = NodeId(99);
    }
    function.nodes = Seq::from_vec(nodes);
}

/// Handlers are nodes.
fn handlers(out: &mut Out, program: &mut Program) {
    let functions = mem::replace(&mut program.functions, Seq::new(out.alloc));
    let mut functions = functions.into_vec();
    if let Some(text) = functions.get_mut(0) {
        out.line_of_bool("the function", is_function_well_formed(program, text));
        give_handler(out.alloc, text);
        let is_well_formed = is_function_well_formed(program, text);
        out.line_of_bool("Escape has the handler 99", is_well_formed);
    }
}

/// Registers are below the number of them.
fn registers(out: &mut Out) {
    let node = Node::WriteProp {
        object: Reg(6),
        key: Reg(7),
        src: Reg(8),
        error: Site(0),
    };
    out.line_of_bool("6, 7 and 8 of 9 registers", all_registers_below(&node, 9));
    out.line_of_bool("6, 7 and 8 of 8 registers", all_registers_below(&node, 8));
}

/// A program has the names of its opening objects.
fn names(out: &mut Out, program: &mut Program) {
    let default = program.default_value(Hint::Text);
    out.line_of_number("the default value of a text", u64::from(default.0));
    out.line_of_bool("there are no signatures", program.signatures().is_empty());
    program.names = Seq::new(out.alloc);
    out.line_of_bool("there are no names", well_formed(program));
    if let Ok(name) = Text16::from_ascii(out.alloc, b"") {
        out.line_of_bool(
            "the empty name has a number",
            program.name_id(&name).is_some(),
        );
    }
}

/// Whether the program of the empty text is well formed, and with a number changed.
pub fn put_well_formed(out: &mut Out, program: &mut Program) {
    sites(out, program);
    registers(out);
    out.line_of_bool("the program", well_formed(program));
    text_functions(out, program);
    names(out, program);
    handlers(out, program);
}
