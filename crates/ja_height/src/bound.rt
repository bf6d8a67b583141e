//! The height of a program: the most visits that can change a table of it.

ghost use Rattle.std.specs.Prelude.{◌≡◌, ◌≤◌, ◌*◌, length};
ghost use Rattle.ja_graph.specs.WellFormed.{IsWellFormed};
ghost use Rattle.ja_height.specs.Height as spec;
ghost use Rattle.ja_height.specs.code.Limits.{FewOf, most_of_context, most_of_edges};
ghost use Rattle.ja_height.specs.code.Limits.{most_of_function, most_of_state};

use ja_graph::{Function, Node, Program};

/// Whether a node enters functions.
fn enters(node: &Node) -> bool
    ensures { result ≡ spec.enters node.now }
{
    matches!(
        node,
        Node::Call { .. } | Node::New { .. } | Node::Convert { .. }
    )
}

/// How many nodes of a function enter functions.
fn entering_count(function: &Function) -> u128
    ensures exact { result ≡ spec.entering_count function.now }
    ensures few { result ≤ length function.now.nodes }
{
    let mut count = 0;
    for info in function.nodes.as_slice() {
        if enters(&info.node) {
            count += 1;
        }
    }
    count
}

/// How far the states of a function at one of its nodes can rise.
fn state_height(program: &Program, function: &Function) -> u128
    requires program { FewOf program.now }
    requires registers { function.now.registers ≤ 262144 }
    ensures exact { result ≡ spec.state_height program.now function.now }
    ensures few { result ≤ most_of_state }
{
    let labels = 2 * program.sites.len() as u128;
    let keys = program.names.len() as u128 + 6;
    1 + function.registers as u128 * (14 + labels) + labels * keys * (20 + labels) + labels
}

/// How far a context of a function can rise.
fn context_height(program: &Program, function: &Function) -> u128
    requires program { FewOf program.now }
    requires registers { function.now.registers ≤ 262144 }
    requires nodes { length function.now.nodes ≤ 131072 }
    ensures exact { result ≡ spec.context_height program.now function.now }
    ensures few { result ≤ most_of_context }
{
    let labels = 2 * program.sites.len() as u128;
    let keys = program.names.len() as u128 + 6;
    let states = function.nodes.len() as u128 * state_height(program, function);
    1 + labels * keys * (21 + labels) + states
}

/// How far the contexts of a function can rise.
fn function_height(program: &Program, function: &Function) -> u128
    requires program { FewOf program.now }
    requires registers { function.now.registers ≤ 262144 }
    requires nodes { length function.now.nodes ≤ 131072 }
    ensures exact { result ≡ spec.label_count program.now
        * spec.context_height program.now function.now }
    ensures few { result ≤ most_of_function }
{
    let labels = 2 * program.sites.len() as u128;
    labels * context_height(program, function)
}

/// How many edges there can be from so many nodes that enter functions.
fn edges_height(program: &Program, entering: u128) -> u128
    requires program { FewOf program.now }
    requires functions { length program.now.functions ≤ 131072 }
    requires entering { entering ≤ 17179869184 }
    ensures exact { result ≡ entering * spec.label_count program.now
        * length program.now.functions * spec.label_count program.now }
    ensures few { result ≤ most_of_edges }
{
    let labels = 2 * program.sites.len() as u128;
    let callers = entering * labels;
    let callees = program.functions.len() as u128 * labels;
    callers * callees
}

/// The most visits that can change a table of a program.
pub fn height(program: &Program) -> u128
    requires { IsWellFormed program.now }
    ensures { result ≡ spec.height program.now }
{
    let mut contexts = 0;
    let mut entering = 0;
    for function in program.functions.as_slice() {
        contexts += function_height(program, function);
        entering += entering_count(function);
    }
    contexts + edges_height(program, entering)
}
