ghost use Rattle.std.specs.Prelude.{◌≡◌, ◌<◌, IfOk, Some, vec_len};
ghost use Rattle.std.specs.List.{AllByRecursion};
ghost use Rattle.ja_base.specs.declared.ids.Reg.{Reg};
ghost use Rattle.ja_graph.specs.Node.{registers_named};
ghost use Rattle.ja_astate.specs.Looks.{view_of};
ghost use Rattle.ja_rows.specs.Warning as spec;
ghost use Rattle.ja_rows.specs.Warning.{Test};
ghost use Rattle.ja_value.specs.Value.{value_of};
ghost use Rattle.ja_warn.specs.Told.{subject};
ghost use Rattle.ja_warn.specs.code.Faults.{Spot, found_at, held, reached_by, tested, with_reached, Says};

use crate::found::{Spot, add};
use crate::reached::{
    Allowed, Reached, no_function, no_object, row_of_name, row_of_property, unbound,
};
use ja_astate::Reader;
use ja_base::{FnId, Memory, Reg};
use ja_graph::{Node, NodeInfo, Program};
use ja_rows::{Warning, WarningKind};
use ja_transfer::Entry;
use ja_value::AValue;
use std::collections::BTreeMap;

// The function that an operation stands in, if it is built in.
fn builtin_of(program: &Program, function: FnId) -> Option<FnId>
    ensures { result ≡ spec.builtin_of program.now function }
{
    if function.0 < program.text_functions {
        None
    } else {
        Some(function)
    }
}

// Adds the operation of a kind at a node, which is about a register, by what a state allows there.
fn add_test(
    reader: &Reader<'_>,
    function: FnId,
    info: &NodeInfo,
    kind: WarningKind,
    about: Reg,
    allowed: Result<Allowed, Memory>,
    name: &AValue,
    found: &mut BTreeMap<Spot, Reached>,
) -> Result<(), Memory>
    requires { about.0 < vec_len reader.now.state.now.registers }
    ensures { IfOk result (λ _. (test : Test) → test.kind ≡ kind
        → subject info.now.node ≡ Some about → IfOk allowed (Says test (view_of reader.now))
        → (k : Spot) → found_at found.new k ≡ with_reached k (found_at found.old k)
        (tested (view_of reader.now) function info.now (value_of name.now) test)) }
{
    let Allowed { fault, more } = allowed?;
    let warning = Warning {
        kind,
        place: info.place,
        builtin: builtin_of(reader.program, function),
        certain: !more,
    };
    let value = reader.state.register(about);
    add(reader.alloc, found, warning, fault, value, name)
}

/// Adds the operations of a node, by a state at it: one for each of its tests, all of one name.
pub(crate) fn add_operations(
    reader: &Reader<'_>,
    function: FnId,
    info: &NodeInfo,
    called: &AValue,
    found: &mut BTreeMap<Spot, Reached>,
) -> Result<(), Memory>
    requires { AllByRecursion (λ (r : Reg). r.0 < vec_len reader.now.state.now.registers)
        (registers_named info.now.node) }
    ensures { IfOk result (λ _. (k : Spot) → found_at found.new k
        ≡ held k (found_at found.old k)
        (reached_by (view_of reader.now) function info.now (value_of called.now))) }
{
    match &info.node {
        Node::Call { callee, .. } => add_test(
            reader,
            function,
            info,
            WarningKind::NotAFunction,
            *callee,
            no_function(reader, Entry::Call, *callee),
            called,
            found,
        ),
        Node::New { callee, .. } => add_test(
            reader,
            function,
            info,
            WarningKind::NotAFunction,
            *callee,
            no_function(reader, Entry::Construct, *callee),
            called,
            found,
        ),
        Node::ToObject { src, .. } => add_test(
            reader,
            function,
            info,
            WarningKind::NoObject,
            *src,
            Ok(no_object(reader, *src)),
            called,
            found,
        ),
        Node::ReadRef { base, name, .. } => {
            add_test(
                reader,
                function,
                info,
                WarningKind::UnboundName,
                *base,
                Ok(unbound(reader, *base)),
                called,
                found,
            )?;
            add_test(
                reader,
                function,
                info,
                WarningKind::ScopeRow,
                *base,
                row_of_name(reader, *base, *name),
                called,
                found,
            )
        }
        Node::ReadSoft { base, name, .. } => add_test(
            reader,
            function,
            info,
            WarningKind::ScopeRow,
            *base,
            row_of_name(reader, *base, *name),
            called,
            found,
        ),
        Node::ReadProp { object, key, .. } => add_test(
            reader,
            function,
            info,
            WarningKind::ScopeRow,
            *object,
            row_of_property(reader, *object, *key),
            called,
            found,
        ),
        // The others have no test.
        Node::Const { .. }
        | Node::Move { .. }
        | Node::FindName { .. }
        | Node::WriteRef { .. }
        | Node::DeleteRef { .. }
        | Node::NeedObject { .. }
        | Node::WriteProp { .. }
        | Node::DeleteProp { .. }
        | Node::HasProp { .. }
        | Node::InstanceOf { .. }
        | Node::NewObject { .. }
        | Node::MakeFunction { .. }
        | Node::Enter { .. }
        | Node::Declare { .. }
        | Node::Bind { .. }
        | Node::PushScope { .. }
        | Node::Convert { .. }
        | Node::Unary { .. }
        | Node::Binary { .. }
        | Node::Branch { .. }
        | Node::Names { .. }
        | Node::Pick { .. }
        | Node::Throw { .. }
        | Node::Return { .. }
        | Node::Escape
        | Node::Intrinsic { .. }
        | Node::Device { .. }
        | Node::Stop { .. } => Ok(()),
    }
}
