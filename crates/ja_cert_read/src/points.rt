//! Nodes of a function, with their states. Each state is built where it is read, so that what is
//! listed of it needn't stand beside that of all others.

ghost use Rattle.std.specs.Prelude.{◌≡◌, [], ◌∷◌, IfSome};
ghost use Rattle.std.specs.List.{AllByRecursion};
ghost use Rattle.ja_base.specs.declared.ids.FnId.{FnId};
ghost use Rattle.ja_graph.specs.declared.program.Program.{Program};
ghost use Rattle.ja_cert_read.specs.code.Building.{IsBefore};
ghost use Rattle.ja_cert_read.specs.code.Contexts.{HasOwnState};
ghost use Rattle.ja_cert_read.specs.code.Orders.{comes_behind, node_rank};

use crate::starts::{Before, Listed, listing};
use crate::states::state_of_parts;
use ja_astate::AState;
use ja_base::NodeId;
use ja_cert_json::Json;
use ja_cert_parts::{
    Fault, InFunction, InProgram, Member, four_members, here_unless, read_list, read_node, under,
};

/// A node, with its state and what is listed of it.
#[derive(Drop)]
pub(crate) struct PointAt {
    pub node: NodeId,
    pub state: AState,
    pub listed: Listed,
}

/// Its members.
const POINT_KEYS: [&str; 4] = ["alloc", "heap", "node", "registers"];

/// Whether a node comes behind those before it.
fn is_behind(before: &[PointAt], node: NodeId) -> bool
    ensures { result ≡ comes_behind node_rank before.now (node.0 ∷ []) }
{
    match before.last() {
        Some(last) => last.node.0 < node.0,
        None => true,
    }
}

/// The state of the last node, if there is one.
fn last_state(before: &[PointAt]) -> Option<Before<'_>>
    ensures { (p : Program) (f : FnId) → AllByRecursion (HasOwnState p f) before.now
        → IfSome result (IsBefore p f) }
{
    before.last().map(|last| Before {
        state: &last.state,
        listed: &last.listed,
    })
}

impl<'a> Member<InFunction<'a>> for PointAt {
    ghost use Rattle.ja_graph.specs.WellFormed.{IsWellFormed};
    ghost use Rattle.ja_cert.specs.Wrong.{point_wrong};
    ghost use Rattle.ja_cert_read.specs.code.Contexts.{point_data, HasOwnState};

    ghost can = { λ rule. IsWellFormed rule.program.now };

    ghost wrong = { λ rule. point_wrong rule.program.now rule.function };

    ghost data = { λ rule. point_data rule.program.now rule.function };

    ghost holds = { λ rule. HasOwnState rule.program.now rule.function };

    fn read(rule: &InFunction<'a>, before: &[PointAt], value: &Json) -> Result<PointAt, Fault> {
        let alloc = rule.alloc;
        let program = rule.program;
        let within = InProgram { alloc, program };
        let point = four_members(alloc, &POINT_KEYS, value)?;
        let node = under(
            read_node(alloc, program, rule.function, point.third),
            "node",
        )?;
        here_unless(alloc, is_behind(before, node))?;
        let registers = under(read_list(alloc, rule, point.fourth), "registers")?;
        let heap = under(read_list(alloc, &within, point.second), "heap")?;
        let masks = under(read_list(alloc, &within, point.first), "alloc")?;
        let listed = listing(alloc, &heap, &masks)?;
        let state = state_of_parts(
            alloc,
            program,
            rule.function,
            last_state(before),
            registers,
            heap,
            masks,
        )?;
        Ok(PointAt {
            node,
            state,
            listed,
        })
    }
}
