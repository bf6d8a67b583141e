//! The row of constructions (ES3 11.2.2, 13.2.2).

ghost use Rattle.std.specs.Prelude.{◌<◌, List, IfOk, vec_len};
ghost use Rattle.ja_rows.specs.Edges.{transfer_new};
ghost use Rattle.ja_aheap.specs.Heap.{heap_of};
ghost use Rattle.ja_transfer.specs.Outcomes.{at_view, point_of, IsOutcome};

use ja_aheap::DemandList;
use ja_base::{Label, Memory, Reg, Site};
use ja_transfer::{Entry, Outcome, States, Stepper, some_without};

/// What the TypeError says of a callee that constructs nothing.
const NOT_A_CONSTRUCTOR: &[u8] = b"new of a value that is not a constructor";

/// A construction: what constructs nothing throws a TypeError, and each function that constructs
/// has an edge, with the new object as its receiver.
pub(crate) fn construct(
    stepper: &Stepper<'_>,
    callee: Reg,
    site: Site,
    error: Site,
) -> Result<Outcome, Memory>
    requires callee { callee.0 < vec_len stepper.now.reader.state.now.registers }
    requires registers { 0 < vec_len stepper.now.reader.state.now.registers }
    requires site { site.0 < (heap_of stepper.now.reader.state.now.heap).sites }
    requires error { error.0 < (heap_of stepper.now.reader.state.now.heap).sites }
    ensures { IfOk result (λ o. (dst : Reg) (args : List Reg) → IsOutcome stepper.now
        (transfer_new (at_view stepper.now) (point_of stepper.now) stepper.now.info.now dst callee
        args site error) o) }
{
    let reader = &stepper.reader;
    let callee = reader.state.register(callee);
    let callees = reader.labels(&callee.labels)?;
    let without = some_without(reader.program, Entry::Construct, &callees);
    let receivers = [Label { site, old: false }];
    let edges = stepper.edges_into(Entry::Construct, &callees, &receivers)?;
    let is_other = callee.has_atoms() | without;
    let mut states = States::new(reader.alloc);
    stepper.type_error(&mut states, is_other, error, NOT_A_CONSTRUCTOR)?;
    Ok(Outcome {
        states,
        demands: DemandList::new(reader.alloc),
        edges,
    })
}
