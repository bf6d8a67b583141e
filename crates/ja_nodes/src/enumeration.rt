//! The rows of `for`-`in` (ES3 12.6.4).

ghost use Rattle.std.specs.Prelude.{◌<◌, IfOk, vec_len};
ghost use Rattle.ja_rows.specs.Enumeration.{transfer_names, transfer_pick};
ghost use Rattle.ja_transfer.specs.Outcomes.{at_view, IsOutcome};

use ja_aheap::DemandList;
use ja_astate::Shown;
use ja_base::{Memory, Reg};
use ja_transfer::{Outcome, States, Stepper};

/// The names of a `for`-`in` are fixed.
pub(crate) fn names(stepper: &Stepper<'_>, object: Reg) -> Result<Outcome, Memory>
    requires { object.0 < vec_len stepper.now.reader.state.now.registers }
    ensures { IfOk result (λ o. (list : Reg) → IsOutcome stepper.now
        (transfer_names (at_view stepper.now) stepper.now.info.now list object) o) }
{
    let alloc = stepper.reader.alloc;
    let value = stepper.reader.state.register(object);
    let mut states = States::new(alloc);
    stepper.goes(
        &mut states,
        value.has_labels(stepper.reader.sites),
        stepper.info.next,
    )?;
    Ok(stepper.outcome(states, DemandList::new(alloc)))
}

/// One of the names that may be shown, or none is left.
pub(crate) fn pick(stepper: &Stepper<'_>, dst: Reg, object: Reg) -> Result<Outcome, Memory>
    requires dst { dst.0 < vec_len stepper.now.reader.state.now.registers }
    requires object { object.0 < vec_len stepper.now.reader.state.now.registers }
    ensures { IfOk result (λ o. (list : Reg) → IsOutcome stepper.now
        (transfer_pick (at_view stepper.now) stepper.now.info.now list dst object) o) }
{
    let reader = &stepper.reader;
    let object = reader.state.register(object);
    let Shown { value, demands } = reader.shown(&object.labels)?;
    let mut states = States::new(reader.alloc);
    stepper.sets(&mut states, dst, value, stepper.info.next)?;
    stepper.goes(
        &mut states,
        object.has_labels(reader.sites),
        stepper.info.other,
    )?;
    Ok(stepper.outcome(states, demands))
}
