//! The rows of properties (ES3 8.6.2, 11.2.1, 11.4.1, 11.8.7).

ghost use Rattle.std.specs.Prelude.{◌≡◌, ◌<◌, IfOk, vec_len};
ghost use Rattle.ja_graph.specs.declared.builtins.TheConstants as builtins;
ghost use Rattle.ja_machine.specs.Events.{array_length_message};
ghost use Rattle.ja_rows.specs.Out.{keys_in, throws};
ghost use Rattle.ja_rows.specs.Properties.{transfer_read_prop, transfer_write_prop, transfer_delete_prop, transfer_has_prop};
ghost use Rattle.ja_aheap.specs.Heap.{heap_of};
ghost use Rattle.ja_transfer.specs.Outcomes.{at_view, AreAdded, IsOutcome};

use ja_abstract::Key;
use ja_astate::{Looked, put_may_throw};
use ja_base::{Memory, Reg, Site};
use ja_graph::RANGE_ERROR_PROTOTYPE;
use ja_prim::push_ascii;
use ja_transfer::{Outcome, States, Stepper};
use ja_value::{AProp, AValue};

/// What the RangeError says of an array's length that is none.
const ARRAY_LENGTH: &[u8] = b"array length";

/// The keys of a register.
fn keys_in(stepper: &Stepper<'_>, key: Reg) -> Result<Vec<Key>, Memory>
    requires { key.0 < vec_len stepper.now.reader.state.now.registers }
    ensures { IfOk result (λ v. v.items ≡ keys_in (at_view stepper.now) key) }
{
    let value = stepper.reader.state.register(key);
    stepper.reader.keys_of_value(value)
}

/// [[Get]] at the keys of a register (8.6.2.1).
pub(crate) fn read_prop(
    stepper: &Stepper<'_>,
    dst: Reg,
    object: Reg,
    key: Reg,
) -> Result<Outcome, Memory>
    requires dst { dst.0 < vec_len stepper.now.reader.state.now.registers }
    requires object { object.0 < vec_len stepper.now.reader.state.now.registers }
    requires key { key.0 < vec_len stepper.now.reader.state.now.registers }
    ensures { IfOk result (IsOutcome stepper.now
        (transfer_read_prop (at_view stepper.now) stepper.now.info.now dst object key)) }
{
    let start = &stepper.reader.state.register(object).labels;
    let keys = keys_in(stepper, key)?;
    let Looked { property, demands } = stepper.reader.get(start, &keys)?;
    let AProp { value, attrs: _ } = property;
    let mut states = States::new(stepper.reader.alloc);
    stepper.sets(&mut states, dst, value.as_read(), stepper.info.next)?;
    Ok(stepper.outcome(states, demands))
}

/// The state in which a RangeError was made and thrown goes to the handler, if there is reason for
/// it.
fn range_error(
    stepper: &Stepper<'_>,
    states: &mut States,
    is_thrown: bool,
    error: Site,
) -> Result<(), Memory>
    requires registers { 0 < vec_len stepper.now.reader.state.now.registers }
    requires error { error.0 < (heap_of stepper.now.reader.state.now.heap).sites }
    ensures { IfOk result (λ _. AreAdded stepper.now (throws (at_view stepper.now) is_thrown
        stepper.now.info.now error builtins.RANGE_ERROR_PROTOTYPE array_length_message)
        states.old states.new) }
{
    if !is_thrown {
        return Ok(());
    }
    let mut units = Vec::new(stepper.reader.alloc);
    push_ascii(&mut units, ARRAY_LENGTH)?;
    stepper.throws(states, true, error, RANGE_ERROR_PROTOTYPE, units)
}

/// [[Put]] at the keys of a register (8.6.2.2); an array's length that is none throws a RangeError
/// (15.4.5.1).
pub(crate) fn write_prop(
    stepper: &Stepper<'_>,
    object: Reg,
    key: Reg,
    src: Reg,
    error: Site,
) -> Result<Outcome, Memory>
    requires object { object.0 < vec_len stepper.now.reader.state.now.registers }
    requires key { key.0 < vec_len stepper.now.reader.state.now.registers }
    requires src { src.0 < vec_len stepper.now.reader.state.now.registers }
    requires registers { 0 < vec_len stepper.now.reader.state.now.registers }
    requires error { error.0 < (heap_of stepper.now.reader.state.now.heap).sites }
    ensures { IfOk result (IsOutcome stepper.now
        (transfer_write_prop (at_view stepper.now) stepper.now.info.now object key src error)) }
{
    let reader = &stepper.reader;
    let target = &reader.state.register(object).labels;
    let value = reader.state.register(src);
    let keys = keys_in(stepper, key)?;
    let mut states = States::new(reader.alloc);
    let demands = stepper.puts(&mut states, target, &keys, value)?;
    let members = reader.labels(target)?;
    let is_wrong = put_may_throw(reader, &members, &keys, value)?;
    range_error(stepper, &mut states, is_wrong, error)?;
    Ok(stepper.outcome(states, demands))
}

/// [[Delete]] at the keys of a register (8.6.2.5).
pub(crate) fn delete_prop(
    stepper: &Stepper<'_>,
    dst: Reg,
    object: Reg,
    key: Reg,
) -> Result<Outcome, Memory>
    requires dst { dst.0 < vec_len stepper.now.reader.state.now.registers }
    requires object { object.0 < vec_len stepper.now.reader.state.now.registers }
    requires key { key.0 < vec_len stepper.now.reader.state.now.registers }
    ensures { IfOk result (IsOutcome stepper.now
        (transfer_delete_prop (at_view stepper.now) stepper.now.info.now dst object key)) }
{
    let target = &stepper.reader.state.register(object).labels;
    let keys = keys_in(stepper, key)?;
    let mut states = States::new(stepper.reader.alloc);
    stepper.deletes(&mut states, dst, target, &keys)?;
    let demands = stepper.demand_target(target, &keys)?;
    Ok(stepper.outcome(states, demands))
}

/// [[HasProperty]] at the keys of a register (8.6.2.4).
pub(crate) fn has_prop(
    stepper: &Stepper<'_>,
    dst: Reg,
    object: Reg,
    key: Reg,
) -> Result<Outcome, Memory>
    requires dst { dst.0 < vec_len stepper.now.reader.state.now.registers }
    requires object { object.0 < vec_len stepper.now.reader.state.now.registers }
    requires key { key.0 < vec_len stepper.now.reader.state.now.registers }
    ensures { IfOk result (IsOutcome stepper.now
        (transfer_has_prop (at_view stepper.now) stepper.now.info.now dst object key)) }
{
    let alloc = stepper.reader.alloc;
    let start = &stepper.reader.state.register(object).labels;
    let keys = keys_in(stepper, key)?;
    let Looked { property, demands } = stepper.reader.get(start, &keys)?;
    let may_have = property.value.is_present(stepper.reader.sites);
    let value = AValue::of_bools(alloc, may_have, property.value.flags.absent);
    let mut states = States::new(alloc);
    stepper.sets(&mut states, dst, value, stepper.info.next)?;
    Ok(stepper.outcome(states, demands))
}
