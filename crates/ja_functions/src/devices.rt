//! The row of devices.

ghost use Rattle.std.specs.Prelude.{◌≡◌, ◌<◌, IfOk, slice_get, vec_len};
ghost use Rattle.std.specs.Option.{option_map};
ghost use Rattle.ja_prim.specs.declared.signature.Signature.{Signature};
ghost use Rattle.ja_rows.specs.BuiltIns.{device_value, transfer_device};
ghost use Rattle.ja_transfer.specs.Outcomes.{at_view, IsOutcome};
ghost use Rattle.ja_value.specs.Value.{value_of};

use ja_abstract::{Flags, NumberPart, TextPart};
use ja_aheap::DemandList;
use ja_base::{Memory, Reg};
use ja_graph::Program;
use ja_prim::Kinds;
use ja_transfer::{Outcome, States, Stepper};
use ja_value::AValue;
use std::alloc::Global;

/// Any value of some kinds.
fn device_value(alloc: Global, kinds: Kinds) -> AValue
    ensures { value_of result ≡ device_value kinds }
{
    let flags = Flags {
        absent: false,
        entry: false,
        row: false,
        undefined: kinds.undefined,
        null: kinds.null,
        is_true: kinds.boolean,
        is_false: kinds.boolean,
        nan: kinds.number,
    };
    let mut value = AValue::of_flags(alloc, flags);
    if kinds.number {
        value.number = NumberPart::Whole;
    }
    if kinds.text {
        value.text = TextPart::Text;
    }
    value
}

/// The kinds of the signature of a device.
fn kinds_of(program: &Program, which: u32) -> Option<Kinds>
    ensures { result ≡ option_map (λ (s : Signature). s.kinds)
        (slice_get program.now.signatures which) }
{
    match program.signatures().get(which as usize) {
        Some(signature) => Some(signature.kinds),
        None => None,
    }
}

/// The answer of a device: any value of the kinds of its signature.
pub fn device(stepper: &Stepper<'_>, dst: Reg, which: u32) -> Result<Outcome, Memory>
    requires { dst.0 < vec_len stepper.now.reader.state.now.registers }
    ensures { IfOk result (IsOutcome stepper.now
        (transfer_device (at_view stepper.now) stepper.now.info.now dst which)) }
{
    let alloc = stepper.reader.alloc;
    let mut states = States::new(alloc);
    let demands = DemandList::new(alloc);
    let asked = kinds_of(stepper.reader.program, which);
    match asked {
        None => Ok(stepper.outcome(states, demands)),
        Some(kinds) => {
            let value = device_value(alloc, kinds);
            stepper.sets(&mut states, dst, value, stepper.info.next)?;
            Ok(stepper.outcome(states, demands))
        }
    }
}
