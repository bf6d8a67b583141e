//! How a program runs a script with devices of its own: the script asks a till for the sum of what
//! it has taken, and prints it. The transcript of the run goes to standard output. `ja_top` is all
//! that such a program calls.
#![tactic(auto)]

use ja_top::{
    Answer, CallFault, Device, Devices, DevicesFault, Int, Kinds, Memory, Num, Primitive, run,
};
use std::alloc::{AllocError, AllocFailed, Global};
use std::io::Write;
use std::process::ExitCode;

const SCRIPT: &[u8] = b"till(5); till(7); print(\"sum\", till());";

/// How many steps the script may make.
const STEPS: u64 = 1_000;

/// Takes whole numbers, and answers their sum so far. It is no number where it would be past the
/// greatest one.
#[derive(Drop)]
struct Till {
    sum: i64,
}

impl Till {
    /// Takes the whole numbers among some values.
    fn take(&mut self, values: &[Primitive]) {
        for value in values {
            if let Primitive::Number(Num::Whole(n)) = value {
                self.sum = self.sum.saturating_add(n.get());
            }
        }
    }
}

impl Device for Till {
    ghost use Rattle.std.specs.Prelude.{None};
    ghost use lib.Chars.{codes};
    ghost use Rattle.ja_prim.specs.declared.signature.TheConstants.Kinds.{NUMBER};

    // what it has heard isn't told, and it never fails
    ghost seen = { λ _. record { name = codes "till"; kinds = NUMBER; heard = None; faults = 0 } };

    fn name(&self) -> &str {
        "till"
    }

    fn kinds(&self) -> Kinds {
        Kinds::NUMBER
    }

    fn call(&mut self, _: Global, args: &[Primitive]) -> Result<Primitive, CallFault> {
        self.take(args);
        Ok(Primitive::Number(match Int::new(self.sum) {
            Some(sum) => Num::Whole(sum),
            None => Num::NaN,
        }))
    }
}

/// Takes any values, and answers undefined: the transcript has them.
#[derive(Drop)]
struct Printer;

impl Device for Printer {
    ghost use Rattle.std.specs.Prelude.{None};
    ghost use lib.Chars.{codes};
    ghost use Rattle.ja_prim.specs.declared.signature.TheConstants.Kinds.{UNDEFINED};

    ghost seen = { λ _. record {
      name = codes "print";
      kinds = UNDEFINED;
      heard = None;
      faults = 0;
    } };

    fn name(&self) -> &str {
        "print"
    }

    fn kinds(&self) -> Kinds {
        Kinds::UNDEFINED
    }

    fn call(&mut self, _: Global, _: &[Primitive]) -> Result<Primitive, CallFault> {
        Ok(Primitive::Undefined)
    }
}

/// Why there is no transcript: memory was refused, or the devices can't be those of a program.
#[derive(Drop, Debug)]
enum Fault {
    Memory,
    Devices(DevicesFault),
}

impl From<Memory> for Fault {
    fn from(_: Memory) -> Self {
        Fault::Memory
    }
}

impl From<AllocError> for Fault {
    fn from(_: AllocError) -> Self {
        Fault::Memory
    }
}

impl<T: Drop> From<AllocFailed<T>> for Fault {
    fn from(_: AllocFailed<T>) -> Self {
        Fault::Memory
    }
}

/// Runs the script with some devices. Code that holds `Devices` of boxes is generic over them.
fn run_script<D: Device>(alloc: Global, list: Vec<D>) -> Result<Answer, Fault> {
    let mut devices = Devices::new(list).map_err(|(fault, _)| Fault::Devices(fault))?;
    let answer = run(alloc, SCRIPT, &mut devices, STEPS)?;
    Ok(answer)
}

/// Boxes a till and a device that prints, and runs the script with them.
fn run_with_till(alloc: Global) -> Result<Answer, Fault> {
    let mut list: Vec<Box<dyn Device>> = Vec::new(alloc);
    list.push(Box::new(alloc, Till { sum: 0 })?)?;
    list.push(Box::new(alloc, Printer)?)?;
    run_script(alloc, list)
}

fn main(rt: HostRuntime) -> ExitCode {
    let Ok(answer) = run_with_till(rt.alloc()) else {
        return ExitCode::FAILURE;
    };
    match rt.stdout().write_all(&answer.text) {
        Ok(()) => ExitCode::from(answer.status.code()),
        Err(_) => ExitCode::FAILURE,
    }
}
