//! Where JSON isn't a certificate.

ghost use Rattle.std.specs.Prelude.{◌≡◌, Option, Ok, IfOk};
ghost use Rattle.ja_cert.specs.Wrong.{Path, here, here_unless};
ghost use Rattle.ja_cert.specs.Wrong as wrong_place;
ghost use Rattle.ja_cert_parts.specs.code.Reading.{step_text, Tells, Passes};

use ja_base::Memory;
use std::alloc::{AllocError, AllocFailed, Global};

/// A step from a place to one inside it: to the member of an object that has a name, or to a
/// position of a list, from 0.
#[derive(Clone, Copy)]
pub enum Step {
    Key(&'static str),
    At(usize),
}

/// Why something isn't read: the shape is wrong at a place, whose steps stand here from inside to
/// outside; or memory was refused.
#[derive(Drop)]
pub enum Fault {
    Shape(Vec<Step>),
    Memory,
}

impl From<Memory> for Fault {
    ghost use Rattle.ja_cert_parts.specs.declared.fault.Fault.TheVariants.{Memory as NoMemory};
    ghost use Rattle.std.specs.Prelude.{◌≡◌};

    ghost from_gives = { λ _ e. e ≡ NoMemory };

    fn from(_: Memory) -> Self {
        Fault::Memory
    }
}

impl From<AllocError> for Fault {
    ghost use Rattle.ja_cert_parts.specs.declared.fault.Fault.TheVariants.{Memory};
    ghost use Rattle.std.specs.Prelude.{◌≡◌};

    ghost from_gives = { λ _ e. e ≡ Memory };

    fn from(_: AllocError) -> Self {
        Fault::Memory
    }
}

impl<T: Drop> From<AllocFailed<T>> for Fault {
    ghost use Rattle.ja_cert_parts.specs.declared.fault.Fault.TheVariants.{Memory};
    ghost use Rattle.std.specs.Prelude.{◌≡◌};

    ghost from_gives = { λ _ e. e ≡ Memory };

    fn from(_: AllocFailed<T>) -> Self {
        Fault::Memory
    }
}

impl Fault {
    /// The fault as it is seen from one step further outside.
    fn behind(self, step: Step) -> Fault
        ensures { (wrong : Option Path) → Tells wrong self
            → Tells (wrong_place.under (step_text step) wrong) result }
    {
        match self {
            Fault::Shape(mut steps) => match steps.push(step) {
                Ok(()) => Fault::Shape(steps),
                Err(_) => Fault::Memory,
            },
            Fault::Memory => Fault::Memory,
        }
    }
}

/// What was read at a position of a list, seen from the list.
pub fn at<T>(read: Result<T, Fault>, position: usize) -> Result<T, Fault>
    ensures same { IfOk result (λ value. read ≡ Ok value) }
    ensures told { (wrong : Option Path) → Passes wrong read
        → Passes (wrong_place.at position wrong) result }
{
    match read {
        Ok(value) => Ok(value),
        Err(fault) => Err(fault.behind(Step::At(position))),
    }
}

/// What was read in the member of an object that has this name, seen from the object.
pub fn under<T>(read: Result<T, Fault>, key: &'static str) -> Result<T, Fault>
    ensures same { IfOk result (λ value. read ≡ Ok value) }
    ensures told { (wrong : Option Path) → Passes wrong read
        → Passes (wrong_place.under key.now wrong) result }
{
    match read {
        Ok(value) => Ok(value),
        Err(fault) => Err(fault.behind(Step::Key(key))),
    }
}

/// The place itself is wrong.
pub fn here(alloc: Global) -> Fault
    ensures { Tells here result }
{
    Fault::Shape(Vec::new(alloc))
}

/// The place itself is wrong unless something holds.
pub fn here_unless(alloc: Global, holds: bool) -> Result<(), Fault>
    ensures { Passes (here_unless holds) result }
{
    if holds { Ok(()) } else { Err(here(alloc)) }
}
