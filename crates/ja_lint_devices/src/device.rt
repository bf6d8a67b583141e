ghost use Rattle.std.specs.Prelude.{◌≡◌, Err, IfOk, None};
ghost use Rattle.std.specs.String.{string_bytes};
ghost use Rattle.ja_base.specs.Counts.{counted};
ghost use Rattle.ja_device.specs.Devices.{IsCalled};
ghost use Rattle.ja_device.specs.declared.fault.CallFault.TheVariants as fault;

use ja_base::Memory;
use ja_device::{CallFault, Device};
use ja_prim::{Kinds, Primitive};
use std::alloc::Global;

/// A device that is only declared: it answers no call, and each call fails. What it hears isn't
/// told.
#[derive(Drop)]
pub struct Declared {
    pub name: String,
    pub kinds: Kinds,
    /// How many calls failed; it stops at its last value, 2^64 - 1.
    pub faults: u64,
}

impl Declared {
    /// A device that was not called yet. The error is want of memory.
    pub fn new(alloc: Global, name: &str, kinds: Kinds) -> Result<Declared, Memory>
        ensures name { IfOk result (λ d. string_bytes d.name ≡ name.now) }
        ensures kinds { IfOk result (λ d. d.kinds ≡ kinds) }
        ensures uncalled { IfOk result (λ d. d.faults ≡ 0) }
    {
        let name = String::from_str(alloc, name)?;
        Ok(Declared {
            name,
            kinds,
            faults: 0,
        })
    }
}

impl Device for Declared {
    ghost use Rattle.std.specs.Prelude.{None};
    ghost use Rattle.std.specs.String.{string_bytes};

    ghost seen = { λ d. record {
      name = string_bytes d.name;
      kinds = d.kinds;
      heard = None;
      faults = d.faults;
    } };

    fn name(&self) -> &str {
        &self.name
    }

    fn kinds(&self) -> Kinds {
        self.kinds
    }

    fn call(&mut self, _: Global, _args: &[Primitive]) -> Result<Primitive, CallFault>
        // As every device.
        ensures called { IsCalled (record {
          name = string_bytes self.old.name;
          kinds = self.old.kinds;
          heard = None;
          faults = self.old.faults;
        })
            (record {
              name = string_bytes self.new.name;
              kinds = self.new.kinds;
              heard = None;
              faults = self.new.faults;
            }) _args.now result }

        // And each call fails, and is counted.
        ensures fails { result ≡ Err fault.Failed }
        ensures count { self.new.faults ≡ counted self.old.faults }
    {
        self.faults = self.faults.saturating_add(1);
        Err(CallFault::Failed)
    }
}
