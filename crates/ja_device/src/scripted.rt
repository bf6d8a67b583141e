ghost use Rattle.std.specs.Prelude.{◌≡◌, ◌<◌, ◌↔◌, [], Some, Err, length, slice_get, Contains, IfOk};
ghost use Rattle.std.specs.String.{string_bytes};
ghost use Rattle.ja_device.specs.Devices.{IsCalled, failed_after};
ghost use Rattle.ja_device.specs.declared.fault.CallFault.TheVariants as fault;
ghost use Rattle.ja_device.specs.Scripts.{AreOfKinds, answer_index, call_number};

use crate::copies::copies;
use crate::device::Device;
use crate::fault::CallFault;
use crate::heard::Heard;
use ja_base::Memory;
use ja_prim::{Kinds, Primitive};
use std::alloc::Global;

/// A device that answers from a list, in its order, and repeats the last answer. It tells what it
/// has heard.
#[derive(Drop)]
pub struct Scripted {
    pub name: String,
    pub kinds: Kinds,
    pub answers: Vec<Primitive>,
    /// The numbers of the calls that fail, counted from 1 over the calls that were answered or
    /// failed.
    pub fail_at: Vec<u64>,
    pub heard: Vec<Heard>,
    /// How many calls failed; it stops at its last value.
    pub faults: u64,
    ghost some: { 0 < length answers.items },
    ghost fit: { AreOfKinds kinds answers.items },
}

impl Scripted {
    /// A device that was not called yet. The error is want of memory.
    pub fn new(
        alloc: Global,
        name: &str,
        kinds: Kinds,
        answers: Vec<Primitive>,
        fail_at: Vec<u64>,
    ) -> Result<Scripted, Memory>
        requires some { 0 < length answers.items }
        requires fit { AreOfKinds kinds answers.items }
        ensures name { IfOk result (λ s. string_bytes s.name ≡ name.now) }
        ensures script { IfOk result (λ s. (s.kinds ≡ kinds) × (s.answers ≡ answers)
            × (s.fail_at ≡ fail_at)) }
        ensures uncalled { IfOk result (λ s. (s.heard.items ≡ []) × (s.faults ≡ 0)) }
    {
        let name = String::from_str(alloc, name)?;
        Ok(Scripted {
            name,
            kinds,
            answers,
            fail_at,
            heard: Vec::new(alloc),
            faults: 0,
        })
    }

    /// The number of the next call.
    fn next_call(&self) -> u64
        ensures { result ≡ call_number (length self.now.heard.items) self.now.faults }
    {
        (self.heard.len() as u64)
            .saturating_add(self.faults)
            .saturating_add(1)
    }
}

impl Device for Scripted {
    ghost use Rattle.std.specs.Prelude.{Some};
    ghost use Rattle.std.specs.String.{string_bytes};

    ghost seen = { λ s. record {
      name = string_bytes s.name;
      kinds = s.kinds;
      heard = Some s.heard.items;
      faults = s.faults;
    } };

    fn name(&self) -> &str {
        &self.name
    }

    fn kinds(&self) -> Kinds {
        self.kinds
    }

    fn call(&mut self, alloc: Global, args: &[Primitive]) -> Result<Primitive, CallFault>
        // As every device.
        ensures called { IsCalled (record {
          name = string_bytes self.old.name;
          kinds = self.old.kinds;
          heard = Some self.old.heard.items;
          faults = self.old.faults;
        })
            (record {
              name = string_bytes self.new.name;
              kinds = self.new.kinds;
              heard = Some self.new.heard.items;
              faults = self.new.faults;
            }) args.now result }

        // And exactly which calls fail, which answer a call gives, that each failure is counted,
        // and that the script stays as it is.
        ensures fails { (result ≡ Err fault.Failed)
            ↔ Contains self.old.fail_at.items (call_number (length self.old.heard.items)
            self.old.faults) }
        ensures answer { IfOk result (λ q. slice_get self.old.answers.items
            (answer_index self.old.answers.items (length self.old.heard.items)) ≡ Some q) }
        ensures count { self.new.faults ≡ failed_after self.old.faults result }
        ensures script { (self.new.answers ≡ self.old.answers)
            × (self.new.fail_at ≡ self.old.fail_at) }
    {
        if self.fail_at.contains(&self.next_call()) {
            self.faults = self.faults.saturating_add(1);
            return Err(CallFault::Failed);
        }
        let given = self.heard.len().min(self.answers.len() - 1);
        let answer = self.answers[given].copy()?;
        let told = self.answers[given].copy()?;
        let args = copies(alloc, args)?;
        self.heard.push(Heard { args, answer: told })?;
        Ok(answer)
    }
}
