ghost use Rattle.std.specs.Prelude.{◌≡◌, ◌<◌, ◌+◌, ◌++◌, map, length, take, drop, IfOk, IfErr};
ghost use Rattle.ja_device.specs.Devices.{signature_of, failed_after as failed_after_spec, IsAsked};
ghost use Rattle.ja_device.specs.Signatures.{AreSignatures, IsRefused, IsPosition};

use crate::device::Device;
use crate::fault::{CallFault, DevicesFault};
use crate::refusing::{judged, position};
use ja_base::{Memory, Seq};
use ja_prim::{Primitive, Signature, Text16};
use std::alloc::Global;
use std::marker::Model;

/// The devices of a program, at most 64: their names are ASCII identifiers of 1 to 64 characters,
/// no two are alike, and each declares some kind of answers. Contracts see the devices, and how
/// often one of them failed.
#[derive(Drop)]
pub struct Devices<D: Device> {
    list: Vec<D>,
    failed: u64,
}

impl<D: Device> Model for Devices<D> {
    ghost use Rattle.std.specs.Prelude.{map};
    ghost use Rattle.ja_device.specs.Devices.{AllSeen, signature_of};
    ghost use Rattle.ja_device.specs.Signatures.{AreSignatures};

    ghost Value = { AllSeen };

    ghost view = { λ d. record { devices = map D.seen d.list.items; failed = d.failed } };

    ghost invariant = { λ d. AreSignatures (map signature_of (map D.seen d.list.items)) };
}

impl<D: Device> Devices<D> {
    /// The devices of a list. It takes no memory.
    ///
    /// # Errors
    ///
    /// The list comes back, with `TooMany` exactly where it has more than 64 devices, and else with
    /// the fault of the first device, by its index, that can't stand behind those before it:
    /// `BadName` exactly where its name is no ASCII identifier of 1 to 64 characters, else
    /// `NoKinds` exactly where it declares no kind of answers, else `Twice` exactly where an
    /// earlier one has its name.
    pub fn new(list: Vec<D>) -> Result<Devices<D>, (DevicesFault, Vec<D>)>
        ensures devices { IfOk result (λ d. d
            ≡ record { devices = map D.seen list.items; failed = 0 }) }
        ensures fit { IfOk result (λ d. AreSignatures (map signature_of d.devices)) }
        ensures refused { IfErr result (λ e. IsRefused (map signature_of (map D.seen list.items))
            e.0) }
        ensures back { IfErr result (λ e. e.1 ≡ list) }
    {
        match judged(&list) {
            Some(fault) => Err((fault, list)),
            None => Ok(Devices { list, failed: 0 }),
        }
    }

    /// The names and kinds, in order. The error is want of memory.
    pub fn signatures(&self, alloc: Global) -> Result<Seq<Signature>, Memory>
        ensures signatures { IfOk result (λ s. s ≡ map signature_of self.now.devices) }
        ensures fit { AreSignatures (map signature_of self.now.devices) }
    {
        let mut signatures = Vec::with_capacity(alloc, self.list.len())?;
        for device in &self.list {
            let name = Text16::from_ascii(alloc, device.name().as_bytes())?;
            let kinds = device.kinds();
            signatures.push(Signature { name, kinds })?;
        }
        Ok(Seq::from_vec(signatures))
    }

    /// The index of the device that has a name, or `None` exactly where no device has it.
    pub fn find(&self, name: &str) -> Option<usize>
        ensures { IsPosition (map (λ d. d.name) self.now.devices) name.now result }
    {
        position(&self.list, name)
    }

    /// Calls the device of an index, once and with these arguments. All others stand.
    ///
    /// # Errors
    ///
    /// Those of the device. Where it failed, the number of failures of `Devices` is one more, or
    /// stands at its last value, 2^64 - 1.
    pub fn call(
        &mut self,
        alloc: Global,
        index: usize,
        args: &[Primitive],
    ) -> Result<Primitive, CallFault>
        requires { index < length self.old.devices }
        ensures { IsAsked self.old self.new index args.now result }
    {
        let answer = self.list[index].call(alloc, args);
        self.failed = failed_after(self.failed, &answer);
        answer
    }

    /// Lets the device of an index go. The others keep their order.
    pub fn retire(&mut self, index: usize)
        requires { index < length self.old.devices }
        ensures { self.new ≡ record self.old {
          devices = take index self.old.devices
              ++ drop (index + 1) self.old.devices;
        } }
    {
        let _ = self.list.remove(index);
    }

    /// The devices, in order and in the same memory.
    pub fn into_inner(self) -> Vec<D>
        ensures { map D.seen result.items ≡ self.devices }
    {
        let Devices { list, failed: _ } = self;
        list
    }
}

/// How often one of some devices failed, after a call that gave this answer.
fn failed_after(failed: u64, answer: &Result<Primitive, CallFault>) -> u64
    ensures { result ≡ failed_after_spec failed answer.now }
{
    match answer {
        Err(CallFault::Failed) => failed.saturating_add(1),
        Ok(_) | Err(CallFault::Memory) => failed,
    }
}
