//! The devices that values declare.

ghost use Rattle.std.specs.Prelude.{◌≡◌, IfErr, IfOk, map, true};
ghost use Rattle.ja_lint_devices.specs.Devices.{AreDeclared, AreNoDevices, IsRefused, all_kinds};
ghost use Rattle.ja_lint_devices.specs.Devices.{are_kinds, declared_only, word_fault, words_in as words_spec};
ghost use Rattle.ja_lint_devices.specs.code.Reading.{IsRefusedAt, seen_of};

use crate::device::Declared;
use crate::kinds::{first_fault, is_kind, kinds_of};
use crate::refused::{KindsFault, Refused};
use crate::values::{name_in, units, words_in};
use ja_base::Memory;
use ja_device::{Devices, DevicesFault};
use std::alloc::Global;

/// What is wrong with the first word that is wrong.
fn word_fault(alloc: Global, word: &str) -> Result<KindsFault, Memory>
    ensures { IfOk result (λ fault. fault ≡ word_fault word.now) }
{
    if word.is_empty() {
        return Ok(KindsFault::NoKind);
    }
    let units = units(alloc, word)?;
    if is_kind(word) {
        Ok(KindsFault::Repeated { word: units })
    } else {
        Ok(KindsFault::Unknown { word: units })
    }
}

/// The device that the value of an index declares.
fn device_in(alloc: Global, index: usize, value: &str) -> Result<Declared, Refused>
    ensures kinds { IfOk result (λ _. are_kinds (words_spec value.now) ≡ true) }
    ensures seen { IfOk result (λ device. seen_of device ≡ declared_only value.now) }
    ensures refused { IfErr result (IsRefusedAt index value.now) }
{
    let words = words_in(alloc, value)?;
    let name = name_in(value);
    if let Some(at) = first_fault(&words) {
        let fault = word_fault(alloc, words[at])?;
        let name = units(alloc, name)?;
        return Err(Refused::Kinds { index, name, fault });
    }
    Ok(Declared::new(alloc, name, kinds_of(&words))?)
}

/// The devices that values declare, where the words of each are those of kinds.
fn devices_in(alloc: Global, values: &[&str]) -> Result<Vec<Declared>, Refused>
    ensures kinds { IfOk result (λ _. all_kinds (map (λ v. v.now) values.now) ≡ true) }
    ensures seen { IfOk result (λ list. map seen_of list.items
        ≡ map declared_only (map (λ v. v.now) values.now)) }
    ensures refused { IfErr result (IsRefused (map (λ v. v.now) values.now)) }
{
    let mut list = Vec::with_capacity(alloc, values.len())?;
    for (index, value) in values.iter().enumerate() {
        match device_in(alloc, index, value) {
            Ok(device) => list.push(device)?,
            Err(fault) => return Err(fault),
        }
    }
    Ok(list)
}

/// Why values whose words are those of kinds declare no devices.
fn refusal(alloc: Global, values: &[&str], fault: DevicesFault) -> Refused
    requires { AreNoDevices (map (λ v. v.now) values.now) fault }
    ensures { IsRefused (map (λ v. v.now) values.now) result }
{
    match fault {
        DevicesFault::TooMany => Refused::TooMany,
        DevicesFault::BadName { index } => match units(alloc, name_in(values[index])) {
            Ok(name) => Refused::BadName { index, name },
            Err(Memory) => Refused::Memory,
        },
        DevicesFault::NoKinds { index: _ } => unreachable!(),
        DevicesFault::Twice { first, second } => match units(alloc, name_in(values[second])) {
            Ok(name) => Refused::Twice {
                first,
                second,
                name,
            },
            Err(Memory) => Refused::Memory,
        },
    }
}

/// The devices that values declare, in order. A value is the name of a device, whose kind is then
/// `undefined`, or its name, `=`, and words of kinds with `|` between them: `undefined`, `null`,
/// `boolean`, `number` and `string`, each at most once and in any order.
///
/// # Errors
///
/// `Kinds` comes exactly where the words of some value aren't those of kinds, with the first such
/// value, and what is wrong with the first word in it that is wrong. Else `TooMany` comes exactly
/// where there are more than 64 values, and else the fault of the first value that can't stand
/// behind those before it: `BadName` exactly where its name is no ASCII identifier of 1 to 64
/// characters, else `Twice` exactly where an earlier one has its name. `Memory` comes where memory
/// is refused.
pub fn declared(alloc: Global, values: &[&str]) -> Result<Devices<Declared>, Refused>
    ensures declared { IfOk result (AreDeclared (map (λ v. v.now) values.now)) }
    ensures refused { IfErr result (IsRefused (map (λ v. v.now) values.now)) }
{
    match Devices::new(devices_in(alloc, values)?) {
        Ok(devices) => Ok(devices),
        Err((fault, _)) => Err(refusal(alloc, values, fault)),
    }
}
