//! Why there are no devices of a list.

ghost use Rattle.std.specs.Prelude.{map};
ghost use Rattle.ja_device.specs.Devices.{signature_of};
ghost use Rattle.ja_device.specs.Signatures.{IsPosition};
ghost use Rattle.ja_device.specs.code.Signatures.{IsFaultBehind, IsJudged};

use crate::device::Device;
use crate::fault::DevicesFault;
use crate::names::{has_kind, is_identifier};

/// The first of some devices that has a name, by its index.
pub(crate) fn position<D: Device>(list: &[D], name: &str) -> Option<usize>
    ensures { IsPosition (map (λ d. (D.seen d).name) list.now) name.now result }
{
    for (index, device) in list.iter().enumerate() {
        if device.name() == name {
            return Some(index);
        }
    }
    None
}

/// Why a device can't stand behind others.
fn fault_behind<D: Device>(before: &[D], device: &D) -> Option<DevicesFault>
    ensures { IsFaultBehind (map (λ d. signature_of (D.seen d)) before.now)
        (signature_of (D.seen device.now)) result }
{
    let index = before.len();
    if !is_identifier(device.name().as_bytes()) {
        return Some(DevicesFault::BadName { index });
    }
    if !has_kind(device.kinds()) {
        return Some(DevicesFault::NoKinds { index });
    }
    let first = position(before, device.name())?;
    Some(DevicesFault::Twice {
        first,
        second: index,
    })
}

/// Why some devices can't be a program's, if they can't.
pub(crate) fn judged<D: Device>(list: &[D]) -> Option<DevicesFault>
    ensures { IsJudged (map (λ d. signature_of (D.seen d)) list.now) result }
{
    if list.len() > 64 {
        return Some(DevicesFault::TooMany);
    }
    for (index, device) in list.iter().enumerate() {
        if let Some(fault) = fault_behind(&list[..index], device) {
            return Some(fault);
        }
    }
    None
}
