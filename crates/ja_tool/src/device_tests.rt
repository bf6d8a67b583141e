//! Runs with devices that fail, with other devices than those of the program, and devices that are
//! refused.

use crate::tests::{is_answer, repeated, words};
use ja_base::{Memory, MemorySink, MemorySource};
use ja_device::{CallFault, Device, Devices, DevicesFault, Scripted};
use ja_host::{input, number, print, text};
use ja_prim::{Kinds, Primitive};
use ja_top::{Status, tajs};
use std::alloc::Global;

/// A name of 64 characters.
const LONGEST: &str = "a234567890123456789012345678901234567890123456789012345678901234";

/// One of 65.
const TOO_LONG: &str = "a2345678901234567890123456789012345678901234567890123456789012345";

/// Names of devices, and the message of why they are refused, or nothing.
const REFUSALS: [(&[&str], &str); 9] = [
    (&["9a"], "the name of device 0 is no identifier"),
    (
        &["a", "_9", "$", "a b"],
        "the name of device 3 is no identifier",
    ),
    (&["a", ""], "the name of device 1 is no identifier"),
    (&["a-b"], "the name of device 0 is no identifier"),
    (&[LONGEST], ""),
    (
        &[LONGEST, TOO_LONG],
        "the name of device 1 is no identifier",
    ),
    (&["a", "b", "a"], "devices 0 and 2 have one name"),
    (&["a", "A", "A"], "devices 1 and 2 have one name"),
    (&["b", "a9", "a", "$b", "_"], ""),
];

/// The devices of the program, of which `input` and `print` fail at these calls, 0 for none.
pub fn four(alloc: Global, input_fails: u64, print_fails: u64) -> Result<Vec<Scripted>, Memory> {
    let (mut first, mut last) = (input(alloc)?, print(alloc)?);
    first.fail_at.push(input_fails)?;
    last.fail_at.push(print_fails)?;
    let mut list = Vec::new(alloc);
    list.push(first)?;
    list.push(number(alloc)?)?;
    list.push(text(alloc)?)?;
    list.push(last)?;
    Ok(list)
}

/// A device that answers undefined.
pub fn silent(alloc: Global, name: &str) -> Result<Scripted, Memory> {
    let kinds = Kinds {
        undefined: true,
        null: false,
        boolean: false,
        number: false,
        text: false,
    };
    let mut answers = Vec::new(alloc);
    answers.push(Primitive::Undefined)?;
    Scripted::new(alloc, name, kinds, answers, Vec::new(alloc))
}

/// What a run of a text with some devices writes, its status, and the devices that come back.
pub fn with_devices<D: Device>(
    alloc: Global,
    text: &[u8],
    list: Vec<D>,
) -> (Status, Vec<u8>, Vec<D>) {
    let devices = match Devices::new(list) {
        Ok(devices) => devices,
        Err((_, list)) => return (Status::Usage, Vec::new(alloc), list),
    };
    let text = repeated(alloc, text, b"", 0, b"");
    let mut source = MemorySource::new(text, 7, Vec::new(alloc));
    let mut sink = MemorySink::new(alloc, 10, Vec::new(alloc));
    let (status, devices) = tajs(
        alloc,
        &words(alloc, &["run"]),
        &mut source,
        &mut sink,
        devices,
    );
    (status, sink.bytes, devices.into_inner())
}

/// Whether a run in which `input` fails at its second call ends there, and the other devices come
/// back in order.
fn a_device_fails(alloc: Global) -> Result<bool, Memory> {
    let text = b"var n = 0; if (input()) { n = 1; } input();";
    let (status, written, left) = with_devices(alloc, text, four(alloc, 2, 0)?);
    let transcript = "tajs run 1\ncall input() = true\nend device input\nsteps 17\n";
    Ok(
        status == Status::DeviceFault
            && is_answer(&written, transcript)
            && left.len() == 3
            && left[0].name() == "number"
            && left[1].name() == "text"
            && left[2].name() == "print",
    )
}

/// Whether a run ends at the first call of a device that fails at it.
fn the_first_call_fails(alloc: Global) -> Result<bool, Memory> {
    let (status, written, left) = with_devices(alloc, b"input(); print(1);", four(alloc, 1, 0)?);
    let transcript = "tajs run 1\nend device input\n";
    Ok(status == Status::DeviceFault && is_answer(&written, transcript) && left.len() == 3)
}

/// As many devices, of which the last one is `last` and the others have a name of their own.
fn many(alloc: Global, count: u8) -> Result<Vec<Scripted>, Memory> {
    let mut list = Vec::new(alloc);
    for number in 1..count {
        let mut name = String::new(alloc);
        name.push('d')?;
        name.push((b'0' + number / 10) as char)?;
        name.push((b'0' + number % 10) as char)?;
        list.push(silent(alloc, &name)?)?;
    }
    list.push(silent(alloc, "last")?)?;
    Ok(list)
}

/// Whether the last of 64 devices is asked, and all come back.
fn the_last_one_is_asked(alloc: Global) -> Result<bool, Memory> {
    let (status, written, left) = with_devices(alloc, b"last(7);", many(alloc, 64)?);
    Ok(
        status == Status::Done
            && is_answer(
                &written,
                "tajs run 1\ncall last(7) = undefined\nend normal\n",
            )
            && left.len() == 64
            && left[62].heard.is_empty()
            && left[63].heard.len() == 1,
    )
}

/// Whether a device takes the place of a built-in function.
fn a_built_in_is_replaced(alloc: Global) -> Result<bool, Memory> {
    let mut list = Vec::new(alloc);
    list.push(silent(alloc, "isNaN")?)?;
    list.push(silent(alloc, "Object")?)?;
    let text = b"isNaN(1); throw ({}).toString === Object.prototype;";
    let (status, written, left) = with_devices(alloc, text, list);
    Ok(
        status == Status::Uncaught
            && is_answer(
                &written,
                "tajs run 1\ncall isNaN(1) = undefined\nend uncaught false\n",
            )
            && left.len() == 2,
    )
}

/// Why there are no devices of some names.
fn refusal(alloc: Global, names: &[&str]) -> Result<Option<DevicesFault>, Memory> {
    let mut list = Vec::new(alloc);
    for name in names {
        list.push(silent(alloc, name)?)?;
    }
    Ok(Devices::new(list).err().map(|refused| refused.0))
}

/// The message of it, or nothing.
fn message(alloc: Global, names: &[&str]) -> Result<String, Memory> {
    match refusal(alloc, names)? {
        Some(fault) => Ok(format!(in alloc; "{fault}")?),
        None => Ok(String::new(alloc)),
    }
}

/// Whether some names are refused with a message.
fn is_refused(alloc: Global, names: &[&str], wanted: &str) -> Result<bool, Memory> {
    let found = message(alloc, names)?;
    Ok(found.as_str() == wanted)
}

/// The message of the first names that are refused with another one.
fn first_wrong_refusal(alloc: Global) -> Result<Option<&'static str>, Memory> {
    for (names, wanted) in &REFUSALS {
        if !is_refused(alloc, names, wanted)? {
            return Ok(Some(*wanted));
        }
    }
    Ok(None)
}

/// A device that declares no kind of answers, and gives none.
#[derive(Drop)]
struct Mute {
    name: String,
}

impl Device for Mute {
    ghost use Rattle.std.specs.Prelude.{None, false};
    ghost use Rattle.std.specs.String.{string_bytes};

    ghost seen = { λ m. record {
      name = string_bytes m.name;
      kinds = record {
        undefined = false;
        null = false;
        boolean = false;
        number = false;
        text = false;
      };
      heard = None;
      faults = 0;
    } };

    fn name(&self) -> &str {
        &self.name
    }

    fn kinds(&self) -> Kinds {
        Kinds {
            undefined: false,
            null: false,
            boolean: false,
            number: false,
            text: false,
        }
    }

    fn call(&mut self, _: Global, _: &[Primitive]) -> Result<Primitive, CallFault> {
        Err(CallFault::Memory)
    }
}

/// Why there is no device without kinds.
fn refusal_without_kinds(alloc: Global) -> Result<Option<DevicesFault>, Memory> {
    let mut list = Vec::new(alloc);
    list.push(Mute {
        name: String::from_str(alloc, "mute")?,
    })?;
    Ok(Devices::new(list).err().map(|refused| refused.0))
}

/// Why there are no 65 devices.
fn refusal_of_many(alloc: Global) -> Result<Option<DevicesFault>, Memory> {
    Ok(
        Devices::new(many(alloc, 65)?)
            .err()
            .map(|refused| refused.0),
    )
}

#[test]
fn devices(rt: HostRuntime) {
    let alloc = rt.alloc();
    assert_eq!(rt; a_device_fails(alloc), Ok(true));
    assert_eq!(rt; the_first_call_fails(alloc), Ok(true));
    assert_eq!(rt; the_last_one_is_asked(alloc), Ok(true));
    assert_eq!(rt; a_built_in_is_replaced(alloc), Ok(true));
    let twice = DevicesFault::Twice {
        first: 0,
        second: 1,
    };
    assert_eq!(rt; refusal(alloc, &["input", "input"]), Ok(Some(twice)));
    assert_eq!(rt;
        refusal(alloc, &["a b"]),
        Ok(Some(DevicesFault::BadName { index: 0 }))
    );
    assert_eq!(rt;
        refusal(alloc, &["a", ""]),
        Ok(Some(DevicesFault::BadName { index: 1 }))
    );
    assert_eq!(rt; refusal(alloc, &["$_9", "a"]), Ok(None));
    assert_eq!(rt;
        refusal_without_kinds(alloc),
        Ok(Some(DevicesFault::NoKinds { index: 0 }))
    );
    assert_eq!(rt; refusal_of_many(alloc), Ok(Some(DevicesFault::TooMany)));
    assert_eq!(rt; first_wrong_refusal(alloc), Ok(None));
}
