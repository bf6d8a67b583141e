//! The host devices of the programs. Each answers from a list, and repeats its last answer.

ghost use Rattle.std.specs.Prelude.{◌≡◌, ◌<◌, IfOk, length, pos};
ghost use Rattle.ja_device.specs.Scripts.{AreOfKinds};
ghost use Rattle.ja_prim.specs.declared.primitive.Num.TheVariants as num;
ghost use Rattle.ja_prim.specs.declared.primitive.Primitive.TheVariants as primitive;
ghost use Rattle.ja_host.specs.Scripts.{AreScripts, IsInput, IsNumber, IsPrint, IsScript, IsText, the_devices};

use ja_base::Memory;
use ja_device::{Devices, Scripted};
use ja_prim::{Int, Kinds, Num, Primitive, Text16};
use std::alloc::Global;

// A device that gives these answers, was not called yet, and fails at no call.
fn script(
    alloc: Global,
    name: &str,
    kinds: Kinds,
    answers: Vec<Primitive>,
) -> Result<Scripted, Memory>
    requires some { 0 < length answers.items }
    requires fit { AreOfKinds kinds answers.items }
    ensures { IfOk result (IsScript name.now kinds answers.items) }
{
    Scripted::new(alloc, name, kinds, answers, Vec::new(alloc))
}

fn whole(number: u8) -> Primitive
    ensures { result ≡ primitive.Number (num.Whole (pos number)) }
{
    Primitive::Number(Num::Whole(Int::new(i64::from(number)).unwrap()))
}

/// `input` answers true three times, and then false. `Memory` comes where memory was refused, here
/// and below.
pub fn input(alloc: Global) -> Result<Scripted, Memory>
    ensures { IfOk result IsInput }
{
    let answers = vec![in alloc;
        Primitive::Bool(true),
        Primitive::Bool(true),
        Primitive::Bool(true),
        Primitive::Bool(false),
    ]?;
    script(alloc, "input", Kinds::BOOLEAN, answers)
}

/// `number` answers 0, 1, 2, 3, 5 and 8.
pub fn number(alloc: Global) -> Result<Scripted, Memory>
    ensures { IfOk result IsNumber }
{
    let answers = vec![in alloc; whole(0), whole(1), whole(2), whole(3), whole(5), whole(8)]?;
    script(alloc, "number", Kinds::NUMBER, answers)
}

/// `text` answers "a", "b" and the empty text.
pub fn text(alloc: Global) -> Result<Scripted, Memory>
    ensures { IfOk result IsText }
{
    let first = Text16::from_ascii(alloc, b"a")?;
    let second = Text16::from_ascii(alloc, b"b")?;
    let empty = Text16::from_ascii(alloc, b"")?;
    let answers = vec![in alloc;
        Primitive::Text(first),
        Primitive::Text(second),
        Primitive::Text(empty),
    ]?;
    script(alloc, "text", Kinds::TEXT, answers)
}

/// `print` answers undefined.
pub fn print(alloc: Global) -> Result<Scripted, Memory>
    ensures { IfOk result IsPrint }
{
    let answers = vec![in alloc; Primitive::Undefined]?;
    script(alloc, "print", Kinds::UNDEFINED, answers)
}

/// `input`, `number`, `text` and `print`, in this order.
pub fn scripts(alloc: Global) -> Result<Vec<Scripted>, Memory>
    ensures { IfOk result (λ scripts. AreScripts scripts.items) }
{
    let input = input(alloc)?;
    let number = number(alloc)?;
    let text = text(alloc)?;
    let print = print(alloc)?;
    let scripts = vec![in alloc; input, number, text, print]?;
    Ok(scripts)
}

/// The devices of the programs, which answer from [`scripts`]: `input`, `number`, `text` and
/// `print`, in this order.
pub fn devices(alloc: Global) -> Result<Devices<Scripted>, Memory>
    ensures { IfOk result (λ devices. devices ≡ the_devices) }
{
    let scripts = scripts(alloc)?;
    let Ok(devices) = Devices::new(scripts) else {
        unreachable!()
    };
    Ok(devices)
}
