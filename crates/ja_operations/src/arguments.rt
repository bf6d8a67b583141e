//! The arguments of a call, one by one and counted, and the names of elements (ES3 10.1.8, 15.4).

ghost use Rattle.std.specs.Prelude.{◌≡◌, ◌≤◌, IfOk, OnOk, length};
ghost use Rattle.ja_prim.specs.Judged.{max_magnitude};
ghost use Rattle.ja_machine.specs.Frames as frames;
ghost use Rattle.ja_machine.specs.Objects as objects;
ghost use Rattle.ja_machine.specs.Writes as writes;

use crate::copies::copy_value;
use crate::made::whole_number;
use ja_base::Memory;
use ja_machine::{Addr, Value};
use ja_prim::{Int, Num, Primitive, Text16, to_text};
use std::alloc::Global;

/// How many arguments there are. There is memory for no more than the greatest whole number,
/// 9,007,199,254,740,991.
pub fn argument_count(arguments: &[Value]) -> Result<Value, Memory>
    ensures count { IfOk result (λ count. count ≡ writes.whole_number (length arguments.now)) }
    ensures few { OnOk result (length arguments.now ≤ max_magnitude) }
{
    let count = arguments.len() as u64;
    if count > 9_007_199_254_740_991 {
        return Err(Memory);
    }
    Ok(whole_number(count))
}

/// An argument, undefined where it is missing.
pub fn argument(alloc: Global, arguments: &[Value], index: usize) -> Result<Value, Memory>
    ensures { IfOk result (λ value. value ≡ frames.argument arguments.now index) }
{
    match arguments.get(index) {
        Some(value) => copy_value(alloc, value),
        None => Ok(Value::Primitive(Primitive::Undefined)),
    }
}

/// The value of a function object, or undefined where there is none.
pub fn object_or_undefined(object: Option<Addr>) -> Value
    ensures { result ≡ frames.object_or_undefined object }
{
    match object {
        Some(a) => Value::Object(a),
        None => Value::Primitive(Primitive::Undefined),
    }
}

/// The name of the element at an index, which is at most 9,007,199,254,740,991.
pub fn index_text(alloc: Global, index: u64) -> Result<Text16, Memory>
    requires { index ≤ max_magnitude }
    ensures { IfOk result (λ name. name ≡ objects.index_text index) }
{
    let number = Num::Whole(Int::new(index as i64).unwrap());
    match to_text(alloc, &Primitive::Number(number)) {
        Ok(text) => Ok(text),
        Err(_) => Err(Memory),
    }
}
