//! Values once more, in memory of their own.

ghost use Rattle.std.specs.Prelude.{◌≡◌, IfOk};

use ja_base::Memory;
use ja_machine::{Content, Value};
use std::alloc::Global;

/// The same value.
pub fn copy_value(alloc: Global, value: &Value) -> Result<Value, Memory>
    ensures { IfOk result (λ copy. copy ≡ value.now) }
{
    match value {
        Value::Primitive(primitive) => {
            let primitive = primitive.copy()?;
            Ok(Value::Primitive(primitive))
        }
        Value::Object(address) => Ok(Value::Object(*address)),
    }
}

/// What a property holds.
pub fn copy_content(alloc: Global, content: &Content) -> Result<Content, Memory>
    ensures { IfOk result (λ copy. copy ≡ content.now) }
{
    match content {
        Content::Value(value) => {
            let value = copy_value(alloc, value)?;
            Ok(Content::Value(value))
        }
        Content::Row => Ok(Content::Row),
    }
}
