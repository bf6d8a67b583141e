//! The objects that nodes make.

ghost use Rattle.std.specs.Prelude.{◌≡◌, [], ◌≤◌, length, IfOk};
ghost use Rattle.ja_graph.specs.declared.builtins.TheConstants as builtins;
ghost use Rattle.ja_prim.specs.declared.primitive.Primitive.TheVariants as primitive;
ghost use Rattle.ja_prim.specs.Judged.{max_magnitude};
ghost use Rattle.ja_machine.specs.Objects as objects;
ghost use Rattle.ja_machine.specs.Writes.{whole_number};

use ja_base::{Memory, Site};
use ja_graph::{
    ALL_ATTRS, ARRAY_PROTOTYPE, BOOLEAN_PROTOTYPE, Class, DONT_DELETE, DONT_ENUM, ERROR_PROTOTYPE,
    EVAL_ERROR_PROTOTYPE, ErrorKind, FUNCTION_PROTOTYPE, KEPT_HIDDEN, Made, NO_ATTRS,
    NUMBER_PROTOTYPE, OBJECT_PROTOTYPE, RANGE_ERROR_PROTOTYPE, REFERENCE_ERROR_PROTOTYPE,
    STRING_PROTOTYPE, SYNTAX_ERROR_PROTOTYPE, TYPE_ERROR_PROTOTYPE, URI_ERROR_PROTOTYPE,
};
use ja_heap::Object;
use ja_machine::{Addr, Content, Slots, Value};
use ja_prim::{Int, Num, Primitive, Text16};
use std::alloc::Global;

/// The only object of a site without a node.
pub fn first_of(site: Site) -> Addr
    ensures { result ≡ objects.first_of site }
{
    Addr { site, ordinal: 0 }
}

/// A whole number, of at most 9,007,199,254,740,991.
pub(crate) fn whole_number(n: u64) -> Value
    requires { n ≤ max_magnitude }
    ensures { result ≡ whole_number n }
{
    Value::Primitive(Primitive::Number(Num::Whole(Int::new(n as i64).unwrap())))
}

/// The internal properties of an object that inherits from the object of a site.
fn inheriting(prototype: Site) -> Slots
    ensures { result ≡ objects.inheriting prototype }
{
    Slots {
        prototype: Some(first_of(prototype)),
        outer: None,
        scope: None,
        value: None,
        arguments: false,
    }
}

/// The prototype of the errors of a kind (15.11.4, 15.11.7).
fn prototype_of_error(kind: ErrorKind) -> Site
    ensures { result ≡ objects.prototype_of_error kind }
{
    match kind {
        ErrorKind::Error => ERROR_PROTOTYPE,
        ErrorKind::EvalError => EVAL_ERROR_PROTOTYPE,
        ErrorKind::RangeError => RANGE_ERROR_PROTOTYPE,
        ErrorKind::ReferenceError => REFERENCE_ERROR_PROTOTYPE,
        ErrorKind::SyntaxError => SYNTAX_ERROR_PROTOTYPE,
        ErrorKind::TypeError => TYPE_ERROR_PROTOTYPE,
        ErrorKind::URIError => URI_ERROR_PROTOTYPE,
    }
}

/// An error of the machine's own: its message has no attributes.
pub fn error_object(alloc: Global, prototype: Site, message: Text16) -> Result<Object, Memory>
    ensures { IfOk result (λ o. o ≡ objects.error_object prototype message) }
{
    let name = Text16::from_ascii(alloc, b"message")?;
    let content = Content::Value(Value::Primitive(Primitive::Text(message)));
    let error = Object::new(alloc, Class::Error, inheriting(prototype));
    error.with(alloc, &name, content, NO_ATTRS)
}

/// A new empty array (15.4.2.1).
fn empty_array(alloc: Global) -> Result<Object, Memory>
    ensures { IfOk result (λ o. o ≡ objects.empty_object Made.Array) }
{
    let name = Text16::from_ascii(alloc, b"length")?;
    let array = Object::new(alloc, Class::Array, inheriting(ARRAY_PROTOTYPE));
    array.with(alloc, &name, Content::Value(whole_number(0)), KEPT_HIDDEN)
}

/// A new empty object (15.2.2.1), array (15.4.2.1) or error (15.11.2.1).
pub fn empty_object(alloc: Global, made: Made) -> Result<Object, Memory>
    ensures { IfOk result (λ o. o ≡ objects.empty_object made) }
{
    match made {
        Made::Object => Ok(Object::new(alloc, Class::Object, inheriting(OBJECT_PROTOTYPE))),
        Made::Array => empty_array(alloc),
        Made::Error(kind) => Ok(Object::new(
            alloc,
            Class::Error,
            inheriting(prototype_of_error(kind)),
        )),
    }
}

/// The object of a value without properties of its own (9.9).
fn wrapper(alloc: Global, class: Class, prototype: Site, value: Primitive) -> Object
    ensures { result ≡ objects.wrapper class prototype value [] }
{
    let slots = Slots {
        prototype: Some(first_of(prototype)),
        outer: None,
        scope: None,
        value: Some(value),
        arguments: false,
    };
    Object::new(alloc, class, slots)
}

/// The object of a truth value (9.9).
pub fn boolean_object(alloc: Global, value: bool) -> Object
    ensures { result ≡ objects.wrapper Class.Boolean builtins.BOOLEAN_PROTOTYPE
        (primitive.Bool value) [] }
{
    wrapper(
        alloc,
        Class::Boolean,
        BOOLEAN_PROTOTYPE,
        Primitive::Bool(value),
    )
}

/// The object of a number (9.9).
pub fn number_object(alloc: Global, value: Num) -> Object
    ensures { result ≡ objects.wrapper Class.Number builtins.NUMBER_PROTOTYPE
        (primitive.Number value) [] }
{
    wrapper(
        alloc,
        Class::Number,
        NUMBER_PROTOTYPE,
        Primitive::Number(value),
    )
}

/// The object of a text, which has its length (9.9, 15.5.5.1).
pub fn text_object(alloc: Global, text: &Text16) -> Result<Object, Memory>
    ensures { IfOk result (λ o. o ≡ objects.wrapper Class.String builtins.STRING_PROTOTYPE
        (primitive.Text text.now) (objects.text_length text.now)) }
{
    let name = Text16::from_ascii(alloc, b"length")?;
    let length = whole_number(text.units().len() as u64);
    let value = Primitive::Text(text.copy()?);
    let object = wrapper(alloc, Class::String, STRING_PROTOTYPE, value);
    object.with(alloc, &name, Content::Value(length), ALL_ATTRS)
}

/// An object before a scope chain (12.14, 13), made as by `new Object()`.
pub fn scope_object(alloc: Global, outer: Addr) -> Object
    ensures { result ≡ objects.scope_object outer }
{
    let slots = Slots {
        prototype: Some(first_of(OBJECT_PROTOTYPE)),
        outer: Some(outer),
        scope: None,
        value: None,
        arguments: false,
    };
    Object::new(alloc, Class::Object, slots)
}

/// A function object with so many parameters, at most 9,007,199,254,740,991, a scope chain, and the
/// object that its constructions inherit from (13.2).
pub fn function_object(
    alloc: Global,
    parameters: u64,
    chain: Addr,
    prototype: Addr,
) -> Result<Object, Memory>
    requires { parameters ≤ max_magnitude }
    ensures { IfOk result (λ o. o ≡ objects.function_object parameters chain prototype) }
{
    let length = Text16::from_ascii(alloc, b"length")?;
    let name = Text16::from_ascii(alloc, b"prototype")?;
    let slots = Slots {
        prototype: Some(first_of(FUNCTION_PROTOTYPE)),
        outer: None,
        scope: Some(chain),
        value: None,
        arguments: false,
    };
    let parameters = Content::Value(whole_number(parameters));
    let function = Object::new(alloc, Class::Function, slots);
    let function = function.with(alloc, &length, parameters, ALL_ATTRS)?;
    let prototype = Content::Value(Value::Object(prototype));
    function.with(alloc, &name, prototype, DONT_DELETE)
}

/// The object that the constructions of a function inherit from (13.2).
pub fn prototype_object(alloc: Global, function: Addr) -> Result<Object, Memory>
    ensures { IfOk result (λ o. o ≡ objects.prototype_object function) }
{
    let name = Text16::from_ascii(alloc, b"constructor")?;
    let object = Object::new(alloc, Class::Object, inheriting(OBJECT_PROTOTYPE));
    let function = Content::Value(Value::Object(function));
    object.with(alloc, &name, function, DONT_ENUM)
}
