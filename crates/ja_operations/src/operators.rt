//! What operations give of the values of their operands (ES3 9, 11.4 to 11.10).

ghost use Rattle.std.specs.Prelude.{◌≡◌, ◌≤◌, false, length, IfOk, Some};
ghost use Rattle.ja_prim.specs.Arithmetic as arithmetic;
ghost use Rattle.ja_prim.specs.Bits as bits;
ghost use Rattle.ja_prim.specs.declared.primitive.Primitive.TheVariants as primitive;
ghost use Rattle.ja_prim.specs.Comparison.{add, less};
ghost use Rattle.ja_prim.specs.Conversions.{to_text};
ghost use Rattle.ja_prim.specs.Texts.{max_units};
ghost use Rattle.ja_machine.specs.declared.machine.Value.TheVariants as value;
ghost use Rattle.ja_machine.specs.Values.{unary, binary, truth_of, type_of, on_primitive, of_number, of_numbers, compared, is_true, is_false, loose_equal_values, strict_equal_values};
ghost use Rattle.ja_operations.specs.code.Operators.{number_operation, is_equality};

use ja_base::Memory;
use ja_graph::{BinaryOp, Class, UnaryOp};
use ja_heap::Heap;
use ja_machine::Value;
use ja_prim::{
    Num, PrimFault, Primitive, Stop, Text16, add, add_numbers, and, compare, div, loose_eq, mul,
    neg, not, or, rem, shl, shr, strict_eq, sub, to_bool, to_num, to_text, ushr, xor,
};
use std::alloc::Global;

/// What an operation gives: nothing, where it doesn't take its operands; else a value, or why the
/// run leaves the profile.
pub type Outcome = Option<Result<Primitive, Stop>>;

/// ToBoolean (9.2): an object is true.
fn truth_of(value: &Value) -> bool
    ensures { result ≡ truth_of value.now }
{
    match value {
        Value::Primitive(primitive) => to_bool(primitive),
        Value::Object(_) => true,
    }
}

/// What `typeof` gives (11.4.3).
fn type_of(heap: &Heap, value: &Value) -> &'static [u8]
    ensures text { result.now ≡ type_of heap.now value.now }
    ensures short { length result.now ≤ max_units }
{
    match value {
        Value::Primitive(Primitive::Undefined) => b"undefined",
        Value::Primitive(Primitive::Null) => b"object",
        Value::Primitive(Primitive::Bool(_)) => b"boolean",
        Value::Primitive(Primitive::Number(_)) => b"number",
        Value::Primitive(Primitive::Text(_)) => b"string",
        Value::Object(address) => match heap.class_at(*address) {
            Some(Class::Function) => b"function",
            _ => b"object",
        },
    }
}

/// A number as it stands (9.3).
fn number(value: &Value) -> Outcome
    ensures { result ≡ on_primitive (of_number (λ n. n)) value.now }
{
    match value {
        Value::Primitive(primitive) => match to_num(primitive) {
            Ok(number) => Some(Ok(Primitive::Number(number))),
            Err(stop) => Some(Err(stop)),
        },
        Value::Object(_) => None,
    }
}

/// The opposite of a number (11.4.7).
fn opposite(value: &Value) -> Outcome
    ensures { result ≡ on_primitive (of_number arithmetic.neg) value.now }
{
    match value {
        Value::Primitive(primitive) => match to_num(primitive) {
            Ok(number) => Some(Ok(Primitive::Number(neg(number)))),
            Err(stop) => Some(Err(stop)),
        },
        Value::Object(_) => None,
    }
}

/// A number with its bits turned (11.4.8).
fn complement(value: &Value) -> Outcome
    ensures { result ≡ on_primitive (of_number bits.not) value.now }
{
    match value {
        Value::Primitive(primitive) => match to_num(primitive) {
            Ok(number) => Some(Ok(Primitive::Number(not(number)))),
            Err(stop) => Some(Err(stop)),
        },
        Value::Object(_) => None,
    }
}

/// The text of a primitive value (9.8).
fn text(alloc: Global, value: &Value) -> Result<Outcome, Memory>
    ensures { IfOk result (λ outcome. outcome
        ≡ on_primitive (λ q. Ok (primitive.Text (to_text q))) value.now) }
{
    match value {
        Value::Primitive(primitive) => match to_text(alloc, primitive) {
            Ok(text) => Ok(Some(Ok(Primitive::Text(text)))),
            Err(_) => Err(Memory),
        },
        Value::Object(_) => Ok(None),
    }
}

/// What an operation on one value gives.
pub fn unary(alloc: Global, heap: &Heap, op: UnaryOp, value: &Value) -> Result<Outcome, Memory>
    ensures { IfOk result (λ outcome. outcome ≡ unary heap.now op value.now) }
{
    match op {
        UnaryOp::ToNum => Ok(number(value)),
        UnaryOp::ToText => text(alloc, value),
        UnaryOp::Neg => Ok(opposite(value)),
        UnaryOp::BitNot => Ok(complement(value)),
        UnaryOp::ToBool => Ok(Some(Ok(Primitive::Bool(truth_of(value))))),
        UnaryOp::Not => Ok(Some(Ok(Primitive::Bool(!truth_of(value))))),
        UnaryOp::TypeOf => {
            let text = Text16::from_ascii(alloc, type_of(heap, value))?;
            Ok(Some(Ok(Primitive::Text(text))))
        }
    }
}

/// Whether two values are equal after conversion (11.9.3). An object is equal to itself alone.
fn loose_equal(a: &Value, b: &Value) -> Result<bool, Stop>
    ensures { result ≡ loose_equal_values a.now b.now }
{
    match a {
        Value::Primitive(m) => match b {
            Value::Primitive(n) => loose_eq(m, n),
            Value::Object(_) => Ok(false),
        },
        Value::Object(x) => match b {
            Value::Primitive(_) => Ok(false),
            Value::Object(y) => Ok(x == y),
        },
    }
}

/// Whether two values are of one type and equal (11.9.6).
fn strict_equal(a: &Value, b: &Value) -> bool
    ensures { result ≡ strict_equal_values a.now b.now }
{
    match a {
        Value::Primitive(m) => match b {
            Value::Primitive(n) => strict_eq(m, n),
            Value::Object(_) => false,
        },
        Value::Object(x) => match b {
            Value::Primitive(_) => false,
            Value::Object(y) => x == y,
        },
    }
}

/// The sum of two values (11.6.1).
fn sum(alloc: Global, m: &Primitive, n: &Primitive) -> Result<Result<Primitive, Stop>, Memory>
    ensures { IfOk result (λ given. given ≡ add m.now n.now) }
{
    match add(alloc, m, n) {
        Ok(sum) => Ok(Ok(sum)),
        Err(PrimFault::Stop(stop)) => Ok(Err(stop)),
        Err(PrimFault::Memory) => Err(Memory),
    }
}

/// What an operation gives of two numbers.
fn of_two_numbers(op: BinaryOp, m: Num, n: Num) -> Result<Num, Stop>
    ensures { result ≡ number_operation op m n }
{
    match op {
        BinaryOp::Sub => sub(m, n),
        BinaryOp::Mul => mul(m, n),
        BinaryOp::Div => div(m, n),
        BinaryOp::Rem => rem(m, n),
        BinaryOp::Shl => Ok(shl(m, n)),
        BinaryOp::Shr => Ok(shr(m, n)),
        BinaryOp::Ushr => Ok(ushr(m, n)),
        BinaryOp::And => Ok(and(m, n)),
        BinaryOp::Or => Ok(or(m, n)),
        BinaryOp::Xor => Ok(xor(m, n)),
        _ => add_numbers(m, n),
    }
}

/// What an operation gives of the numbers of two values, the left one first.
fn of_numbers(op: BinaryOp, m: &Primitive, n: &Primitive) -> Result<Primitive, Stop>
    ensures { result ≡ of_numbers (number_operation op) m.now n.now }
{
    let m = to_num(m)?;
    let n = to_num(n)?;
    let number = of_two_numbers(op, m, n)?;
    Ok(Primitive::Number(number))
}

/// Whether a value is less than another (11.8.5): not where a NaN takes part.
fn is_less(m: &Primitive, n: &Primitive) -> Result<Primitive, Stop>
    ensures { result ≡ compared is_true (less m.now n.now) }
{
    let less = compare(m, n)?;
    Ok(Primitive::Bool(match less {
        Some(less) => less,
        None => false,
    }))
}

/// Whether a value is found not to be less than another: not where a NaN takes part.
fn is_not_less(m: &Primitive, n: &Primitive) -> Result<Primitive, Stop>
    ensures { result ≡ compared is_false (less m.now n.now) }
{
    let less = compare(m, n)?;
    Ok(Primitive::Bool(match less {
        Some(less) => !less,
        None => false,
    }))
}

/// What an operation on two primitive values gives.
fn of_primitives(
    alloc: Global,
    op: BinaryOp,
    m: &Primitive,
    n: &Primitive,
) -> Result<Result<Primitive, Stop>, Memory>
    requires { is_equality op ≡ false }
    ensures { IfOk result (λ given. binary op (value.Primitive m.now) (value.Primitive n.now)
        ≡ Some given) }
{
    match op {
        BinaryOp::Add => sum(alloc, m, n),
        BinaryOp::Lt => Ok(is_less(m, n)),
        BinaryOp::Gt => Ok(is_less(n, m)),
        BinaryOp::Le => Ok(is_not_less(n, m)),
        BinaryOp::Ge => Ok(is_not_less(m, n)),
        BinaryOp::Sub
        | BinaryOp::Mul
        | BinaryOp::Div
        | BinaryOp::Rem
        | BinaryOp::Shl
        | BinaryOp::Shr
        | BinaryOp::Ushr
        | BinaryOp::And
        | BinaryOp::Or
        | BinaryOp::Xor => Ok(of_numbers(op, m, n)),
        BinaryOp::LooseEq | BinaryOp::LooseNe | BinaryOp::StrictEq | BinaryOp::StrictNe => {
            unreachable!()
        }
    }
}

/// What an operation that takes no objects gives.
fn on_primitives(alloc: Global, op: BinaryOp, a: &Value, b: &Value) -> Result<Outcome, Memory>
    requires { is_equality op ≡ false }
    ensures { IfOk result (λ outcome. outcome ≡ binary op a.now b.now) }
{
    match a {
        Value::Primitive(m) => match b {
            Value::Primitive(n) => {
                let given = of_primitives(alloc, op, m, n)?;
                Ok(Some(given))
            }
            Value::Object(_) => Ok(None),
        },
        Value::Object(_) => Ok(None),
    }
}

/// What an operation on two values gives.
pub fn binary(alloc: Global, op: BinaryOp, a: &Value, b: &Value) -> Result<Outcome, Memory>
    ensures { IfOk result (λ outcome. outcome ≡ binary op a.now b.now) }
{
    match op {
        BinaryOp::LooseEq => match loose_equal(a, b) {
            Ok(equal) => Ok(Some(Ok(Primitive::Bool(equal)))),
            Err(stop) => Ok(Some(Err(stop))),
        },
        BinaryOp::LooseNe => match loose_equal(a, b) {
            Ok(equal) => Ok(Some(Ok(Primitive::Bool(!equal)))),
            Err(stop) => Ok(Some(Err(stop))),
        },
        BinaryOp::StrictEq => Ok(Some(Ok(Primitive::Bool(strict_equal(a, b))))),
        BinaryOp::StrictNe => Ok(Some(Ok(Primitive::Bool(!strict_equal(a, b))))),
        _ => on_primitives(alloc, op, a, b),
    }
}
