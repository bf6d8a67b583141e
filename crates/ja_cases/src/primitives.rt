//! Operations on primitive values. A value is a word of the row: `undefined`, `null`, `true`,
//! `NaN`, a number, or a text behind `'`.

use crate::out::Out;
use ja_prim::{
    Int, Num, Prim, Primitive, Stop, Text16, add, add_numbers, and, array_index, compare, div,
    loose_eq, not, rem, shl, shr, strict_eq, to_bool, to_int32, to_num, to_text, to_uint32, ushr,
};
use std::alloc::Global;

/// The number of a word, and NaN where it is none of the profile.
fn number(word: &str) -> Num {
    match word.parse::<i64>().ok().and_then(Int::new) {
        Some(whole) => Num::Whole(whole),
        None => Num::NaN,
    }
}

/// A text, and undefined where memory is refused.
fn text(alloc: Global, units: &str) -> Prim {
    match Text16::from_str(alloc, units) {
        Ok(text) => Primitive::Text(text),
        Err(_) => Primitive::Undefined,
    }
}

/// The value of a word.
pub fn value(alloc: Global, word: &str) -> Prim {
    match word.strip_prefix('\'') {
        Some(units) => text(alloc, units),
        None => match word {
            "undefined" => Primitive::Undefined,
            "null" => Primitive::Null,
            "true" => Primitive::Bool(true),
            _ => Primitive::Number(number(word)),
        },
    }
}

/// The text of a value.
fn put_value(out: &mut Out, value: &Prim) {
    if let Ok(text) = to_text(out.alloc, value) {
        out.put_units(text.units());
    }
}

/// A number, or why there is none.
fn put_answer(out: &mut Out, answer: Result<Num, Stop>) {
    match answer {
        Ok(number) => put_value(out, &Primitive::Number(number)),
        Err(Stop::Fraction) => out.put("Fraction"),
        Err(Stop::Range) => out.put("Range"),
        Err(Stop::TextLength) => out.put("TextLength"),
    }
}

/// The number of a text.
pub fn number_of(out: &mut Out, units: &str) {
    let text = text(out.alloc, units);
    put_answer(out, to_num(&text));
}

/// The array index that a text is.
pub fn index_of(out: &mut Out, units: &str) {
    if let Ok(text) = Text16::from_str(out.alloc, units) {
        match array_index(&text) {
            Some(index) => out.put_number(u64::from(index)),
            None => out.put("none"),
        }
    }
}

/// The text of a value.
pub fn text_of(out: &mut Out, word: &str) {
    let value = value(out.alloc, word);
    put_value(out, &value);
}

/// Two words, the second of which is `0` where it isn't there.
fn words(row: &str) -> (&str, &str) {
    row.split_once(' ').unwrap_or((row, "0"))
}

/// An operation on numbers.
fn operated(operator: &str, left: Num, right: Num) -> Result<Num, Stop> {
    match operator {
        "+" => add_numbers(left, right),
        "/" => div(left, right),
        "%" => rem(left, right),
        "<<" => Ok(shl(left, right)),
        ">>" => Ok(shr(left, right)),
        ">>>" => Ok(ushr(left, right)),
        "&" => Ok(and(left, right)),
        _ => Ok(not(left)),
    }
}

/// An operation on numbers: an operator and its operands.
pub fn operation(out: &mut Out, row: &str) {
    let (operator, operands) = words(row);
    let (left, right) = words(operands);
    let left = number(left);
    match operator {
        "ToInt32" => out.put_signed(i64::from(to_int32(left))),
        "ToUint32" => out.put_number(u64::from(to_uint32(left))),
        _ => put_answer(out, operated(operator, left, number(right))),
    }
}

/// A comparison of two values, undefined where they have no order.
fn compared(operator: &str, left: &Prim, right: &Prim) -> Option<bool> {
    match operator {
        "==" => loose_eq(left, right).ok(),
        "===" => Some(strict_eq(left, right)),
        "<" => compare(left, right).ok()?,
        _ => Some(to_bool(left)),
    }
}

/// The sum of two values.
fn put_sum(out: &mut Out, left: &Prim, right: &Prim) {
    if let Ok(sum) = add(out.alloc, left, right) {
        put_value(out, &sum);
    }
}

/// A comparison of two values.
fn put_comparison(out: &mut Out, operator: &str, left: &Prim, right: &Prim) {
    out.put(match compared(operator, left, right) {
        Some(true) => "true",
        Some(false) => "false",
        None => "undefined",
    });
}

/// An operator and its operands, which are values: a comparison, or `+`, their sum.
pub fn of_values(out: &mut Out, operator: &str, operands: &str) {
    let (left, right) = words(operands);
    let (left, right) = (value(out.alloc, left), value(out.alloc, right));
    match operator {
        "+" => put_sum(out, &left, &right),
        _ => put_comparison(out, operator, &left, &right),
    }
}

/// A comparison: an operator and its operands.
pub fn comparison(out: &mut Out, row: &str) {
    let (operator, operands) = words(row);
    of_values(out, operator, operands);
}
