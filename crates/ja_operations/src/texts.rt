//! What the operations on texts and numbers give (ES3 15.1.2, 15.5, 15.7.4.2): a function for each,
//! of the primitive values that it takes.

ghost use Rattle.std.specs.Prelude.{◌≡◌, ◌≤◌, ◌-◌, ◌%◌, IfOk, IfSome, length, take, drop};
ghost use Rattle.ja_prim.specs.Bits.{to_uint32};
ghost use Rattle.ja_machine.specs.TextOperations as spec;
ghost use Rattle.ja_operations.specs.code.Texts.{text_operation};

use crate::digits::radix_text;
use crate::intrinsics::{Outcome, REFUSED};
use crate::letters::{is_ascii, lower_units, upper_units};
use ja_base::{Memory, ScopeKind};
use ja_machine::TextOperation;
use ja_prim::{Int, Num, Primitive, Stop, Text16, front_decimal, front_integer, to_uint32};
use ja_search::{first_in, last_in};
use std::alloc::Global;

/// The digits of a number, by a radix from 2 to 36.
fn digits(alloc: Global, values: &[Primitive]) -> Result<Outcome, Memory>
    ensures { IfOk result (λ outcome. outcome ≡ spec.digits_row values.now) }
{
    match values {
        [
            Primitive::Number(number),
            Primitive::Number(Num::Whole(radix)),
        ] => {
            let radix = radix.get();
            if radix < 2 || radix > 36 {
                return Ok(Err(REFUSED));
            }
            let text = radix_text(alloc, *number, radix as u64)?;
            Ok(Ok(Primitive::Text(text)))
        }
        _ => Ok(Err(REFUSED)),
    }
}

/// A number that isn't negative.
fn whole(n: usize) -> Primitive
    requires { n ≤ 4294967295 }
    ensures { result ≡ spec.whole n }
{
    Primitive::Number(Num::Whole(Int::new(n as i64).unwrap()))
}

/// How many units a text has.
fn size(values: &[Primitive]) -> Outcome
    ensures { result ≡ spec.size_row values.now }
{
    match values {
        [Primitive::Text(text)] => Ok(whole(text.units().len())),
        _ => Err(REFUSED),
    }
}

/// The place that a number is, if it is one.
fn place_of(number: Num) -> Option<usize>
    ensures { result ≡ spec.place_of number }
{
    match number {
        Num::NaN => Some(0),
        Num::Whole(n) => {
            let n = n.get();
            if n < 0 { None } else { Some(n as usize) }
        }
    }
}

/// The unit at a place, as a number, or NaN.
fn unit_at(units: &[u16], place: Num) -> Primitive
    ensures { result ≡ spec.unit units.now place }
{
    let Some(place) = place_of(place) else {
        return Primitive::Number(Num::NaN);
    };
    match units.get(place) {
        Some(unit) => whole(*unit as usize),
        None => Primitive::Number(Num::NaN),
    }
}

/// The unit of a text at a place.
fn unit(values: &[Primitive]) -> Outcome
    ensures { result ≡ spec.unit_row values.now }
{
    match values {
        [Primitive::Text(text), Primitive::Number(place)] => Ok(unit_at(text.units(), *place)),
        _ => Err(REFUSED),
    }
}

/// A number brought between 0 and a size; NaN counts as 0.
fn place_within(size: usize, number: Num) -> usize
    requires { size ≤ 4294967295 }
    ensures value { result ≡ spec.place_within size number }
    ensures within { result ≤ size }
{
    match number {
        Num::NaN => 0,
        Num::Whole(n) => {
            let n = n.get();
            if n < 0 {
                return 0;
            }
            if n as u64 > size as u64 {
                size
            } else {
                n as usize
            }
        }
    }
}

/// The same, but that NaN counts as the size.
fn last_place_within(size: usize, number: Num) -> usize
    requires { size ≤ 4294967295 }
    ensures value { result ≡ spec.last_place_within size number }
    ensures within { result ≤ size }
{
    match number {
        Num::NaN => size,
        Num::Whole(n) => place_within(size, Num::Whole(n)),
    }
}

/// The units from a place on and before another.
fn units_between(units: &[u16], from: Num, to: Num) -> &[u16]
    requires { length units.now ≤ 4294967295 }
    ensures value { result.now ≡ take (spec.place_within (length units.now) to
        - spec.place_within (length units.now) from)
        (drop (spec.place_within (length units.now) from) units.now) }
    ensures within { length result.now ≤ length units.now }
{
    let start = place_within(units.len(), from);
    let end = place_within(units.len(), to);
    if end <= start {
        return &units[start..start];
    }
    &units[start..end]
}

/// The part of a text from a place on and before another.
fn part(alloc: Global, values: &[Primitive]) -> Result<Outcome, Memory>
    ensures { IfOk result (λ outcome. outcome ≡ spec.part_row values.now) }
{
    match values {
        [
            Primitive::Text(text),
            Primitive::Number(from),
            Primitive::Number(to),
        ] => {
            let units = units_between(text.units(), *from, *to);
            Ok(Ok(Primitive::Text(Text16::from_slice(alloc, units)?)))
        }
        _ => Ok(Err(REFUSED)),
    }
}

/// A unit of 16 bits (9.7).
fn to_unit(number: Num) -> u16
    ensures { result ≡ to_uint32 number % 65536 }
{
    (to_uint32(number) % 65_536) as u16
}

/// The text of one unit.
fn character(alloc: Global, values: &[Primitive]) -> Result<Outcome, Memory>
    ensures { IfOk result (λ outcome. outcome ≡ spec.character_row values.now) }
{
    match values {
        [Primitive::Number(number)] => {
            let mut units = Vec::new(alloc);
            units.push(to_unit(*number))?;
            Ok(Ok(Primitive::Text(Text16::from_units(alloc, units)?)))
        }
        _ => Ok(Err(REFUSED)),
    }
}

/// A place, or -1.
fn place_or_none(place: Option<usize>) -> Primitive
    requires { IfSome place (λ n. n ≤ 4294967295) }
    ensures { result ≡ spec.place_or_none place }
{
    match place {
        Some(place) => whole(place),
        None => Primitive::Number(Num::Whole(Int::new(-1).unwrap())),
    }
}

/// The first place from one on where the second text stands in the first, or -1.
fn index_of(alloc: Global, values: &[Primitive]) -> Result<Outcome, Memory>
    ensures { IfOk result (λ outcome. outcome ≡ spec.index_of_row values.now) }
{
    match values {
        [
            Primitive::Text(text),
            Primitive::Text(mark),
            Primitive::Number(from),
        ] => {
            let units = text.units();
            let from = place_within(units.len(), *from);
            match first_in(alloc, mark.units(), units, from) {
                Ok(place) => Ok(Ok(place_or_none(place))),
                Err(_) => Err(Memory),
            }
        }
        _ => Ok(Err(REFUSED)),
    }
}

/// The last place not behind one where the second text stands in the first, or -1.
fn last_index_of(alloc: Global, values: &[Primitive]) -> Result<Outcome, Memory>
    ensures { IfOk result (λ outcome. outcome ≡ spec.last_index_of_row values.now) }
{
    match values {
        [
            Primitive::Text(text),
            Primitive::Text(mark),
            Primitive::Number(from),
        ] => {
            let units = text.units();
            let from = last_place_within(units.len(), *from);
            match last_in(alloc, mark.units(), units, from) {
                Ok(place) => Ok(Ok(place_or_none(place))),
                Err(_) => Err(Memory),
            }
        }
        _ => Ok(Err(REFUSED)),
    }
}

/// A text in small letters.
fn lower(alloc: Global, values: &[Primitive]) -> Result<Outcome, Memory>
    ensures { IfOk result (λ outcome. outcome ≡ spec.lower_row values.now) }
{
    match values {
        [Primitive::Text(text)] => {
            if !is_ascii(text.units()) {
                return Ok(Err(ScopeKind::CaseChange));
            }
            let units = lower_units(alloc, text.units())?;
            Ok(Ok(Primitive::Text(Text16::from_units(alloc, units)?)))
        }
        _ => Ok(Err(REFUSED)),
    }
}

/// A text in great letters.
fn upper(alloc: Global, values: &[Primitive]) -> Result<Outcome, Memory>
    ensures { IfOk result (λ outcome. outcome ≡ spec.upper_row values.now) }
{
    match values {
        [Primitive::Text(text)] => {
            if !is_ascii(text.units()) {
                return Ok(Err(ScopeKind::CaseChange));
            }
            let units = upper_units(alloc, text.units())?;
            Ok(Ok(Primitive::Text(Text16::from_units(alloc, units)?)))
        }
        _ => Ok(Err(REFUSED)),
    }
}

/// A number, or why the run leaves the profile.
fn of_number(number: Result<Num, Stop>) -> Outcome
    ensures { result ≡ spec.of_number number }
{
    match number {
        Ok(number) => Ok(Primitive::Number(number)),
        Err(Stop::Fraction) => Err(ScopeKind::Fraction),
        Err(Stop::Range) => Err(ScopeKind::Range),
        Err(Stop::TextLength) => Err(ScopeKind::TextLength),
    }
}

/// The whole number at the front of a text, by a radix.
fn parse_int(values: &[Primitive]) -> Outcome
    ensures { result ≡ spec.parse_int_row values.now }
{
    match values {
        [Primitive::Text(text), Primitive::Number(Num::Whole(radix))] => {
            let radix = radix.get();
            if radix < 0 {
                return Ok(Primitive::Number(Num::NaN));
            }
            of_number(front_integer(radix as u64, text.units()))
        }
        [Primitive::Text(_), Primitive::Number(Num::NaN)] => Ok(Primitive::Number(Num::NaN)),
        _ => Err(REFUSED),
    }
}

/// The decimal number at the front of a text.
fn parse_float(values: &[Primitive]) -> Outcome
    ensures { result ≡ spec.parse_float_row values.now }
{
    match values {
        [Primitive::Text(text)] => of_number(front_decimal(text.units())),
        _ => Err(REFUSED),
    }
}

/// What an operation on texts and numbers gives of primitive values: a primitive value, or why the
/// run leaves the profile, which it does with `Register` where it doesn't take these values. The
/// error is want of memory.
pub fn of_primitives(
    alloc: Global,
    operation: TextOperation,
    values: &[Primitive],
) -> Result<Outcome, Memory>
    ensures { IfOk result (λ outcome. outcome ≡ spec.row operation values.now) }
{
    match operation {
        TextOperation::Digits => digits(alloc, values),
        TextOperation::Size => Ok(size(values)),
        TextOperation::Unit => Ok(unit(values)),
        TextOperation::Part => part(alloc, values),
        TextOperation::Character => character(alloc, values),
        TextOperation::IndexOf => index_of(alloc, values),
        TextOperation::LastIndexOf => last_index_of(alloc, values),
        TextOperation::Lower => lower(alloc, values),
        TextOperation::Upper => upper(alloc, values),
        TextOperation::ParseInt => Ok(parse_int(values)),
        TextOperation::ParseFloat => Ok(parse_float(values)),
    }
}

/// The operation on texts and numbers that has a number (its place in `INTRINSICS`), if it is one.
pub fn text_operation(which: u32) -> Option<TextOperation>
    ensures { result ≡ text_operation which }
{
    match which {
        7 => Some(TextOperation::Digits),
        8 => Some(TextOperation::Size),
        9 => Some(TextOperation::Unit),
        10 => Some(TextOperation::Part),
        11 => Some(TextOperation::Character),
        12 => Some(TextOperation::IndexOf),
        13 => Some(TextOperation::LastIndexOf),
        14 => Some(TextOperation::Lower),
        15 => Some(TextOperation::Upper),
        16 => Some(TextOperation::ParseInt),
        17 => Some(TextOperation::ParseFloat),
        _ => None,
    }
}
