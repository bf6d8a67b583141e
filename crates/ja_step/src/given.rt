//! The arguments that are given to a call (ES3 11.2.4, 15.3.4.3): the values of registers, the
//! elements of an array or an arguments object, or the arguments of the caller from the second on.

ghost use Rattle.std.specs.Prelude.{◌≡◌, IfOk, Ok, map, drop};
ghost use Rattle.std.specs.Option.{option_map};
ghost use Rattle.ja_machine.specs.Calls as calls;
ghost use Rattle.ja_machine.specs.Frames.{register_of};
ghost use Rattle.ja_machine.specs.Heap.{content_at};
ghost use Rattle.ja_machine.specs.Objects as objects;
ghost use Rattle.ja_step.specs.code.Arguments.{given_of};
ghost use Rattle.ja_step.specs.code.Steps.{held, frame_of};

use crate::Conf;
use crate::events::kind_of;
use ja_base::{Memory, Reg, ScopeKind};
use ja_graph::Args;
use ja_machine::{Addr, Content, Value};
use ja_operations::arguments::index_text;
use ja_operations::copies::copy_value;
use ja_prim::{Primitive, Text16, to_num, to_uint32};
use std::alloc::Global;

/// The most elements that are given to a call. A run makes at most 10,000,000 steps and puts at
/// most one element in each, so of more elements some were never put.
const MOST_ELEMENTS: u32 = 16_777_216;

/// The most arguments that a call lists: each is an element of `arguments`, at an index.
const MOST_ARGUMENTS: usize = 4_294_967_295;

/// The arguments that were read, or why the run leaves the profile.
pub(crate) type Given = Result<Vec<Value>, ScopeKind>;

/// Values in memory of their own.
fn copy_values(alloc: Global, values: &[Value]) -> Result<Vec<Value>, Memory>
    ensures { IfOk result (λ copies. copies.items ≡ values.now) }
{
    let mut copies = Vec::with_capacity(alloc, values.len())?;
    for value in values {
        let copy = copy_value(alloc, value)?;
        copies.push(copy)?;
    }
    Ok(copies)
}

/// How many elements a `length` says (9.6): none where it is missing or an object.
fn element_count(length: Option<&Content>) -> Result<u32, ScopeKind>
    ensures { result ≡ calls.element_count (option_map (λ c. c.now) length.entry) }
{
    match length {
        None | Some(Content::Value(Value::Object(_))) => Ok(0),
        Some(Content::Row) => Err(ScopeKind::Row),
        Some(Content::Value(Value::Primitive(primitive))) => match to_num(primitive) {
            Ok(number) => Ok(to_uint32(number)),
            Err(stop) => Err(kind_of(stop)),
        },
    }
}

impl Conf {
    /// The values of registers.
    pub(crate) fn values_of(&self, alloc: Global, registers: &[Reg]) -> Result<Vec<Value>, Memory>
        ensures { IfOk result (λ values. values.items
            ≡ map (register_of (frame_of self.now.frame)) registers.now) }
    {
        let mut values = Vec::with_capacity(alloc, registers.len())?;
        for register in registers {
            let value = self.frame.held(alloc, *register)?;
            values.push(value)?;
        }
        Ok(values)
    }

    /// The values of the registers of arguments. More of them than there are indices leave the
    /// profile.
    pub(crate) fn register_values(&self, alloc: Global, registers: &[Reg]) -> Result<Given, Memory>
        ensures { IfOk result (λ given. given_of given
            ≡ calls.register_values (frame_of self.now.frame) registers.now) }
    {
        if registers.len() > MOST_ARGUMENTS {
            return Ok(Err(ScopeKind::Register));
        }
        let values = self.values_of(alloc, registers)?;
        Ok(Ok(values))
    }

    /// An element, undefined where it is missing. A row leaves the profile.
    fn element(
        &self,
        alloc: Global,
        a: Addr,
        index: u32,
    ) -> Result<Result<Value, ScopeKind>, Memory>
        ensures { IfOk result (λ element. element
            ≡ calls.element (content_at self.now.heap a (objects.index_text index))) }
    {
        let name = index_text(alloc, u64::from(index))?;
        match self.heap.content_at(a, &name) {
            None => Ok(Ok(Value::Primitive(Primitive::Undefined))),
            Some(Content::Row) => Ok(Err(ScopeKind::Row)),
            Some(Content::Value(value)) => {
                let value = copy_value(alloc, value)?;
                Ok(Ok(value))
            }
        }
    }

    /// The first elements of an object. The first row among them leaves the profile. Memory for all
    /// of them is asked for before one is read, and counts as refused where they are more than
    /// 16,777,216: the `length` of an array may be 4,294,967,295 where it has no element.
    fn first_elements(&self, alloc: Global, a: Addr, count: u32) -> Result<Given, Memory>
        ensures { IfOk result (λ given. given_of given
            ≡ calls.elements_up_to self.now.heap a (Ok count)) }
    {
        if count > MOST_ELEMENTS {
            return Err(Memory);
        }
        let mut values = Vec::with_capacity(alloc, count as usize)?;
        for index in 0..count {
            match self.element(alloc, a, index)? {
                Ok(value) => values.push(value)?,
                Err(kind) => return Ok(Err(kind)),
            }
        }
        Ok(Ok(values))
    }

    /// The elements of an array or an arguments object, as many as its `length` says. Other values
    /// have none.
    fn elements(&self, alloc: Global, array: Reg) -> Result<Given, Memory>
        ensures { IfOk result (λ given. given_of given
            ≡ calls.elements self.now.heap (held self.now array)) }
    {
        let Some(Value::Object(a)) = self.frame.register(array) else {
            return Ok(Err(ScopeKind::Register));
        };
        if !self.heap.has_elements(*a) {
            return Ok(Err(ScopeKind::Register));
        }
        let name = Text16::from_ascii(alloc, b"length")?;
        match element_count(self.heap.content_at(*a, &name)) {
            Ok(count) => self.first_elements(alloc, *a, count),
            Err(kind) => Ok(Err(kind)),
        }
    }

    /// The caller's arguments from the second on.
    fn tail(&self, alloc: Global) -> Result<Vec<Value>, Memory>
        ensures { IfOk result (λ values. values.items ≡ drop 1 self.now.frame.arguments.items) }
    {
        let arguments = self.frame.arguments.as_slice();
        if arguments.is_empty() {
            return Ok(Vec::new(alloc));
        }
        copy_values(alloc, &arguments[1..])
    }

    /// The arguments of a call.
    pub(crate) fn given(&self, alloc: Global, arguments: &Args) -> Result<Given, Memory>
        ensures { IfOk result (λ given. given_of given
            ≡ calls.given self.now.heap (frame_of self.now.frame) arguments.now) }
    {
        match arguments {
            Args::Registers(registers) => self.register_values(alloc, registers.as_slice()),
            Args::Elements(array) => self.elements(alloc, *array),
            Args::Tail => {
                let values = self.tail(alloc)?;
                Ok(Ok(values))
            }
        }
    }
}
