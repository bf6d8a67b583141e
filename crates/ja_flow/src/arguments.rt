//! The arguments that a function is given (ES3 10.1.3, 11.2.4, 15.3.4.3, 15.3.4.4).

ghost use Rattle.std.specs.Prelude.{◌≡◌, ◌<◌, IfOk, drop, length, map, slice_get, unwrap_or, vec_len};
ghost use Rattle.std.specs.List.{AllByRecursion, range_with_len};
ghost use Rattle.ja_base.specs.declared.ids.Reg.{Reg};
ghost use Rattle.ja_graph.specs.Node.{argument_registers, registers_named};
ghost use Rattle.ja_machine.specs.Frames.{parameters_of};
ghost use Rattle.ja_abstract.specs.AbstractValue.{join, undefined_value};
ghost use Rattle.ja_abstract.specs.Made.{one_number, whole_constant};
ghost use Rattle.ja_abstract.specs.Resolved.{join_values};
ghost use Rattle.ja_abstract.specs.Values.{has_labels, value_if};
ghost use Rattle.ja_rows.specs.Calls as spec;
ghost use Rattle.ja_aheap.specs.Objects.{demands_in};
ghost use Rattle.ja_astate.specs.Looks.{view_of};
ghost use Rattle.ja_value.specs.Value.{value_of};
ghost use Rattle.ja_flow.specs.code.Given.{one_less, AreArguments, HasRest};

use ja_absprim::{to_num, to_uint32};
use ja_abstract::{Key, NumberPart};
use ja_aheap::DemandList;
use ja_astate::{Looked, Reader};
use ja_base::{FnId, Memory, Reg};
use ja_graph::{Args, COUNT, LENGTH, Node, Program, REST};
use ja_prim::Int;
use ja_value::{AProp, AValue};
use std::alloc::Global;

/// The key of a length.
const LENGTH_KEY: Key = Key::Name(LENGTH);

/// What a function is given: its parameters, the arguments past them, and how many there are; and
/// the pairs of the caller's entry that are demanded for it.
#[derive(Drop)]
pub(crate) struct Arguments {
    pub parameters: Vec<AValue>,
    pub rest: AValue,
    pub count: AValue,
    pub demands: DemandList,
}

/// How many parameters a function has.
pub(crate) fn parameter_count(program: &Program, function: FnId) -> usize
    ensures { result ≡ parameters_of program.now function }
{
    match program.functions.as_slice().get(function.0 as usize) {
        Some(function) => function.parameters.len(),
        None => 0,
    }
}

// ---- in registers

/// The argument of a parameter, or undefined.
fn argument(reader: &Reader<'_>, list: &[Reg], number: usize) -> Result<AValue, Memory>
    requires { AllByRecursion (λ (r : Reg). r.0 < vec_len reader.now.state.now.registers) list.now }
    ensures { IfOk result (λ v. value_of v ≡ unwrap_or
        (slice_get (spec.values_of (view_of reader.now) list.now) number) undefined_value) }
{
    match list.get(number) {
        Some(register) => reader.state.register(*register).copy(reader.alloc),
        None => Ok(AValue::undefined(reader.alloc)),
    }
}

/// The arguments of the parameters.
fn parameter_values(
    reader: &Reader<'_>,
    list: &[Reg],
    parameters: usize,
) -> Result<Vec<AValue>, Memory>
    requires { AllByRecursion (λ (r : Reg). r.0 < vec_len reader.now.state.now.registers) list.now }
    ensures { IfOk result (λ v. map value_of v.items
        ≡ map (spec.listed (view_of reader.now) parameters list.now).parameter
        (range_with_len 0 parameters)) }
{
    let mut values = Vec::new(reader.alloc);
    for number in 0..parameters {
        values.push(argument(reader, list, number)?)?;
    }
    Ok(values)
}

/// Those past the parameters.
fn past(list: &[Reg], parameters: usize) -> &[Reg]
    ensures { result.now ≡ drop parameters list.now }
{
    match list.get(parameters..) {
        Some(rest) => rest,
        None => &[],
    }
}

/// What any of some registers may be.
fn any_of(reader: &Reader<'_>, list: &[Reg]) -> Result<AValue, Memory>
    requires { AllByRecursion (λ (r : Reg). r.0 < vec_len reader.now.state.now.registers) list.now }
    ensures { IfOk result (λ v. value_of v
        ≡ join_values (spec.values_of (view_of reader.now) list.now)) }
{
    let mut sum = AValue::empty(reader.alloc);
    for register in list {
        sum.join(reader.alloc, reader.state.register(*register))?;
    }
    Ok(sum)
}

/// Undefined, or a value.
fn or_undefined(alloc: Global, value: &AValue) -> Result<AValue, Memory>
    ensures { IfOk result (λ v. value_of v ≡ join undefined_value (value_of value.now)) }
{
    let mut joined = AValue::undefined(alloc);
    joined.join(alloc, value)?;
    Ok(joined)
}

/// How many registers are listed. So many that their count has more than 32 bits take more memory
/// than there is.
fn count_of_list(alloc: Global, list: &[Reg]) -> Result<AValue, Memory>
    ensures { IfOk result (λ v. value_of v ≡ whole_constant (length list.now)) }
{
    match u32::try_from(list.len()) {
        Ok(count) => Ok(AValue::whole_constant(alloc, count)),
        Err(_) => Err(Memory),
    }
}

/// The arguments in registers.
fn listed(reader: &Reader<'_>, list: &[Reg], parameters: usize) -> Result<Arguments, Memory>
    requires { AllByRecursion (λ (r : Reg). r.0 < vec_len reader.now.state.now.registers) list.now }
    ensures { IfOk result (AreArguments parameters
        (spec.listed (view_of reader.now) parameters list.now)) }
{
    let alloc = reader.alloc;
    let parameters_given = parameter_values(reader, list, parameters)?;
    let more = any_of(reader, past(list, parameters))?;
    let rest = or_undefined(alloc, &more)?;
    Ok(Arguments {
        parameters: parameters_given,
        rest,
        count: count_of_list(alloc, list)?,
        demands: DemandList::new(alloc),
    })
}

// ---- of an object, and the rest of a frame

/// A value as often as is told.
fn copies(alloc: Global, value: &AValue, count: usize) -> Result<Vec<AValue>, Memory>
    ensures { IfOk result (λ v. map value_of v.items
        ≡ map (λ j. value_of value.now) (range_with_len 0 count)) }
{
    let mut values = Vec::new(alloc);
    for _ in 0..count {
        values.push(value.copy(alloc)?)?;
    }
    Ok(values)
}

/// The same value for each argument.
fn all_are(
    alloc: Global,
    value: AValue,
    count: AValue,
    parameters: usize,
    demands: DemandList,
) -> Result<Arguments, Memory>
    ensures { IfOk result (AreArguments parameters
        (spec.all_are (value_of value) (value_of count) (demands_in demands))) }
{
    let parameters_given = copies(alloc, &value, parameters)?;
    Ok(Arguments {
        parameters: parameters_given,
        rest: value,
        count,
        demands,
    })
}

/// A number, if there is reason for it, and else no value.
fn zero_if(alloc: Global, is_zero: bool) -> AValue
    ensures { value_of result ≡ value_if is_zero (whole_constant 0) }
{
    if is_zero {
        AValue::whole_constant(alloc, 0)
    } else {
        AValue::empty(alloc)
    }
}

/// The number of elements that a length says: 0 where it is absent.
fn element_count(alloc: Global, length: &AValue) -> Result<AValue, Memory>
    ensures { IfOk result (λ v. value_of v ≡ spec.element_count (value_of length.now)) }
{
    let primitives = length.primitives_of(alloc)?;
    let number = to_num(alloc, &primitives)?.into_value();
    let index = to_uint32(alloc, &number)?.into_value();
    let mut count = zero_if(alloc, length.flags.absent);
    count.join(alloc, &index)?;
    Ok(count)
}

/// .. and 0 where it is an object.
fn count_of(reader: &Reader<'_>, length: &AValue) -> Result<AValue, Memory>
    ensures { IfOk result (λ v. value_of v ≡ join
        (value_if (has_labels (view_of reader.now) (value_of length.now)) (whole_constant 0))
        (spec.element_count (value_of length.now))) }
{
    let mut count = zero_if(reader.alloc, length.has_labels(reader.sites));
    let more = element_count(reader.alloc, length)?;
    count.join(reader.alloc, &more)?;
    Ok(count)
}

/// The elements of an array or an arguments object.
fn elements(reader: &Reader<'_>, array: &AValue, parameters: usize) -> Result<Arguments, Memory>
    ensures { IfOk result (AreArguments parameters
        (spec.elements (view_of reader.now) (value_of array.now))) }
{
    let alloc = reader.alloc;
    let Looked {
        property: length,
        demands: of_length,
    } = reader.get(&array.labels, &[LENGTH_KEY])?;
    let count = count_of(reader, &length.value)?;
    let Looked {
        property: element,
        mut demands,
    } = reader.get(&array.labels, reader.keys.indices())?;
    demands.join(of_length)?;
    let AProp { value, attrs: _ } = element;
    let value = or_undefined(alloc, &value.as_read())?;
    all_are(alloc, value, count, parameters, demands)
}

/// One less than a number, and at least 0.
fn one_less(alloc: Global, number: Int) -> AValue
    ensures { value_of result ≡ one_less number }
{
    match Int::new((number.get() - 1).max(0)) {
        Some(less) => AValue::of_number(alloc, less),
        None => unreachable!(),
    }
}

/// The count of the arguments from the second on.
fn count_below(reader: &Reader<'_>, count: &AValue) -> AValue
    ensures { value_of result ≡ spec.count_below (view_of reader.now) (value_of count.now)
        (one_number reader.now.program.now (value_of count.now)) }
{
    let alloc = reader.alloc;
    match count.one_number(reader.sites) {
        Some(number) => one_less(alloc, number),
        None => {
            if count.has_part(reader.sites) {
                AValue::of_number_part(alloc, NumberPart::Whole)
            } else {
                AValue::empty(alloc)
            }
        }
    }
}

/// The frame's arguments from the second on.
fn tail(reader: &Reader<'_>, caller: FnId, parameters: usize) -> Result<Arguments, Memory>
    requires { HasRest reader.now caller }
    ensures { IfOk result (AreArguments parameters
        (spec.tail (view_of reader.now) caller)) }
{
    let alloc = reader.alloc;
    let own = parameter_count(reader.program, caller) as u32;
    let rest = reader.state.register(Reg(REST.0 + own)).copy(alloc)?;
    let count = count_below(reader, reader.state.register(COUNT));
    all_are(alloc, rest, count, parameters, DemandList::new(alloc))
}

// ---- by the node

/// The arguments of a call, in one of three ways.
fn given_args(
    reader: &Reader<'_>,
    caller: FnId,
    args: &Args,
    parameters: usize,
) -> Result<Arguments, Memory>
    requires registers { AllByRecursion
        (λ (r : Reg). r.0 < vec_len reader.now.state.now.registers)
        (argument_registers args.now) }
    requires rest { HasRest reader.now caller }
    ensures { IfOk result (AreArguments parameters
        (spec.given_args (view_of reader.now) caller parameters args.now)) }
{
    match args {
        Args::Registers(list) => listed(reader, list.as_slice(), parameters),
        Args::Elements(array) => elements(reader, reader.state.register(*array), parameters),
        Args::Tail => tail(reader, caller, parameters),
    }
}

/// The arguments that a node gives: a conversion gives none.
pub(crate) fn given(
    reader: &Reader<'_>,
    caller: FnId,
    node: &Node,
    parameters: usize,
) -> Result<Arguments, Memory>
    requires registers { AllByRecursion
        (λ (r : Reg). r.0 < vec_len reader.now.state.now.registers) (registers_named node.now) }
    requires rest { HasRest reader.now caller }
    ensures { IfOk result (AreArguments parameters
        (spec.given (view_of reader.now) caller parameters node.now)) }
{
    match node {
        Node::Call { args, .. } => given_args(reader, caller, args, parameters),
        Node::New { args, .. } => listed(reader, args.as_slice(), parameters),
        _ => listed(reader, &[], parameters),
    }
}
