ghost use Rattle.std.specs.Prelude.{◌≡◌, IfOk, map};
ghost use Rattle.std.specs.List.{range_with_len};
ghost use Rattle.ja_graph.specs.WellFormed.{IsWellFormed};
ghost use Rattle.ja_machine.specs.Frames.{registers_of};
ghost use Rattle.ja_machine.specs.Machine.{program_function};
ghost use Rattle.ja_rows.specs.Table.{opening_state};
ghost use Rattle.ja_value.specs.Value.{value_of};
ghost use Rattle.ja_astate.specs.code.Opening.{opening_register};

use crate::AState;
use ja_base::{Label, Memory};
use ja_graph::{COUNT, GLOBAL, Program, SCOPE, THIS};
use ja_value::AValue;
use std::alloc::Global;

/// The value of a register where the program begins.
fn opening_register(alloc: Global, register: u32) -> Result<AValue, Memory>
    ensures { IfOk result (λ v. value_of v ≡ opening_register register) }
{
    if register == THIS.0 || register == SCOPE.0 {
        let label = Label {
            site: GLOBAL,
            old: false,
        };
        AValue::of_label(alloc, label)
    } else if register == COUNT.0 {
        Ok(AValue::whole_constant(alloc, 0))
    } else {
        Ok(AValue::undefined(alloc))
    }
}

/// The values of the first registers where the program begins.
fn opening_registers(alloc: Global, count: u32) -> Result<Vec<AValue>, Memory>
    ensures { IfOk result (λ v. map value_of v.items
        ≡ map opening_register (range_with_len 0 count)) }
{
    let mut values = Vec::new(alloc);
    for register in 0..count {
        values.push(opening_register(alloc, register)?)?;
    }
    Ok(values)
}

impl AState {
    ghost use Rattle.ja_astate.specs.State.{state_of, IsStateOf};

    /// The state in which a program begins: the global object is its receiver and its scope chain,
    /// it has no arguments, each property is as it was, and nothing was made.
    pub fn opening(alloc: Global, program: &Program) -> Result<AState, Memory>
        requires { IsWellFormed program.now }
        ensures state { IfOk result (λ a. state_of a ≡ opening_state program.now) }
        ensures shape { IfOk result (IsStateOf program.now
            (registers_of program.now program_function)) }
    {
        let text = &program.functions.as_slice()[0];
        let registers = opening_registers(alloc, text.registers)?;
        let sites = program.sites.len() as u32;
        let names = program.names.len() as u32;
        let state = AState::entry(alloc, registers, sites, names)?;
        Ok(state)
    }
}
