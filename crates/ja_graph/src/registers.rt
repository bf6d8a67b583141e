//! The registers that each function has before those of its own.

use ja_base::Reg;

/// The error that was thrown, at a handler.
pub const THROWN: Reg = Reg(0);

/// The receiver, `this`.
pub const THIS: Reg = Reg(1);

/// The object at the front of the scope chain.
pub const SCOPE: Reg = Reg(2);

/// The function that was called.
pub const CALLEE_REGISTER: Reg = Reg(3);

/// The number of arguments.
pub const COUNT: Reg = Reg(4);

/// The arguments past the parameters. The parameters of a function, if it has some, stand before
/// it.
pub const REST: Reg = Reg(5);

/// How many registers stand before the temporaries of a function without parameters.
pub const FIXED_REGISTERS: u32 = 6;
