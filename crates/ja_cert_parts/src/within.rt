//! Where something is read.

use ja_base::FnId;
use ja_graph::Program;
use std::alloc::Global;

/// In a program.
#[derive(Clone, Copy)]
pub struct InProgram<'a> {
    pub alloc: Global,
    pub program: &'a Program,
}

/// In a function of a program.
#[derive(Clone, Copy)]
pub struct InFunction<'a> {
    pub alloc: Global,
    pub program: &'a Program,
    pub function: FnId,
}
