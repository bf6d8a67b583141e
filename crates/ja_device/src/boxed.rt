//! A box of a device is one.

use crate::device::Device;
use crate::fault::CallFault;
use ja_prim::{Kinds, Primitive};
use std::alloc::Global;

impl Device for Box<dyn Device> {
    ghost seen = { λ b. (Device-box b).seen b.value };

    fn name(&self) -> &str {
        (**self).name()
    }

    fn kinds(&self) -> Kinds {
        (**self).kinds()
    }

    fn call(&mut self, alloc: Global, args: &[Primitive]) -> Result<Primitive, CallFault> {
        (**self).call(alloc, args)
    }
}
