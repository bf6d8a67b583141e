ghost use Rattle.std.specs.Prelude.{◌≡◌};
ghost use Rattle.ja_device.specs.Devices.{Seen, IsCalled};

use crate::fault::CallFault;
use ja_prim::{Kinds, Primitive};
use std::alloc::Global;

/// A host device. Contracts speak of what is seen of it: its name, the kinds of its answers, the
/// calls that it answered, told or not told, and how often it failed.
pub trait Device: Drop {
    ghost seen: { Self → Seen };

    /// The name under which a program finds the device.
    fn name(&self) -> &str
        ensures { result.now ≡ (seen self.now).name };

    /// The kinds of its answers.
    fn kinds(&self) -> Kinds
        ensures { result ≡ (seen self.now).kinds };

    /// Calls the device. An answer is of its kinds.
    ///
    /// # Errors
    ///
    /// `Failed` only where its count of faults rose, and `Memory` where memory is refused. The call
    /// is then not heard.
    fn call(&mut self, alloc: Global, args: &[Primitive]) -> Result<Primitive, CallFault>
        ensures { IsCalled (seen self.old) (seen self.new) args.now result };
}
