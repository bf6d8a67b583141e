ghost use Rattle.std.specs.Prelude.{◌≡◌, []};

use std::alloc::Global;

/// The lines of a table that are written, and the sites that are named, as often as they are named.
#[derive(Drop)]
pub struct Output {
    pub text: Vec<u8>,
    pub named: Vec<u32>,
}

impl Output {
    /// Nothing is written.
    pub fn new(alloc: Global) -> Output
        ensures text { result.text.items ≡ [] }
        ensures named { result.named.items ≡ [] }
    {
        Output {
            text: Vec::new(alloc),
            named: Vec::new(alloc),
        }
    }
}
