ghost use Rattle.std.specs.Prelude.{◌≡◌, IfOk};

use ja_base::{Memory, Seq};
use ja_prim::Primitive;
use std::alloc::Global;

/// Values, in memory of their own.
pub(crate) fn copies(alloc: Global, values: &[Primitive]) -> Result<Seq<Primitive>, Memory>
    ensures { IfOk result (λ list. list ≡ values.now) }
{
    let mut list = Vec::with_capacity(alloc, values.len())?;
    for value in values {
        list.push(value.copy()?)?;
    }
    Ok(Seq::from_vec(list))
}
