ghost use Rattle.std.specs.Prelude.{◌≡◌, [], ◌∷◌, IfOk};
ghost use Rattle.ja_aheap.specs.Objects.{writes_of};
ghost use Rattle.ja_value.specs.Value.{property_of};

use ja_abstract::Key;
use ja_aheap::{Write, Writes};
use ja_base::Memory;
use ja_value::AProp;
use std::alloc::Global;

/// One write.
pub fn one_write(alloc: Global, key: Key, property: AProp, joins: bool) -> Result<Writes, Memory>
    ensures { IfOk result (λ writes. writes_of writes
        ≡ record { key = key; property = property_of property; joins = joins } ∷ []) }
{
    let mut list = Vec::new(alloc);
    list.push(Write {
        key,
        property,
        joins,
    })?;
    Ok(Writes { list })
}
