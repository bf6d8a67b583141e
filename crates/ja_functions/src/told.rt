ghost use Rattle.std.specs.Prelude.{◌≡◌};
ghost use Rattle.ja_abstract.specs.AbstractValue.{no_value};
ghost use Rattle.ja_abstract.specs.Operations.{looked};
ghost use Rattle.ja_value.specs.Value.{value_of};
ghost use Rattle.ja_functions.specs.code.Told.{IsTold};

use ja_aheap::DemandList;
use ja_value::AValue;
use std::alloc::Global;

/// What an operation tells, and the pairs of the entry that it demands.
#[derive(Drop)]
pub(crate) struct Told {
    pub value: AValue,
    pub demands: DemandList,
}

impl Told {
    /// A value, for which nothing is demanded.
    pub(crate) fn value(alloc: Global, value: AValue) -> Told
        ensures { IsTold (looked (value_of value)) result }
    {
        Told {
            value,
            demands: DemandList::new(alloc),
        }
    }

    /// Nothing is told.
    pub(crate) fn nothing(alloc: Global) -> Told
        ensures { IsTold (looked no_value) result }
    {
        Told::value(alloc, AValue::empty(alloc))
    }
}
