ghost use Rattle.std.specs.Prelude.{◌≡◌, IfOk};
ghost use Rattle.ja_prim.specs.declared.primitive.Primitive.TheVariants as primitive;
ghost use Rattle.ja_prim.specs.Comparison.{to_primitive};
ghost use Rattle.ja_abstract.specs.Primitives.{gives, gives_or_stops, no_result, either, exact, both_bools};
ghost use Rattle.ja_value.specs.Value.{value_of};

use crate::made::{of_bools, of_num};
use ja_base::Memory;
use ja_prim::{Num, Primitive, Stop};
use ja_value::AValue;
use std::alloc::Global;

/// What an operation gives of abstract primitives, and whether it may leave the profile.
pub struct Abstracted {
    pub value: AValue,
    pub may_stop: bool,
}

impl Drop for Abstracted {
    fn drop(self) {
        let Abstracted {
            value: _,
            may_stop: _,
        } = self;
    }
}

impl Abstracted {
    ghost use Rattle.ja_abstract.specs.Primitives.{Abstracted as Given};
    ghost use Rattle.ja_absprim.specs.Primitives.{abstracted_of};

    /// The value that is given.
    pub fn into_value(self) -> AValue
        ensures { result ≡ self.value }
    {
        let Abstracted { value, may_stop: _ } = self;
        value
    }

    /// Nothing is given.
    pub fn none(alloc: Global) -> Abstracted
        ensures { abstracted_of result ≡ no_result }
    {
        Abstracted::gives(AValue::empty(alloc))
    }

    /// A value is given.
    pub fn gives(value: AValue) -> Abstracted
        ensures { abstracted_of result ≡ gives (value_of value) }
    {
        Abstracted {
            value,
            may_stop: false,
        }
    }

    /// A value is given, or the profile is left.
    pub(crate) fn gives_or_stops(value: AValue) -> Abstracted
        ensures { abstracted_of result ≡ gives_or_stops (value_of value) }
    {
        Abstracted {
            value,
            may_stop: true,
        }
    }

    /// A truth value of which nothing is known.
    pub(crate) fn both(alloc: Global) -> Abstracted
        ensures { abstracted_of result ≡ both_bools }
    {
        Abstracted::gives(of_bools(alloc, true, true))
    }

    /// Just a number, or why the profile is left.
    pub(crate) fn exact_number(alloc: Global, number: Result<Num, Stop>) -> Abstracted
        ensures { abstracted_of result ≡ exact (to_primitive primitive.Number number) }
    {
        match number {
            Ok(number) => Abstracted::gives(of_num(alloc, number)),
            Err(_) => Abstracted::gives_or_stops(AValue::empty(alloc)),
        }
    }

    /// Just a truth value, or why the profile is left.
    pub(crate) fn exact_bool(alloc: Global, truth: Result<bool, Stop>) -> Abstracted
        ensures { abstracted_of result ≡ exact (to_primitive primitive.Bool truth) }
    {
        match truth {
            Ok(truth) => Abstracted::gives(AValue::of_bool(alloc, truth)),
            Err(_) => Abstracted::gives_or_stops(AValue::empty(alloc)),
        }
    }

    /// What the first of some things gives, and what the others give.
    pub fn either(
        alloc: Global,
        first: Result<Abstracted, Memory>,
        others: Abstracted,
    ) -> Result<Abstracted, Memory>
        ensures { (one : Given) → IfOk first (λ r. abstracted_of r ≡ one)
            → IfOk result (λ r. abstracted_of r ≡ either one (abstracted_of others)) }
    {
        let mut given = first?;
        given.value.join(alloc, &others.value)?;
        given.may_stop = given.may_stop | others.may_stop;
        Ok(given)
    }
}
