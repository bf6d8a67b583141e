//! What is given over the elements of lists.

ghost use Rattle.std.specs.Prelude.{◌≡◌, IfOk};
ghost use Rattle.ja_abstract.specs.Primitives.{over, over_pairs};
ghost use Rattle.ja_absprim.specs.Primitives.{abstracted_of};

use crate::Abstracted;
use ja_base::Memory;
use std::alloc::Global;

/// What is given of two things.
pub trait Pairing<X> {
    ghost use Rattle.ja_abstract.specs.Primitives.{Abstracted as Given};

    /// What is given.
    ghost pair_gives: { Self → X → X → Given };

    /// What is given of two things.
    fn pair(&self, alloc: Global, a: &X, b: &X) -> Result<Abstracted, Memory>
        ensures { IfOk result (λ r. abstracted_of r ≡ pair_gives self.now a.now b.now) };
}

/// What is given of a thing with each of a list.
pub fn over_row<X, P: Pairing<X>>(
    alloc: Global,
    pairing: &P,
    a: &X,
    others: &[X],
) -> Result<Abstracted, Memory>
    ensures { IfOk result (λ r. abstracted_of r
        ≡ over (P.pair_gives pairing.now a.now) others.now) }
{
    let mut all = Abstracted::none(alloc);
    for b in others.iter().rev() {
        all = Abstracted::either(alloc, pairing.pair(alloc, a, b), all)?;
    }
    Ok(all)
}

/// What is given of each of a list with each of another.
pub fn over_pairs<X, P: Pairing<X>>(
    alloc: Global,
    pairing: &P,
    list: &[X],
    others: &[X],
) -> Result<Abstracted, Memory>
    ensures { IfOk result (λ r. abstracted_of r
        ≡ over_pairs (P.pair_gives pairing.now) list.now others.now) }
{
    let mut all = Abstracted::none(alloc);
    for a in list.iter().rev() {
        all = Abstracted::either(alloc, over_row(alloc, pairing, a, others), all)?;
    }
    Ok(all)
}
