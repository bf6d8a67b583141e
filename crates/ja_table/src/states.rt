ghost use Rattle.std.specs.Prelude.{◌≡◌, ◌↔◌, IfOk, IsTrue};
ghost use Rattle.ja_abstract.specs.Order.{LeqState};
ghost use Rattle.ja_astate.specs.State.{state_of, HaveOneShape};

use ja_astate::AState;
use ja_base::Memory;
use std::alloc::Global;

/// Whether another state has each part of a first one: a join of the first changes nothing.
pub fn is_leq(alloc: Global, state: &AState, other: &AState) -> Result<bool, Memory>
    requires { HaveOneShape other.now state.now }
    ensures { IfOk result (λ b. IsTrue b ↔ LeqState (state_of state.now) (state_of other.now)) }
{
    let mut joined = other.fork(alloc)?;
    let changed = joined.join(alloc, state)?;
    Ok(!changed)
}
