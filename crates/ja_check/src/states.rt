ghost use Rattle.std.specs.Prelude.{◌≡◌, ◌↔◌, IfOk, IsTrue};
ghost use Rattle.ja_astate.specs.State.{state_of, HaveOneShape};

use ja_astate::AState;
use ja_base::Memory;
use ja_table::is_leq;
use std::alloc::Global;

/// Whether two states are the same.
pub(crate) fn is_same(alloc: Global, state: &AState, other: &AState) -> Result<bool, Memory>
    requires { HaveOneShape other.now state.now }
    ensures { IfOk result (λ b. IsTrue b ↔ (state_of state.now ≡ state_of other.now)) }
{
    let below = is_leq(alloc, state, other)?;
    let above = is_leq(alloc, other, state)?;
    Ok(below & above)
}
