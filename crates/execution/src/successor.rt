// The state that follows a step, and whether there is one.
ghost use Rattle.std.specs.Prelude.{◌≡◌, ℕ, true, false, if◌then◌else◌, Decides};
ghost use Rattle.execution.specs.State.{holds};
ghost use Rattle.execution.specs.Gathered.{set_in, cleared_in};

use crate::active::Active;
use crate::states::State;

// Some fact is both set and cleared.
pub(crate) fn clashes(active: &Active) -> bool
    ensures { Decides result ((f : ℕ) × (set_in active.now f ≡ true) × (cleared_in active.now f ≡ true)) }
{
    active.set.meets(active.cleared)
}

pub(crate) fn successor(before: State, active: Active) -> State
    ensures { (f : ℕ) → holds result f
        ≡ (if set_in active f then true else (if cleared_in active f then false else holds before f)) }
{
    State {
        bits: before.bits.difference(active.cleared).union(active.set),
    }
}
