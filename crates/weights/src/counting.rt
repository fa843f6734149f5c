// The kinds that count minutes: longest and sum, which differ in what two things weigh that are both wanted.
ghost use Rattle.std.specs.Prelude.{◌≡◌};
ghost use Rattle.weights.specs.Kinds.{counting, longest, sum};
ghost use Rattle.std.proofs.Common.{rules};

use crate::kind::WeightKind;
use crate::minutes::Minutes;

#[derive(Clone, Copy, Debug, PartialEq, Eq)]
pub struct Counting<const TAKES_LARGER: bool>;

// The larger for both, the capped sum for then.
pub type Longest = Counting<true>;

// The capped sum for both and for then.
pub type Sum = Counting<false>;

// Two functions, so that each name is tied to its own definition.
impl Longest {
    pub fn new() -> Longest
        ensures { ⟦<Longest as WeightKind>⟧.algebra result ≡ longest }
    {
        Counting
    }
}

impl Sum {
    pub fn new() -> Sum
        ensures { ⟦<Sum as WeightKind>⟧.algebra result ≡ sum }
    {
        Counting
    }
}

impl<const TAKES_LARGER: bool> WeightKind for Counting<TAKES_LARGER> {
    type Weight = Minutes;

    ghost algebra = { λ _. counting TAKES_LARGER };

    ghost lawful = { Prim.search rules };

    fn zero(&self) -> Minutes {
        Minutes::from(0)
    }

    fn none(&self) -> Minutes {
        Minutes::NONE
    }

    fn is_less(&self, first: Minutes, second: Minutes) -> bool {
        first < second
    }

    fn both(&self, first: Minutes, second: Minutes) -> Minutes {
        if TAKES_LARGER {
            first.max(second)
        } else {
            first.capped_sum(second)
        }
    }

    fn then(&self, first: Minutes, second: Minutes) -> Minutes {
        first.capped_sum(second)
    }

    fn step(&self, minutes: u16, _grade: u8) -> Minutes {
        Minutes::from(minutes)
    }

    fn takes_larger(&self) -> bool {
        TAKES_LARGER
    }
}
