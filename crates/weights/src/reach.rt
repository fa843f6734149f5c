// Reach: whether steps lead there at all, none where a side is none.
ghost use Rattle.std.specs.Prelude.{◌≡◌};
ghost use Rattle.weights.specs.Figures.{reach_figure};
ghost use Rattle.weights.specs.Kinds.{reach};
ghost use Rattle.std.proofs.Common.{rules};

use crate::figure::Figure;
use crate::kind::WeightKind;

// In the order of weights: none is the greatest, where an Option has it first.
#[derive(Clone, Copy, Debug, PartialEq, Eq, PartialOrd, Ord)]
pub enum Reached {
    Yes,
    None,
}

impl From<Reached> for Figure {
    ghost from_gives = { λ weight figure. figure ≡ reach_figure weight };

    fn from(weight: Reached) -> Figure {
        match weight {
            Reached::Yes => Figure::Yes,
            Reached::None => Figure::None,
        }
    }
}

// Joins as Grade does: a kind over both would take zero, none and step as members, which is WeightKind again.
#[derive(Clone, Copy, Debug, PartialEq, Eq)]
pub struct Reach;

impl WeightKind for Reach {
    type Weight = Reached;

    ghost algebra = { λ _. reach };

    ghost lawful = { Prim.search rules };

    fn zero(&self) -> Reached {
        Reached::Yes
    }

    fn none(&self) -> Reached {
        Reached::None
    }

    fn is_less(&self, first: Reached, second: Reached) -> bool {
        first < second
    }

    fn both(&self, first: Reached, second: Reached) -> Reached {
        first.max(second)
    }

    fn then(&self, first: Reached, second: Reached) -> Reached {
        self.both(first, second)
    }

    fn step(&self, _minutes: u16, _grade: u8) -> Reached {
        Reached::Yes
    }

    fn takes_larger(&self) -> bool {
        true
    }
}
