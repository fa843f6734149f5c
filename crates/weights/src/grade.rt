// Grade: the highest grade among the steps, the larger for both and for then.
ghost use Rattle.std.specs.Prelude.{◌≡◌};
ghost use Rattle.weights.specs.Figures.{grade_figure};
ghost use Rattle.weights.specs.Kinds.{grade};
ghost use Rattle.std.proofs.Common.{rules};

use crate::figure::Figure;
use crate::kind::WeightKind;

// No enum of a number or none: in its order a number above nine, of which no law speaks, would come before none.
#[derive(Clone, Copy, Debug, PartialEq, Eq, PartialOrd, Ord)]
pub struct HighestGrade {
    number: u8,
}

impl HighestGrade {
    // A number above the highest grade keeps the order of numbers; an Option has None first.
    const NONE: HighestGrade = HighestGrade { number: 10 };
}

// As for minutes: one text for both would need their number types and their none as parameters.
impl From<HighestGrade> for Figure {
    ghost from_gives = { λ weight figure. figure ≡ grade_figure weight };

    fn from(weight: HighestGrade) -> Figure {
        if weight == HighestGrade::NONE {
            Figure::None
        } else {
            Figure::Number(u32::from(weight.number))
        }
    }
}

#[derive(Clone, Copy, Debug, PartialEq, Eq)]
pub struct Grade;

impl WeightKind for Grade {
    type Weight = HighestGrade;

    ghost algebra = { λ _. grade };

    ghost lawful = { Prim.search rules };

    fn zero(&self) -> HighestGrade {
        HighestGrade { number: 0 }
    }

    fn none(&self) -> HighestGrade {
        HighestGrade::NONE
    }

    fn is_less(&self, first: HighestGrade, second: HighestGrade) -> bool {
        first < second
    }

    fn both(&self, first: HighestGrade, second: HighestGrade) -> HighestGrade {
        first.max(second)
    }

    fn then(&self, first: HighestGrade, second: HighestGrade) -> HighestGrade {
        self.both(first, second)
    }

    fn step(&self, _minutes: u16, grade: u8) -> HighestGrade {
        HighestGrade { number: grade }
    }

    fn takes_larger(&self) -> bool {
        true
    }
}
