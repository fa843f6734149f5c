// Minutes up to a cap, and none: the weights of longest and of sum.
ghost use Rattle.std.specs.Prelude.{◌≡◌};
ghost use Rattle.weights.specs.Minutes.{of, capped_sum};
ghost use Rattle.weights.specs.Figures.{minutes_figure};

use crate::figure::Figure;

// The most minutes that are told; more count as so many.
const TOP: u32 = 4_294_967_294;

// No enum of a number or none: its cases are public, so that anyone could make one of a number that is no weight.
#[derive(Clone, Copy, Debug, PartialEq, Eq, PartialOrd, Ord)]
pub struct Minutes {
    number: u32,
}

impl Minutes {
    // A number above the cap keeps the order of numbers and one word a weight; an Option has None first, and takes two.
    pub(crate) const NONE: Minutes = Minutes {
        number: 4_294_967_295,
    };

    // The sum, at most the cap; with none it is none.
    pub(crate) fn capped_sum(self, other: Minutes) -> Minutes
        ensures { result ≡ capped_sum self other }
    {
        if self == Minutes::NONE || other == Minutes::NONE {
            return Minutes::NONE;
        }
        Minutes {
            number: self.number.saturating_add(other.number).min(TOP),
        }
    }
}

impl From<u16> for Minutes {
    ghost from_gives = { λ minutes weight. weight ≡ of minutes };

    fn from(minutes: u16) -> Minutes {
        Minutes {
            number: u32::from(minutes),
        }
    }
}

impl From<Minutes> for Figure {
    ghost from_gives = { λ weight figure. figure ≡ minutes_figure weight };

    fn from(weight: Minutes) -> Figure {
        if weight == Minutes::NONE {
            Figure::None
        } else {
            Figure::Number(weight.number)
        }
    }
}
