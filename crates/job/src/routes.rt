// Why a route is refused.
ghost use Rattle.std.specs.Prelude.{◌≡◌};
ghost use Rattle.job.specs.Numbers.{route_number, check_number};
ghost use Rattle.job.specs.declared.routes.CheckFault.TheVariants.{Route};
ghost use Rattle.job.specs.declared.routes.RouteFault.TheVariants.{Step};

use crate::faults::StepFault;

#[derive(Clone, Copy, Debug, PartialEq, Eq)]
pub enum RouteFault {
    Step(StepFault),
    GoalFalse,
}

// A route's fault comes with its position: the place of the step from 0, or the route's length.
#[derive(Clone, Copy, Debug, PartialEq, Eq)]
pub enum CheckFault {
    NoSuchGoal,
    Route { fault: RouteFault, position: usize },
}

impl From<StepFault> for RouteFault {
    ghost from_gives = { λ f r. r ≡ Step f };

    fn from(fault: StepFault) -> RouteFault {
        RouteFault::Step(fault)
    }
}

impl RouteFault {
    pub(crate) fn at(self, position: usize) -> CheckFault
        ensures { result ≡ Route self position }
    {
        CheckFault::Route {
            fault: self,
            position,
        }
    }
}

impl From<RouteFault> for u8 {
    ghost from_gives = { λ f n. n ≡ route_number f };

    fn from(fault: RouteFault) -> u8 {
        match fault {
            RouteFault::Step(fault) => fault.into(),
            RouteFault::GoalFalse => 15,
        }
    }
}

impl From<CheckFault> for u8 {
    ghost from_gives = { λ f n. n ≡ check_number f };

    fn from(fault: CheckFault) -> u8 {
        match fault {
            CheckFault::NoSuchGoal => 9,
            CheckFault::Route { fault, .. } => fault.into(),
        }
    }
}
