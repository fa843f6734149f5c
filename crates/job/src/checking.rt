// What a route weighs: its steps are executed on a copy of the state.
ghost use Rattle.std.specs.Prelude.{◌≡◌, ◌<◌, length};
ghost use Rattle.execution.specs.State.{holds};
ghost use Rattle.sheet.specs.Reading.{tree};
ghost use Rattle.job.specs.Checking.{PromisedCheck, TriedStep, Walked};
ghost use Rattle.job.specs.Records.{ledger};

use crate::faults::StepFault;
use crate::jobs::Job;
use crate::routes::{CheckFault, RouteFault};
use execution::State;
use sheet::Sheet;
use weights::WeightKind;

// The state that a step or a route leads to, and what it weighs.
#[derive(Clone, Copy)]
struct Tried<W> {
    state: State,
    weight: W,
}

impl Job {
    fn try_step<K: WeightKind>(
        &self,
        sheet: &Sheet<'_>,
        kind: &K,
        before: State,
        step: u32,
    ) -> Result<Tried<K::Weight>, RouteFault>
        ensures { TriedStep (K.algebra kind.now) (tree sheet.now) (ledger self.now) (holds before) step result }
    {
        let work = sheet.work(step).ok_or(StepFault::NoSuchStep)?;
        let there = Job {
            state: before,
            ..*self
        };
        let state = there.attempt(sheet, step)?;
        let weight = kind.step(work.minutes, work.grade);
        Ok(Tried { state, weight })
    }

    // Executes a route's steps in turn, up to the first that is refused.
    fn walk<K: WeightKind>(
        &self,
        sheet: &Sheet<'_>,
        kind: &K,
        route: &[u8],
    ) -> Result<Tried<K::Weight>, CheckFault>
        ensures { Walked (K.algebra kind.now) (tree sheet.now) (ledger self.now) route.now result }
    {
        let mut state = self.state;
        let mut weight = kind.zero();
        for (position, step) in route.iter().enumerate() {
            let tried = self
                .try_step(sheet, kind, state, u32::from(*step))
                .map_err(|fault| fault.at(position))?;
            state = tried.state;
            weight = kind.then(weight, tried.weight);
        }
        Ok(Tried { state, weight })
    }

    // What a route weighs that leads to a goal from here, by the steps that are allowed; nothing is done.
    pub fn check<K: WeightKind>(
        &self,
        sheet: &Sheet<'_>,
        kind: &K,
        goal: u32,
        route: &[u8],
    ) -> Result<K::Weight, CheckFault>
        ensures { PromisedCheck (K.algebra kind.now) (tree sheet.now) (ledger self.now) goal route.now result }
    {
        if goal >= sheet.goals() {
            return Err(CheckFault::NoSuchGoal);
        }
        match self.walk(sheet, kind, route) {
            Ok(end) if execution::satisfied(sheet, goal, end.state).unwrap_or(false) => {
                Ok(end.weight)
            }
            Ok(_) => Err(RouteFault::GoalFalse.at(route.len())),
            Err(fault) => Err(fault),
        }
    }
}
