// The state at the start of a sheet, the execution of its steps, and the truth of its goals.
ghost use Rattle.std.specs.Prelude.{◌≡◌};
ghost use Rattle.sheet.specs.Reading.{tree};
ghost use Rattle.execution.specs.Execution.{start_of};
ghost use Rattle.execution.specs.Executed.{Executed, Valued};
ghost use Rattle.execution.specs.State.{holds};

use crate::active::active_effects;
use crate::states::State;
use crate::successor::{clashes, successor};
use crate::truth::truth;
use sheet::{Kind, Sheet};

// Why a step is not executed.
#[derive(Clone, Copy, Debug, PartialEq, Eq)]
pub enum ExecutionFault {
    NoSuchStep,
    ConditionFalse,
    SetAndCleared,
}

// The facts that the sheet's STARTs name are true, and no others.
pub fn start(sheet: &Sheet<'_>) -> State
    ensures { holds result ≡ start_of (tree sheet.now) }
{
    sheet
        .words()
        .iter()
        .filter(|word| sheet::kind_of(**word) == Kind::Start)
        .map(|word| sheet::argument_of(*word))
        .fold(State::none(), State::with)
}

// The state after a step of the sheet.
pub fn execute(sheet: &Sheet<'_>, step: u32, before: State) -> Result<State, ExecutionFault>
    ensures { Executed (tree sheet.now) (holds before) step result }
{
    let part = sheet.step(step).ok_or(ExecutionFault::NoSuchStep)?;
    let condition = truth(&part[1..], before);
    if !condition.value {
        return Err(ExecutionFault::ConditionFalse);
    }
    let active = active_effects(condition.rest, before);
    if clashes(&active) {
        return Err(ExecutionFault::SetAndCleared);
    }
    Ok(successor(before, active))
}

// Whether a goal of the sheet is true in a state; None where the sheet has no such goal.
pub fn satisfied(sheet: &Sheet<'_>, goal: u32, state: State) -> Option<bool>
    ensures { Valued (tree sheet.now) (holds state) goal result }
{
    let part = sheet.goal(goal)?;
    Some(truth(&part[1..], state).value)
}
