// The calls of a job. Each is given the sheet; a refusal changes nothing.
ghost use Rattle.std.specs.Prelude.{◌≡◌, ◌<◌, OnOk};
ghost use Rattle.sheet.specs.Reading.{tree};
ghost use Rattle.job.specs.declared.calls.Call.TheVariants.{Do, Strike, Allow};
ghost use Rattle.job.specs.Answers.{answer_to_mark, marking};
ghost use Rattle.job.specs.Attempts.{Attempted};
ghost use Rattle.job.specs.Moments.{opening};
ghost use Rattle.job.specs.Promises.{PromisedCall};
ghost use Rattle.job.specs.Records.{ledger};

use crate::faults::{DoFault, StepFault};
use crate::jobs::Job;
use crate::strikes::Strikes;
use crate::trail::Trail;
use execution::State;
use sheet::Sheet;

impl Job {
    // A job newly begun: the state is the start, no step is struck and none is done.
    pub fn open(sheet: &Sheet<'_>) -> Job
        ensures { ledger result ≡ opening (tree sheet.now) }
    {
        Job {
            state: execution::start(sheet),
            strikes: Strikes::none(),
            trail: Trail::empty(),
        }
    }

    // The state after a step, if it may be done now; the trail is not asked.
    pub(crate) fn attempt(&self, sheet: &Sheet<'_>, step: u32) -> Result<State, StepFault>
        ensures attempted { Attempted (tree sheet.now) (ledger self.now) step result }
        ensures few { OnOk result (step < 64) }
    {
        if step >= sheet.steps() {
            return Err(StepFault::NoSuchStep);
        }
        if self.strikes.contains(step) {
            return Err(StepFault::Struck);
        }
        Ok(execution::execute(sheet, step, self.state)?)
    }

    // Does an allowed step and puts it on the trail.
    pub fn do_step(&mut self, sheet: &Sheet<'_>, step: u32) -> Result<(), DoFault>
        ensures { PromisedCall sheet.now self.old (Do step) result self.new }
    {
        let next = self.attempt(sheet, step)?;
        if self.trail.is_full() {
            return Err(DoFault::TrailFull);
        }
        self.state = next;
        // A number of a step on a sheet fits a byte.
        self.trail.push(step as u8);
        Ok(())
    }

    // Marks a step struck or allowed, also where it is so already: one body, since the two differ in a value alone.
    fn mark(&mut self, sheet: &Sheet<'_>, step: u32, struck: bool) -> Result<(), StepFault>
        ensures { PromisedCall sheet.now self.old (marking struck step) (answer_to_mark result) self.new }
    {
        if step >= sheet.steps() {
            return Err(StepFault::NoSuchStep);
        }
        self.strikes = self.strikes.marked(step, struck);
        Ok(())
    }

    pub fn strike(&mut self, sheet: &Sheet<'_>, step: u32) -> Result<(), StepFault>
        ensures { PromisedCall sheet.now self.old (Strike step) (answer_to_mark result) self.new }
    {
        self.mark(sheet, step, true)
    }

    pub fn allow(&mut self, sheet: &Sheet<'_>, step: u32) -> Result<(), StepFault>
        ensures { PromisedCall sheet.now self.old (Allow step) (answer_to_mark result) self.new }
    {
        self.mark(sheet, step, false)
    }
}
