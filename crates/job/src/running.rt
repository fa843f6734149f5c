// A list of calls, run one after the other.
ghost use Rattle.std.specs.Prelude.{◌≡◌, MatchResult};
ghost use Rattle.sheet.specs.Reading.{tree};
ghost use Rattle.job.specs.Moments.{PromisedList};
ghost use Rattle.job.specs.Promises.{PromisedCall};
ghost use Rattle.job.specs.Records.{ledger};

use crate::calls::{Answer, Call};
use crate::jobs::Job;
use sheet::Sheet;
use std::alloc::{AllocError, Global};

impl Job {
    // Makes one call and tells what it is answered.
    pub fn answer(&mut self, sheet: &Sheet<'_>, call: Call) -> Answer
        ensures { PromisedCall sheet.now self.old call result self.new }
    {
        match call {
            Call::Do(step) => self.do_step(sheet, step),
            Call::Strike(step) => Ok(self.strike(sheet, step)?),
            Call::Allow(step) => Ok(self.allow(sheet, step)?),
        }
    }

    // Makes a list of calls and tells their answers; without memory for these it makes none.
    pub fn run(
        &mut self,
        sheet: &Sheet<'_>,
        heap: Global,
        calls: &[Call],
    ) -> Result<Vec<Answer>, AllocError>
        ensures { MatchResult result
            (λ answers. PromisedList (tree sheet.now) (ledger self.old) calls.now answers.items (ledger self.new))
            (λ _. self.new ≡ self.old) }
    {
        let mut answers = Vec::with_capacity(heap, calls.len())?;
        for call in calls {
            let answer = self.answer(sheet, *call);
            answers.push_reserved(answer);
        }
        Ok(answers)
    }
}
