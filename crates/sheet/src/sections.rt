// Where reading stands between the parts of a sheet, and what a word there does.
ghost use Rattle.std.specs.Prelude.{◌≡◌};
ghost use Rattle.sheet.specs.Survey.{enter, enter_start, enter_step, enter_goal, enter_end, next_step, next_goal, admitted_part, inside};

use crate::faults::{Cause, Part, Refusal};
use crate::kinds::{Place, argument_fits, argument_of, row_of};

// The most steps and goals that a sheet may have: a number below fits a byte, so it is cast without an error.
const MOST_STEPS: u32 = 64;

const MOST_GOALS: u32 = 8;

// After STARTs, with the least fact that the next may name; in a step or a goal, whose numbers are below 64 and 8.
#[derive(Clone, Copy)]
pub enum Section {
    Starts { floor: u32 },
    Step { number: u8 },
    Goal { steps: u32, number: u8 },
}

// Whether a word may open the part with this number, of at most `most`, and why not.
fn admit_part(word: u32, facts: u32, number: u32, most: u32) -> Result<(), Cause>
    ensures { result ≡ admitted_part facts word number most }
{
    if !argument_fits(word, facts) {
        return Err(Cause::Argument);
    }
    if number >= most {
        return Err(Cause::TooManyParts);
    }
    Ok(())
}

impl Section {
    pub(crate) fn next_step(self) -> u32
        ensures { result ≡ next_step self }
    {
        match self {
            Section::Starts { .. } => 0,
            Section::Step { number } => u32::from(number) + 1,
            Section::Goal { steps, .. } => steps,
        }
    }

    pub(crate) fn next_goal(self) -> u32
        ensures { result ≡ next_goal self }
    {
        match self {
            Section::Starts { .. } | Section::Step { .. } => 0,
            Section::Goal { number, .. } => u32::from(number) + 1,
        }
    }

    // The part whose words are being read.
    pub(crate) fn part(self) -> Part
        ensures { result ≡ inside self }
    {
        match self {
            Section::Starts { .. } => Part::Head,
            Section::Step { number } => Part::Step(u32::from(number)),
            Section::Goal { number, .. } => Part::Goal(u32::from(number)),
        }
    }

    fn start(self, word: u32, facts: u32) -> Result<Option<Section>, Refusal>
        ensures { result ≡ enter_start facts self word }
    {
        let Section::Starts { floor } = self else {
            return Err(Cause::Kind.in_part(Part::Head));
        };
        let fact = argument_of(word);
        if argument_fits(word, facts) && floor <= fact {
            Ok(Some(Section::Starts { floor: fact + 1 }))
        } else {
            Err(Cause::Argument.in_part(Part::Head))
        }
    }

    fn step(self, word: u32, facts: u32) -> Result<Option<Section>, Refusal>
        ensures { result ≡ enter_step facts self word }
    {
        if let Section::Goal { .. } = self {
            return Err(Cause::Kind.in_part(Part::Head));
        }
        let number = self.next_step();
        let part = Part::Step(number);
        admit_part(word, facts, number, MOST_STEPS).map_err(|cause| cause.in_part(part))?;
        Ok(Some(Section::Step {
            number: number as u8,
        }))
    }

    fn goal(self, word: u32, facts: u32) -> Result<Option<Section>, Refusal>
        ensures { result ≡ enter_goal facts self word }
    {
        let number = self.next_goal();
        let part = Part::Goal(number);
        admit_part(word, facts, number, MOST_GOALS).map_err(|cause| cause.in_part(part))?;
        Ok(Some(Section::Goal {
            steps: self.next_step(),
            number: number as u8,
        }))
    }

    fn end(word: u32, facts: u32) -> Result<Option<Section>, Refusal>
        ensures { result ≡ enter_end facts word }
    {
        if argument_fits(word, facts) {
            Ok(None)
        } else {
            Err(Cause::Argument.in_part(Part::Head))
        }
    }

    // The section that a word opens, or none where it ends the sheet; a match, since the table's rows hold data.
    pub(crate) fn entry(self, word: u32, facts: u32) -> Result<Option<Section>, Refusal>
        ensures { result ≡ enter facts self word }
    {
        match row_of(word).place {
            Place::Start => self.start(word, facts),
            Place::Step => self.step(word, facts),
            Place::Goal => self.goal(word, facts),
            Place::End => Section::end(word, facts),
            Place::Formula | Place::Effect | Place::First | Place::Nowhere => {
                Err(Cause::Kind.in_part(Part::Head))
            }
        }
    }
}
