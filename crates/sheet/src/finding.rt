// The steps and goals of a sheet, and what its steps cost.
ghost use Rattle.std.specs.Prelude.{◌≤◌, length, MatchOption};
ghost use Rattle.sheet.specs.KindPlaces.{Finds};
ghost use Rattle.sheet.specs.Reading.{tree, GoalPart, StepPart, WorkOf};

use crate::kinds::{Kind, grade_of, is_of, minutes_of};
use crate::view::Sheet;

// What doing a step costs: minutes and a grade.
#[derive(Clone, Copy, Debug, PartialEq, Eq)]
pub struct Work {
    pub minutes: u16,
    pub grade: u8,
}

// The part of the words that begins at the word with this number among those of its kind.
fn from_kind<'a>(words: &'a [u32], kind: Kind, number: u32) -> Option<&'a [u32]>
    ensures { Finds kind number words.now result }
{
    let (place, _) = words
        .iter()
        .enumerate()
        .filter(|(_, word)| is_of(**word, kind))
        .nth(number as usize)?;
    Some(&words[place..])
}

impl<'a> Sheet<'a> {
    // The part of the words that begins at a step's STEP word.
    pub fn step(&self, number: u32) -> Option<&'a [u32]>
        ensures { MatchOption result (length (tree self.now).steps ≤ number) (λ part. StepPart (tree self.now) number part.now) }
    {
        from_kind(self.words, Kind::Step, number)
    }

    // The part of the words that begins at a goal's GOAL word.
    pub fn goal(&self, number: u32) -> Option<&'a [u32]>
        ensures { MatchOption result (length (tree self.now).goals ≤ number) (λ part. GoalPart (tree self.now) number part.now) }
    {
        from_kind(self.words, Kind::Goal, number)
    }

    // What doing a step costs.
    pub fn work(&self, number: u32) -> Option<Work>
        ensures { MatchOption result (length (tree self.now).steps ≤ number) (λ w. WorkOf (tree self.now) number w) }
    {
        let part = self.step(number)?;
        let word = part[0];
        // Cast, since the two are proved to fit: try_from would bring an error that cannot come.
        Some(Work {
            minutes: minutes_of(word) as u16,
            grade: grade_of(word) as u8,
        })
    }
}
